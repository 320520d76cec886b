//! What to do about faults, by their kinds: `@` stands for what is named, and `#` for the state that is.

ghost use Rattle.std.specs.Prelude.{◌≡◌, option_map};
ghost use Rattle.lsp_sentences.specs.Sentences.{sentence_in, repair_of};
ghost use Rattle.lsp_sentences.specs.Repairs.{of_texts, of_protocols, of_courses, of_typestates, of_members, of_bodies, of_usages};

// Of texts: their bytes, and their grammar.
fn of_texts(kind: &str) -> Option<&'static str>
    ensures { option_map (λ s. s.now) result ≡ sentence_in of_texts kind.now }
{
    match kind {
        "TooLarge" => Some(
            "part it into smaller files, or make one state of those that offer the same",
        ),
        "BadByte" => Some(
            "delete this byte, or close the comment, text or name that begins here, and save the file as UTF-8",
        ),
        "Unsupported" => Some("write it otherwise: docs/LANGUAGE.md has what stands in its place"),
        "Syntax" => Some("mend this token or the one before it: docs/LANGUAGE.md has the grammar"),
        "OpenComment" => Some("close it by */, or begin each of its lines by //"),
        "OpenText" => Some("close it in its line, and write \\n for a line feed in it"),
        "BadEscape" => Some("write the character itself, since sources are UTF-8"),
        "BadNumber" => Some(
            "count in whole numbers, as cents for money and thousandths for a rate",
        ),
        _ => None,
    }
}

// Of protocols: what they declare and name.
fn of_protocols(kind: &str) -> Option<&'static str>
    ensures { option_map (λ s. s.now) result ≡ sentence_in of_protocols kind.now }
{
    match kind {
        "DuplicateName" => Some(
            "rename or drop one, and keep what translate wrote in another folder than its .scr file",
        ),
        "UnknownRole" => Some("list @ there, or name a role that is listed"),
        "PeerIsSelf" => Some(
            "name the other role, to which the message goes or from which it comes",
        ),
        "UnknownType" => Some("carry an int, a boolean or a String, or declare @ as one of them"),
        "PayloadCount" => Some("send each value by a message of its own"),
        "UnknownProtocol" => Some("name a protocol of the file, or write @ into it"),
        "DuplicateProtocol" => Some("give the second another name"),
        "RolesDiffer" => Some(
            "write at the same role as the first protocol, list the roles as it does, and name them in that order behind do",
        ),
        "NotLast" => Some("move what stands behind into the branches that come there"),
        "StartsWithDo" => Some("put a protocol that begins so in front of @"),
        "SameRole" => Some("move one of them into a folder of its own"),
        _ => None,
    }
}

// Of the ways that protocols go.
fn of_courses(kind: &str) -> Option<&'static str>
    ensures { option_map (λ s. s.now) result ≡ sentence_in of_courses kind.now }
{
    match kind {
        "UnknownRec" => Some("name a rec that stands around this continue, or put rec @ around it"),
        "DuplicateRec" => Some("give the inner one another name"),
        "Unguarded" => Some("put a message on the way there"),
        "Unreachable" => Some(
            "delete it, or end the loop before it by a choice: one branch goes on, the other has this",
        ),
        "BranchStart" => Some(
            "begin this branch by one that tells which branch it is, as bye() where nothing is left to do",
        ),
        "MixedChoice" => Some(
            "name the role behind choice at that sends the first messages of all branches",
        ),
        "SameLabel" => Some("give each branch a label of its own"),
        "ReservedLabel" => Some("give the message another label"),
        "NameClash" => Some(
            "change a label in the protocol, since a call is named after label, payload and role",
        ),
        "TooManyStates" => Some("write what repeats once, in a rec"),
        _ => None,
    }
}

// Of typestates.
fn of_typestates(kind: &str) -> Option<&'static str>
    ensures { option_map (λ s. s.now) result ≡ sentence_in of_typestates kind.now }
{
    match kind {
        "DuplicateState" => Some("rename one, or put the methods of both into one"),
        "UnknownState" => Some("add @ to it, or mend the name: the finished state is written end"),
        "DuplicateMethod" => Some("delete one of them, or give it another name"),
        "SignatureDiffers" => Some(
            "write @ with one result and the same types of parameters everywhere",
        ),
        "DuplicateLabel" => Some("list each constant of the enum once"),
        "ReservedEnd" => Some(
            "delete it here, or give the state another name where it offers a method",
        ),
        _ => None,
    }
}

// Of classes and their members.
fn of_members(kind: &str) -> Option<&'static str>
    ensures { option_map (λ s. s.now) result ≡ sentence_in of_members kind.now }
{
    match kind {
        "DuplicateMember" => Some("rename one of them"),
        "UnknownClass" => Some(
            "put the file of @ into this folder, and where it is a class name its typestate in front of it",
        ),
        "UnknownTypestate" => Some(
            "put the file of @ into this folder, or mend the name in front of the class",
        ),
        "MissingMethod" => Some("write @ into the class, without static"),
        "LabelsDiffer" => Some(
            "answer with an enum, and list each of its constants behind @ with the state to which it leads",
        ),
        "FieldNeedsValue" => Some("give @ a constant, and assign in a method what is none"),
        "InstanceInPlain" => Some("hand on as a parameter what a field would hold"),
        _ => None,
    }
}

// Of the bodies of methods.
fn of_bodies(kind: &str) -> Option<&'static str>
    ensures { option_map (λ s. s.now) result ≡ sentence_in of_bodies kind.now }
{
    match kind {
        "UnknownName" => Some("declare @ where all of its uses see it, or mend the name"),
        "DuplicateLocal" => Some("give the second variable another name"),
        "TypeMismatch" => Some(
            "write a value of that type, as the test i == 1 in the place of the number i",
        ),
        "Arity" => Some("give each parameter one argument"),
        "BadLabel" => Some(
            "leave a method by return and a loop by break, and list each constant of the enum in one case",
        ),
        "MissingReturn" => Some("return a value on each way to the end"),
        "SelfCall" => Some("put what both do into a helper, which the typestate does not name"),
        "ThisAsValue" => Some(
            "hand on what the other needs: a number, a text, or an object that a field holds",
        ),
        "ArgsMayMove" => Some("call the helper first, and hand on what it gave"),
        _ => None,
    }
}

// Of usages.
fn of_usages(kind: &str) -> Option<&'static str>
    ensures { option_map (λ s. s.now) result ≡ sentence_in of_usages kind.now }
{
    match kind {
        "UseMoved" => Some(
            "go on with the variable that has the object now, or have the method give it back as its result",
        ),
        "MaybeNull" => Some(
            "make the test in the if or while itself, since one that a boolean keeps tells nothing",
        ),
        "NotOffered" => Some(
            "call first what leads to a state that offers it, or delete the call; behind the end make a new object",
        ),
        "LeftOpen" => Some(
            "finish the object on each way out, or hand it on; in a typestate of your own # may have drop: end",
        ),
        "Overwritten" => Some("finish the first object, or hand it on, before @ gets another"),
        "FieldOpenAtEnd" => Some(
            "finish what @ holds in the method that finishes the object, or after which it may be left",
        ),
        _ => None,
    }
}

/// What to do about a kind of fault, if there is a sentence on that.
pub(crate) fn repair_of(kind: &str) -> Option<&'static str>
    ensures { option_map (λ s. s.now) result ≡ repair_of kind.now }
{
    if let Some(repair) = of_texts(kind) {
        return Some(repair);
    }
    if let Some(repair) = of_protocols(kind) {
        return Some(repair);
    }
    if let Some(repair) = of_courses(kind) {
        return Some(repair);
    }
    if let Some(repair) = of_typestates(kind) {
        return Some(repair);
    }
    if let Some(repair) = of_members(kind) {
        return Some(repair);
    }
    if let Some(repair) = of_bodies(kind) {
        return Some(repair);
    }
    of_usages(kind)
}
