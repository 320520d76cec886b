//! The sentences on faults, by their kinds: `@` stands for what is named, and `#` for the state that is.

ghost use Rattle.std.specs.Prelude.{◌≡◌, option_map};
ghost use Rattle.lsp_sentences.specs.Sentences.{sentence_in, sentence_of};
ghost use Rattle.lsp_sentences.specs.Table.{of_texts, of_protocols, of_courses, of_typestates, of_members, of_bodies, of_usages};

// Of texts: their bytes, and their grammar.
fn of_texts(kind: &str) -> Option<&'static str>
    ensures { option_map (λ s. s.now) result ≡ sentence_in of_texts kind.now }
{
    match kind {
        "TooLarge" => Some("the file has over 1,048,576 bytes, or a typestate over 1,000 states"),
        "BadByte" => Some(
            "no token begins here, a comment, text or name has no end, or the file is not UTF-8",
        ),
        "Unsupported" => Some("@ belongs to the language, but is not supported here"),
        "Syntax" => Some("the text does not follow the grammar"),
        "OpenComment" => Some("the comment has no */"),
        "OpenText" => Some("the text has no closing quote in its line"),
        "BadEscape" => Some("known escapes are \\b \\t \\n \\f \\r \\\" \\' and \\\\"),
        "BadNumber" => Some(
            "a number is decimal, whole, without leading zeros, and at most 2147483647",
        ),
        _ => None,
    }
}

// Of protocols: what they declare and name.
fn of_protocols(kind: &str) -> Option<&'static str>
    ensures { option_map (λ s. s.now) result ≡ sentence_in of_protocols kind.now }
{
    match kind {
        "DuplicateName" => Some(
            "@ is there twice (or is a name that is taken: Object, String, System, PrintStream, Session)",
        ),
        "UnknownRole" => Some("the header does not list the role @"),
        "PeerIsSelf" => Some("a role does not send to itself"),
        "UnknownType" => Some(
            "@ is not declared; int, boolean and String are, and a declaration is of java.lang.Integer, Boolean or String",
        ),
        "PayloadCount" => Some("a message carries one value at most"),
        "UnknownProtocol" => Some("no protocol of the file has the name @"),
        "DuplicateProtocol" => Some("two protocols of the file have the name @"),
        "RolesDiffer" => Some(
            "all protocols of a file are of one role and list the same roles in one order, and each do names them all in it",
        ),
        "NotLast" => Some(
            "the do of @ leaves what stands around it, so nothing stands behind the choice or rec that holds it",
        ),
        "StartsWithDo" => Some(
            "the first protocol of the file, @, begins with a message or a choice",
        ),
        "SameRole" => Some("two files of the command are of the role @"),
        _ => None,
    }
}

// Of the ways that protocols go.
fn of_courses(kind: &str) -> Option<&'static str>
    ensures { option_map (λ s. s.now) result ≡ sentence_in of_courses kind.now }
{
    match kind {
        "UnknownRec" => Some("continue @ stands outside of rec @"),
        "DuplicateRec" => Some("rec @ stands inside another rec @"),
        "Unguarded" => Some(
            "from rec @ to continue @ no message is passed: the loop would do nothing",
        ),
        "Unreachable" => Some("nothing comes to this statement: the one before it never goes on"),
        "BranchStart" => Some("each branch of a choice begins with a message"),
        "MixedChoice" => Some(
            "the branches begin with sends where the role itself chooses, with receives from the one role that chooses elsewhere",
        ),
        "SameLabel" => Some("two branches begin with @, so they cannot be told apart"),
        "ReservedLabel" => Some(
            "@ is a word that Java reserves, so it cannot be a constant of an enum",
        ),
        "NameClash" => Some("two different messages would both be called @ in Java: rename one"),
        "TooManyStates" => Some("the protocol has over 1,000 states"),
        _ => None,
    }
}

// Of typestates.
fn of_typestates(kind: &str) -> Option<&'static str>
    ensures { option_map (λ s. s.now) result ≡ sentence_in of_typestates kind.now }
{
    match kind {
        "DuplicateState" => Some("the state @ is there twice"),
        "UnknownState" => Some("the typestate has no state @"),
        "DuplicateMethod" => Some("the state has @ twice"),
        "SignatureDiffers" => Some(
            "@ has another result or other parameters elsewhere: in another state, or in the class",
        ),
        "DuplicateLabel" => Some("the label @ is there twice"),
        "ReservedEnd" => Some("end is the finished state, and cannot be declared"),
        _ => None,
    }
}

// Of classes and their members.
fn of_members(kind: &str) -> Option<&'static str>
    ensures { option_map (λ s. s.now) result ≡ sentence_in of_members kind.now }
{
    match kind {
        "DuplicateMember" => Some("@ is there twice in its class or enum"),
        "UnknownClass" => Some(
            "no file of the command has a class @ with a typestate, or an enum @ (was a file left out?)",
        ),
        "UnknownTypestate" => Some(
            "no file of the command has the typestate @ (was its .protocol left out?)",
        ),
        "MissingMethod" => Some("the typestate names @, and the class has no such instance method"),
        "LabelsDiffer" => Some(
            "the answers of @ in the typestate are not the constants of its enum (a boolean has none: give @ an enum)",
        ),
        "FieldNeedsValue" => Some("the field @ needs a constant as its first value"),
        "InstanceInPlain" => Some(
            "a class without a typestate has static methods alone: write static, or give it a typestate",
        ),
        _ => None,
    }
}

// Of the bodies of methods.
fn of_bodies(kind: &str) -> Option<&'static str>
    ensures { option_map (λ s. s.now) result ≡ sentence_in of_bodies kind.now }
{
    match kind {
        "UnknownName" => Some(
            "@ names nothing here: no variable, class or method that can be used",
        ),
        "DuplicateLocal" => Some("@ is already the name of a variable here"),
        "TypeMismatch" => Some("the value has another type than is wanted here"),
        "Arity" => Some("the number of arguments is not that of the parameters"),
        "BadLabel" => Some(
            "break or continue has no such target, or a case no such constant, or is there twice",
        ),
        "MissingReturn" => Some("the method can come to its end without a return"),
        "SelfCall" => Some("@ belongs to the typestate, so an object does not call it on itself"),
        "ThisAsValue" => Some("this stands before .name alone"),
        "ArgsMayMove" => Some(
            "an argument of this call on the field @ calls a helper, which may change the field",
        ),
        _ => None,
    }
}

// Of usages.
fn of_usages(kind: &str) -> Option<&'static str>
    ensures { option_map (λ s. s.now) result ≡ sentence_in of_usages kind.now }
{
    match kind {
        "UseMoved" => Some(
            "the object of @ may have been handed on before: as an argument, by an assignment, or as a result",
        ),
        "MaybeNull" => Some("@ may hold null here: test it with if (@ != null)"),
        "NotOffered" => Some("the object of @ may be in # here, which does not offer this method"),
        "LeftOpen" => Some(
            "the object of @ may be in # here, and is dropped before it is finished",
        ),
        "Overwritten" => Some(
            "@ may hold an object in # here, which the assignment loses before it is finished",
        ),
        "FieldOpenAtEnd" => Some(
            "the object is finished here, or may be left, while its field @ may hold one in #, which may not",
        ),
        _ => None,
    }
}

/// The sentence on a kind of fault, if there is one.
pub(crate) fn sentence_of(kind: &str) -> Option<&'static str>
    ensures { option_map (λ s. s.now) result ≡ sentence_of kind.now }
{
    if let Some(sentence) = of_texts(kind) {
        return Some(sentence);
    }
    if let Some(sentence) = of_protocols(kind) {
        return Some(sentence);
    }
    if let Some(sentence) = of_courses(kind) {
        return Some(sentence);
    }
    if let Some(sentence) = of_typestates(kind) {
        return Some(sentence);
    }
    if let Some(sentence) = of_members(kind) {
        return Some(sentence);
    }
    if let Some(sentence) = of_bodies(kind) {
        return Some(sentence);
    }
    of_usages(kind)
}
