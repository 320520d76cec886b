//! Type declarations, and the table in which the kinds of their names are looked up.

ghost use Rattle.std.specs.Prelude.{◌≡◌, IfOk, OnOk, Some, [], ◌∷◌};
ghost use Rattle.std.specs.Option.{option_or};
ghost use Rattle.std.specs.HashMap.{get_by_text};
ghost use Rattle.mg_text.specs.Call.{Name};
ghost use Rattle.scr_tree.specs.Tok.{toks};
ghost use Rattle.scr_tree.specs.Written.{kind_if_class, class_of_alias, kind_of};
ghost use Rattle.scr_parse.specs.Answer.{Gives};
ghost use Rattle.scr_parse.specs.inner.Reading.{language_at, class_at, type_at, types_at};
ghost use Rattle.scr_parse.specs.inner.Kinds.{IsTable, kind_among};

use crate::fault::ParseFault;
use crate::front::{is_mark, mark_of, name_of, quoted_of};
use mg_text::{List, Memory, Text};
use scr_tree::{Declaration, Mark, Payload, Token};
use std::alloc::Global;
use std::collections::HashMap;

/// What is declared, and of each name the kind that its first declaration gives it.
#[derive(Drop)]
pub struct Types {
    pub declared: List<Declaration>,
    pub kinds: HashMap<String, Payload>,
}

// "type" "<" name ">"
#[tactic(auto, unfolding(crate::specs::inner::Reading::language_at))]
fn language_of(tokens: &[Token]) -> Result<(Text, &[Token]), ParseFault>
    ensures { Gives (λ x. (x.0, toks x.1.now)) result (language_at (toks tokens.now)) }
{
    let (_, rest) = mark_of(tokens, Mark::Type)?;
    let (_, rest) = mark_of(rest, Mark::Less)?;
    let (_, language, rest) = name_of(rest)?;
    let (_, rest) = mark_of(rest, Mark::Greater)?;
    Ok((language, rest))
}

// text "from" text "as"
#[tactic(auto, unfolding(crate::specs::inner::Reading::class_at))]
fn class_of(tokens: &[Token]) -> Result<(Text, &[Token]), ParseFault>
    ensures { Gives (λ x. (x.0, toks x.1.now)) result (class_at (toks tokens.now)) }
{
    let (class, rest) = quoted_of(tokens)?;
    let (_, rest) = mark_of(rest, Mark::From)?;
    let (_, rest) = quoted_of(rest)?;
    let (_, rest) = mark_of(rest, Mark::As)?;
    Ok((class, rest))
}

// language class name ";"
#[tactic(auto, unfolding(crate::specs::inner::Reading::type_at))]
fn type_of(tokens: &[Token]) -> Result<(Declaration, &[Token]), ParseFault>
    ensures { Gives (λ x. (x.0, toks x.1.now)) result (type_at (toks tokens.now)) }
{
    let (language, rest) = language_of(tokens)?;
    let (class, rest) = class_of(rest)?;
    let (place, alias, rest) = name_of(rest)?;
    let (_, rest) = mark_of(rest, Mark::Semicolon)?;
    let declaration = Declaration {
        place,
        language,
        class,
        alias,
    };
    Ok((declaration, rest))
}

/// { type }
pub fn types_of(
    alloc: Global,
    tokens: &[Token],
) -> Result<(List<Declaration>, &[Token]), ParseFault>
    ensures { Gives (λ x. (x.0.items, toks x.1.now)) result (types_at (toks tokens.now)) }
{
    let mut declared = List::new(alloc);
    let mut rest = tokens;
    'types: while is_mark(rest, Mark::Type) {
        let (declaration, after) = type_of(rest)?;
        declared.push(declaration)?;
        rest = after;
    }
    Ok((declared, rest))
}

// The kind of a value of a Java class; nothing where it isn't supported.
fn kind_of_class(class: &str) -> Payload
    ensures { result ≡ kind_if_class (Some class.now) }
{
    match Payload::of_class(class) {
        Some(kind) => kind,
        None => Payload::Nothing,
    }
}

// Gives the name of a declaration its kind, if it has none.
fn add_kind(
    alloc: Global,
    kinds: &mut HashMap<String, Payload>,
    declaration: &Declaration,
) -> Result<(), Memory>
    ensures { OnOk result ((q : Name) → get_by_text kinds.new q
        ≡ option_or (get_by_text kinds.old q) (kind_among (declaration.now ∷ []) q)) }
{
    let alias = declaration.alias.as_str();
    if kinds.contains_key(alias) {
        return Ok(());
    }
    let kind = kind_of_class(declaration.class.as_str());
    let key = String::from_str(alloc, alias)?;
    kinds.insert(key, kind)?;
    Ok(())
}

impl Types {
    /// The table of these declarations.
    pub fn of(alloc: Global, declared: List<Declaration>) -> Result<Types, Memory>
        ensures { IfOk result (λ t. IsTable t × (t.declared.items ≡ declared.items)) }
    {
        let mut kinds = HashMap::new(alloc);
        for declaration in declared.as_slice() {
            add_kind(alloc, &mut kinds, declaration)?;
        }
        Ok(Types { declared, kinds })
    }

    // The kind of a name of a type; nothing where it isn't declared.
    fn kind(&self, alias: &str) -> Payload
        requires { IsTable self.now }
        ensures { result ≡ kind_if_class (class_of_alias self.now.declared.items alias.now) }
    {
        if let Some(kind) = Payload::of_word(alias) {
            return kind;
        }
        match self.kinds.get(alias) {
            Some(kind) => *kind,
            None => Payload::Nothing,
        }
    }

    /// The kind of what a message carries whose types these are.
    pub fn kind_of(&self, types: &[Text]) -> Payload
        requires { IsTable self.now }
        ensures { result ≡ kind_of self.now.declared.items types.now }
    {
        match types {
            [alias] => self.kind(alias.as_str()),
            _ => Payload::Nothing,
        }
    }
}
