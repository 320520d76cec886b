//! What protocols and typestates declare, by their tokens.

ghost use Rattle.std.specs.Prelude.{◌≡◌, IfOk, option_map};
ghost use Rattle.lsp_symbols.specs.Named.{keyword, behind, in_front, found_at, within, entered, declared_in};
ghost use Rattle.lsp_symbols.specs.inner.Walk.{text_of, found_of, inside_of, Goes};

use crate::things::{Declared, put};
use crate::tokens::Token;
use lsp_messages::SymbolKind;
use mg_text::{Memory, Place, Text};
use std::alloc::Global;

/// In which language a file is written.
#[derive(Clone, Copy)]
pub enum Language {
    /// Local protocols.
    Protocols,
    /// Typestates.
    Typestates,
}

// A name that is declared.
#[derive(Clone, Copy)]
struct Found<'a> {
    kind: SymbolKind,
    place: Place,
    name: &'a Text,
}

// What was declared last.
#[derive(Clone, Copy)]
struct Inside<'a> {
    typestate: Option<&'a Text>,
    state: Option<&'a Text>,
}

// The word in front of the name of a protocol or a typestate.
fn keyword(language: Language) -> &'static str
    ensures { result.now ≡ keyword language }
{
    match language {
        Language::Protocols => "protocol",
        Language::Typestates => "typestate",
    }
}

// What a name behind a word declares.
fn found_behind<'a>(
    language: Language,
    word: &Text,
    place: Place,
    name: &'a Text,
) -> Option<Found<'a>>
    ensures { option_map found_of result ≡ behind (keyword language) word.now place name.now }
{
    if word.as_str() == keyword(language) {
        return Some(Found {
            kind: SymbolKind::Protocol,
            place,
            name,
        });
    }
    None
}

// What a name in front of a sign declares.
fn found_in_front<'a>(
    language: Language,
    place: Place,
    name: &'a Text,
    sign: u8,
) -> Option<Found<'a>>
    ensures { option_map found_of result ≡ in_front language place name.now sign }
{
    let kind = match language {
        Language::Protocols => return None,
        Language::Typestates => match sign {
            b'=' => SymbolKind::State,
            b'(' => SymbolKind::Method,
            _ => return None,
        },
    };
    Some(Found { kind, place, name })
}

// What two tokens declare, of which one stands behind the other.
fn found_at<'a>(language: Language, first: &'a Token, second: &'a Token) -> Option<Found<'a>>
    ensures { option_map found_of result ≡ found_at language first.now second.now }
{
    match first {
        Token::Word(place, word) => match second {
            Token::Word(behind, name) => found_behind(language, word, *behind, name),
            Token::Sign(sign) => found_in_front(language, *place, word, *sign),
        },
        Token::Sign(_) => None,
    }
}

// The name of what a thing of a kind is declared in.
fn within<'a>(inside: Inside<'a>, kind: SymbolKind) -> Option<&'a Text>
    ensures { option_map text_of result ≡ within (inside_of inside.entry) kind }
{
    match kind {
        SymbolKind::State => inside.typestate,
        SymbolKind::Method => inside.state,
        SymbolKind::Class | SymbolKind::Field | SymbolKind::Enum | SymbolKind::Protocol => None,
    }
}

// What was declared last, behind this.
fn entered<'a>(inside: Inside<'a>, found: Found<'a>) -> Inside<'a>
    ensures { inside_of result ≡ entered (inside_of inside.entry) (found_of found.entry) }
{
    match found.kind {
        SymbolKind::Protocol => Inside {
            typestate: Some(found.name),
            state: inside.state,
        },
        SymbolKind::State => Inside {
            typestate: inside.typestate,
            state: Some(found.name),
        },
        SymbolKind::Class | SymbolKind::Field | SymbolKind::Enum | SymbolKind::Method => inside,
    }
}

// Appends what two tokens declare, of which one stands behind the other, and tells what was declared last.
fn put_found<'a>(
    declared: &mut Vec<Declared>,
    language: Language,
    inside: Inside<'a>,
    first: &'a Token,
    second: &'a Token,
) -> Result<Inside<'a>, Memory>
    ensures { IfOk result (λ i. Goes declared.old.items (inside_of inside.entry) (found_at language first.now second.now)
        declared.new.items (inside_of i)) }
{
    let Some(found) = found_at(language, first, second) else {
        return Ok(inside);
    };
    put(
        declared,
        found.name,
        found.kind,
        found.place,
        within(inside, found.kind),
    )?;
    Ok(entered(inside, found))
}

/// What the tokens of a file declare, in their order.
///
/// # Errors
/// `Memory` only.
pub(crate) fn declared_in(
    alloc: Global,
    language: Language,
    tokens: &[Token],
) -> Result<Vec<Declared>, Memory>
    ensures { IfOk result (λ v. v.items ≡ declared_in language tokens.now) }
{
    let mut declared = Vec::new(alloc);
    let mut inside = Inside {
        typestate: None,
        state: None,
    };
    let mut rest = tokens;
    'tokens: while let [first, second, ..] = rest {
        inside = put_found(&mut declared, language, inside, first, second)?;
        rest = &rest[1..];
    }
    Ok(declared)
}
