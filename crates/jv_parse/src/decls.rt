//! Reads classes with their annotations, and enums.
//! Visibility and `final` are not kept.

ghost use Rattle.std.specs.Prelude.{◌≡◌, Some, IfSome, is_some, map};
ghost use Rattle.jv_tree.specs.declared.token.Sign.{Sign};
ghost use Rattle.jv_tree.specs.View.{class_of, enum_of, decl_of};
ghost use Rattle.jv_parse.specs.inner.Gives.{Gives};
ghost use Rattle.jv_parse.specs.inner.Members.{class_read, named_enum_at};
ghost use Rattle.jv_grammar.specs.Files.{text_at, annotation_at, is_more_names, next_name_at, names_at, past, decl_at};

use crate::halt::Halt;
use crate::members::{Members, members_of};
use crate::modifiers::{Modifiers, after_mods};
use crate::tokens::{is_sign, name_of, past_name, past_sign, past_word, sign_of, word_of};
use jv_tree::{Class, Decl, Enum, Sign, Token, TokenKind};
use mg_text::{List, Text};
use std::alloc::Global;

// A text between quotes.
fn text_of(tokens: &[Token]) -> Result<(Text, &[Token]), Halt>
    ensures { Gives (λ x. (x.0, x.1.now)) result (text_at tokens.now) }
{
    let Some((first, rest)) = tokens.split_first() else {
        return Err(Halt::Syntax { left: 0 });
    };
    match &first.kind {
        TokenKind::Text(text) => Ok((text.copy()?, rest)),
        TokenKind::Word(_) | TokenKind::Number(_) | TokenKind::Sign(_) => {
            Err(Halt::Syntax { left: tokens.len() })
        }
    }
}

// [ "@" "Typestate" "(" text ")" ]
#[tactic(auto, unfolding(jv_grammar::specs::Files::annotation_at))]
fn annotation_of(tokens: &[Token]) -> Result<(Option<Text>, &[Token]), Halt>
    ensures { Gives (λ x. (x.0, x.1.now)) result (annotation_at tokens.now) }
{
    if let Some((_, rest)) = past_sign(tokens, Sign::At) {
        let (_, rest) = word_of(rest, "Typestate")?;
        let (_, rest) = sign_of(rest, Sign::OpenParen)?;
        let (text, rest) = text_of(rest)?;
        let (_, rest) = sign_of(rest, Sign::CloseParen)?;
        return Ok((Some(text), rest));
    }
    Ok((None, tokens))
}

// [ annotation ] { "public" | "final" } "class" name "{" { member } "}"
fn class_of(alloc: Global, tokens: &[Token]) -> Result<(Class, &[Token]), Halt>
    ensures { Gives (λ x. (class_of x.0, x.1.now)) result (class_read tokens.now) }
{
    let (typestate, rest) = annotation_of(tokens)?;
    let (_, rest) = word_of(after_mods(Modifiers::OfClass, rest), "class")?;
    let (place, name, rest) = name_of(rest)?;
    let (members, rest) = members_of(alloc, rest)?;
    let Members { fields, methods } = members;
    let class = Class {
        place,
        name,
        typestate,
        fields,
        methods,
    };
    Ok((class, rest))
}

// The name behind a "," and the tokens after it, where both come next.
#[tactic(auto, unfolding(jv_grammar::specs::Files::next_name_at))]
fn past_next_name(tokens: &[Token]) -> Option<(&Text, &[Token])>
    ensures it { IfSome result (λ x. next_name_at tokens.now ≡ Some (x.0.now, x.1.now)) }
    ensures comes { is_some result ≡ is_more_names tokens.now }
{
    let (_, rest) = past_sign(tokens, Sign::Comma)?;
    let (_, name, rest) = past_name(rest)?;
    Some((name, rest))
}

// name { "," name }
fn names_of(alloc: Global, tokens: &[Token]) -> Result<(List<Text>, &[Token]), Halt>
    ensures { Gives (λ x. (x.0.items, x.1.now)) result (names_at tokens.now) }
{
    let (_, first, mut rest) = name_of(tokens)?;
    let mut names = List::new(alloc);
    names.push(first)?;
    'more: while let Some((name, after)) = past_next_name(rest) {
        let copied = name.copy()?;
        names.push(copied)?;
        rest = after;
    }
    Ok((names, rest))
}

// What comes behind this sign, where it comes.
fn past(tokens: &[Token], sign: Sign) -> &[Token]
    ensures { result.now ≡ past sign tokens.now }
{
    let Some((_, rest)) = tokens.split_first() else {
        return tokens;
    };
    if is_sign(tokens, sign) { rest } else { tokens }
}

// name "{" name { "," name } [ "," ] [ ";" ] "}", behind "enum".
fn enum_of(alloc: Global, tokens: &[Token]) -> Result<(Enum, &[Token]), Halt>
    ensures { Gives (λ x. (enum_of x.0, x.1.now)) result (named_enum_at tokens.now) }
{
    let (place, name, rest) = name_of(tokens)?;
    let (_, rest) = sign_of(rest, Sign::OpenBrace)?;
    let (constants, rest) = names_of(alloc, rest)?;
    let rest = past(past(rest, Sign::Comma), Sign::Semicolon);
    let (_, rest) = sign_of(rest, Sign::CloseBrace)?;
    let made = Enum {
        place,
        name,
        constants,
    };
    Ok((made, rest))
}

// A class, or { "public" } and an enum.
#[tactic(auto, using(crate::proofs::MemberTurns::class_is), unfolding(jv_grammar::specs::Files::decl_at, jv_grammar::specs::Files::enum_at))]
pub(crate) fn decl_of(alloc: Global, tokens: &[Token]) -> Result<(Decl, &[Token]), Halt>
    ensures { Gives (λ x. (decl_of x.0, x.1.now)) result (decl_at tokens.now) }
{
    if let Some((_, rest)) = past_word(after_mods(Modifiers::OfEnum, tokens), "enum") {
        let (made, rest) = enum_of(alloc, rest)?;
        return Ok((Decl::Enum(made), rest));
    }
    let (class, rest) = class_of(alloc, tokens)?;
    Ok((Decl::Class(class), rest))
}
