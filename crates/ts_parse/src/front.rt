//! The token at the front of a row: a mark or a name, and names with dots between them.
//! Each function gives what it read, and the tokens behind it.

ghost use Rattle.std.specs.Prelude.{◌≡◌};
ghost use Rattle.mg_read.specs.Reader.{all_of};
ghost use Rattle.mg_read.specs.Parsing.{Gives};
ghost use Rattle.mg_read.proofs.Loop.{with_front};
ghost use Rattle.ts_parse.specs.declared.token.Mark.TheVariants as marks;
ghost use Rattle.ts_parse.specs.Tok.{toks};
ghost use Rattle.ts_parse.specs.inner.Reading.{mark_at, name_at, is_at, is_name, is_dot_name, behind_at, path_at};

use crate::{Mark, Naming, Token, TokenKind};
use mg_read::ParseFault;
use mg_text::{List, Place};
use std::alloc::Global;

// This mark: its place, and the tokens behind it.
pub(crate) fn mark_of(tokens: &[Token], mark: Mark) -> Result<(Place, &[Token]), ParseFault>
    ensures { Gives (λ x. (x.0, toks x.1.now)) result (mark_at mark (toks tokens.now)) }
{
    let Some((first, rest)) = tokens.split_first() else {
        return Err(ParseFault::Syntax(None));
    };
    match &first.kind {
        TokenKind::Mark(found) => {
            if *found == mark {
                Ok((first.place, rest))
            } else {
                Err(ParseFault::Syntax(Some(first.place)))
            }
        }
        TokenKind::Name(_) => Err(ParseFault::Syntax(Some(first.place))),
    }
}

// A name where it stands, and the tokens behind it.
pub(crate) fn name_of(tokens: &[Token]) -> Result<(Naming, &[Token]), ParseFault>
    ensures { Gives (λ x. (x.0, toks x.1.now)) result (name_at (toks tokens.now)) }
{
    let Some((first, rest)) = tokens.split_first() else {
        return Err(ParseFault::Syntax(None));
    };
    match &first.kind {
        TokenKind::Name(text) => {
            let text = text.copy()?;
            let name = Naming {
                place: first.place,
                text,
            };
            Ok((name, rest))
        }
        TokenKind::Mark(_) => Err(ParseFault::Syntax(Some(first.place))),
    }
}

// Whether this mark comes next.
pub(crate) fn is_mark(tokens: &[Token], mark: Mark) -> bool
    ensures { result ≡ is_at mark (toks tokens.now) }
{
    let Some((first, _)) = tokens.split_first() else {
        return false;
    };
    match &first.kind {
        TokenKind::Mark(found) => *found == mark,
        TokenKind::Name(_) => false,
    }
}

// Whether a name comes next.
fn is_name(tokens: &[Token]) -> bool
    ensures { result ≡ is_name (toks tokens.now) }
{
    let Some((first, _)) = tokens.split_first() else {
        return false;
    };
    match &first.kind {
        TokenKind::Name(_) => true,
        TokenKind::Mark(_) => false,
    }
}

// Whether a dot comes next, with a name behind it.
fn is_dot_name(tokens: &[Token]) -> bool
    ensures { result ≡ is_dot_name (toks tokens.now) }
{
    let Some((_, rest)) = tokens.split_first() else {
        return false;
    };
    if is_mark(tokens, Mark::Dot) {
        is_name(rest)
    } else {
        false
    }
}

// "." name
#[tactic(auto, unfolding(crate::specs::inner::Reading::behind_at))]
fn dot_name_of(tokens: &[Token]) -> Result<(Naming, &[Token]), ParseFault>
    ensures { Gives (λ x. (x.0, toks x.1.now)) result (behind_at marks.Dot name_at (toks tokens.now)) }
{
    let (_, rest) = mark_of(tokens, Mark::Dot)?;
    name_of(rest)
}

// { "." name }, behind names that were read.
fn more_names_of(
    names: List<Naming>,
    tokens: &[Token],
) -> Result<(List<Naming>, &[Token]), ParseFault>
    ensures { Gives (λ x. (x.0.items, toks x.1.now)) result
        (with_front names.items (all_of is_dot_name (behind_at marks.Dot name_at) (toks tokens.now))) }
{
    let mut names = names;
    let mut rest = tokens;
    'others: while is_dot_name(rest) {
        let (other, after) = dot_name_of(rest)?;
        names.push(other)?;
        rest = after;
    }
    Ok((names, rest))
}

// name { "." name }
#[tactic(auto, unfolding(crate::specs::inner::Reading::listed_at))]
pub(crate) fn path_of(
    alloc: Global,
    tokens: &[Token],
) -> Result<(List<Naming>, &[Token]), ParseFault>
    ensures { Gives (λ x. (x.0.items, toks x.1.now)) result (path_at (toks tokens.now)) }
{
    let (first, rest) = name_of(tokens)?;
    let mut names = List::new(alloc);
    names.push(first)?;
    more_names_of(names, rest)
}
