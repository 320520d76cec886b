//! The token at the front of a row: a mark, a name or a quoted text, and names with a mark
//! between them.

ghost use Rattle.std.specs.Prelude.{◌≡◌};
ghost use Rattle.mg_read.specs.Reader.{all_of};
ghost use Rattle.mg_read.proofs.Loop.{with_front};
ghost use Rattle.scr_tree.specs.Tok.{toks};
ghost use Rattle.scr_parse.specs.Answer.{Gives};
ghost use Rattle.scr_parse.specs.inner.Reading.{mark_at, name_at, quoted_at, is_at, other_name_at, names_at};

use crate::fault::ParseFault;
use mg_text::{List, Place, Text};
use scr_tree::{Mark, Token, TokenKind};
use std::alloc::Global;

/// This mark: its place, and the tokens behind it.
pub fn mark_of(tokens: &[Token], mark: Mark) -> Result<(Place, &[Token]), ParseFault>
    ensures { Gives (λ x. (x.0, toks x.1.now)) result (mark_at mark (toks tokens.now)) }
{
    let Some((first, rest)) = tokens.split_first() else {
        return Err(ParseFault::Syntax(None));
    };
    match &first.kind {
        TokenKind::Mark(found) => {
            if *found == mark {
                Ok((first.place, rest))
            } else {
                Err(ParseFault::Syntax(Some(first.place)))
            }
        }
        TokenKind::Name(_) | TokenKind::Quoted(_) => Err(ParseFault::Syntax(Some(first.place))),
    }
}

/// A name: its place, its text, and the tokens behind it.
pub fn name_of(tokens: &[Token]) -> Result<(Place, Text, &[Token]), ParseFault>
    ensures { Gives (λ x. ((x.0, x.1), toks x.2.now)) result (name_at (toks tokens.now)) }
{
    let Some((first, rest)) = tokens.split_first() else {
        return Err(ParseFault::Syntax(None));
    };
    match &first.kind {
        TokenKind::Name(text) => Ok((first.place, text.copy()?, rest)),
        TokenKind::Quoted(_) | TokenKind::Mark(_) => Err(ParseFault::Syntax(Some(first.place))),
    }
}

// A quoted text, and the tokens behind it.
pub(crate) fn quoted_of(tokens: &[Token]) -> Result<(Text, &[Token]), ParseFault>
    ensures { Gives (λ x. (x.0, toks x.1.now)) result (quoted_at (toks tokens.now)) }
{
    let Some((first, rest)) = tokens.split_first() else {
        return Err(ParseFault::Syntax(None));
    };
    match &first.kind {
        TokenKind::Quoted(text) => Ok((text.copy()?, rest)),
        TokenKind::Name(_) | TokenKind::Mark(_) => Err(ParseFault::Syntax(Some(first.place))),
    }
}

/// Whether this mark comes next.
pub fn is_mark(tokens: &[Token], mark: Mark) -> bool
    ensures { result ≡ is_at mark (toks tokens.now) }
{
    let Some((first, _)) = tokens.split_first() else {
        return false;
    };
    match &first.kind {
        TokenKind::Mark(found) => *found == mark,
        TokenKind::Name(_) | TokenKind::Quoted(_) => false,
    }
}

// mark name
#[tactic(auto, unfolding(crate::specs::inner::Reading::other_name_at))]
fn other_name_of(tokens: &[Token], mark: Mark) -> Result<(Text, &[Token]), ParseFault>
    ensures { Gives (λ x. (x.0, toks x.1.now)) result (other_name_at mark (toks tokens.now)) }
{
    let (_, rest) = mark_of(tokens, mark)?;
    let (_, name, rest) = name_of(rest)?;
    Ok((name, rest))
}

// { mark name }, behind names that were read.
fn more_names_of(
    names: List<Text>,
    tokens: &[Token],
    mark: Mark,
) -> Result<(List<Text>, &[Token]), ParseFault>
    ensures { Gives (λ x. (x.0.items, toks x.1.now)) result
        (with_front names.items (all_of (is_at mark) (other_name_at mark) (toks tokens.now))) }
{
    let mut names = names;
    let mut rest = tokens;
    'others: while is_mark(rest, mark) {
        let (other, after) = other_name_of(rest, mark)?;
        names.push(other)?;
        rest = after;
    }
    Ok((names, rest))
}

// name { mark name }
#[tactic(auto, unfolding(crate::specs::inner::Reading::names_at))]
pub(crate) fn names_of(
    alloc: Global,
    tokens: &[Token],
    mark: Mark,
) -> Result<(List<Text>, &[Token]), ParseFault>
    ensures { Gives (λ x. (x.0.items, toks x.1.now)) result (names_at mark (toks tokens.now)) }
{
    let (_, first, rest) = name_of(tokens)?;
    let mut names = List::new(alloc);
    names.push(first)?;
    more_names_of(names, rest, mark)
}
