//! The states, and the whole file.
//! Each function gives what it read, and the tokens behind it.

ghost use Rattle.std.specs.Prelude.{◌≡◌, map};
ghost use Rattle.mg_read.specs.Parsing.{Gives};
ghost use Rattle.ts_parse.specs.Tok.{toks};
ghost use Rattle.ts_parse.specs.Written.{wstate_of, wfile_of};
ghost use Rattle.ts_parse.specs.inner.Reading.{state_at, states_at, typestate_at, file_of};

use crate::entries::entries_of;
use crate::front::{is_mark, mark_of, name_of};
use crate::head::{after_package, imports_of, title_of};
use crate::{Mark, Token, WrittenState, WrittenTypestate};
use mg_read::ParseFault;
use mg_text::List;
use std::alloc::Global;

// name "=" "{" entries "}"
#[tactic(auto, unfolding(crate::specs::inner::Reading::state_at))]
fn state_of(alloc: Global, tokens: &[Token]) -> Result<(WrittenState, &[Token]), ParseFault>
    ensures { Gives (λ x. (wstate_of x.0, toks x.1.now)) result (state_at (toks tokens.now)) }
{
    let (name, rest) = name_of(tokens)?;
    let (_, rest) = mark_of(rest, Mark::Equals)?;
    let (_, rest) = mark_of(rest, Mark::OpenBrace)?;
    let (entries, rest) = entries_of(alloc, rest)?;
    let (_, rest) = mark_of(rest, Mark::CloseBrace)?;
    Ok((WrittenState { name, entries }, rest))
}

// { state }, up to "}"
fn states_of(alloc: Global, tokens: &[Token]) -> Result<(List<WrittenState>, &[Token]), ParseFault>
    ensures { Gives (λ x. (map wstate_of x.0.items, toks x.1.now)) result (states_at (toks tokens.now)) }
{
    let mut states = List::new(alloc);
    let mut rest = tokens;
    'others: while !is_mark(rest, Mark::CloseBrace) {
        let (other, after) = state_of(alloc, rest)?;
        states.push(other)?;
        rest = after;
    }
    Ok((states, rest))
}

// "typestate" name "{" { state } "}"
#[tactic(auto, unfolding(crate::specs::inner::Reading::typestate_at))]
fn typestate_of(alloc: Global, tokens: &[Token]) -> Result<(WrittenTypestate, &[Token]), ParseFault>
    ensures { Gives (λ x. (wfile_of x.0, toks x.1.now)) result (typestate_at (toks tokens.now)) }
{
    let (title, rest) = title_of(tokens)?;
    let (states, rest) = states_of(alloc, rest)?;
    let (_, rest) = mark_of(rest, Mark::CloseBrace)?;
    let name = title.into_text();
    Ok((WrittenTypestate { name, states }, rest))
}

/// The file that all of the tokens spell.
#[tactic(auto, unfolding(crate::specs::inner::Reading::file_of))]
pub(crate) fn file_of(alloc: Global, tokens: &[Token]) -> Result<WrittenTypestate, ParseFault>
    ensures { Gives wfile_of result (file_of (toks tokens.now)) }
{
    let rest = after_package(alloc, tokens)?;
    let (_, rest) = imports_of(alloc, rest)?;
    let (typestate, rest) = typestate_of(alloc, rest)?;
    match rest {
        [] => Ok(typestate),
        [first, ..] => Err(ParseFault::Syntax(Some(first.place))),
    }
}
