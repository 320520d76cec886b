//! The statements of a local protocol in which no others stand, one function a production.

ghost use Rattle.std.specs.Prelude.{◌≡◌};
ghost use Rattle.scr_tree.specs.Tok.{toks};
ghost use Rattle.scr_tree.specs.Tree.{Statements};
ghost use Rattle.scr_parse.specs.Answer.{Gives};
ghost use Rattle.scr_parse.specs.inner.Kinds.{IsTable};
ghost use Rattle.scr_parse.specs.inner.View.{alone, all_alone, blocks_alone};
ghost use Rattle.scr_parse.specs.inner.Reading.{direction_at, payload_at, says_at, do_at, continue_with, plain_at};
ghost use Rattle.scr_parse.specs.inner.Reading.{a_choice, a_rec, a_continue};

use crate::fault::ParseFault;
use crate::front::{is_mark, mark_of, name_of, names_of};
use crate::nest::Nest;
use crate::types::Types;
use mg_text::{List, Place, Text};
use scr_tree::{Direction, Mark, Message, Statement, Token};
use std::alloc::Global;

// "to" | "from"
#[tactic(auto, unfolding(crate::specs::inner::Reading::direction_at))]
fn direction_of(tokens: &[Token]) -> Result<(Direction, &[Token]), ParseFault>
    ensures { Gives (λ x. (x.0, toks x.1.now)) result (direction_at (toks tokens.now)) }
{
    if is_mark(tokens, Mark::To) {
        let (_, rest) = mark_of(tokens, Mark::To)?;
        return Ok((Direction::To, rest));
    }
    let (_, rest) = mark_of(tokens, Mark::From)?;
    Ok((Direction::From, rest))
}

/// [ name { "," name } ], up to ")"
#[tactic(auto, unfolding(crate::specs::inner::Reading::payload_at))]
pub fn payload_of(alloc: Global, tokens: &[Token]) -> Result<(List<Text>, &[Token]), ParseFault>
    ensures { Gives (λ x. (x.0.items, toks x.1.now)) result (payload_at (toks tokens.now)) }
{
    if is_mark(tokens, Mark::CloseParen) {
        return Ok((List::new(alloc), tokens));
    }
    names_of(alloc, tokens, Mark::Comma)
}

// name "(" payload ")" direction name ";"
#[tactic(auto, using(crate::proofs::Views::alones), unfolding(crate::specs::inner::Reading::says_at, crate::specs::inner::Reading::message_at))]
fn message_of<'a>(
    alloc: Global,
    types: &Types,
    tokens: &'a [Token],
) -> Result<(Statement, &'a [Token]), ParseFault>
    requires { IsTable types.now }
    ensures { Gives (λ x. (alone x.0, toks x.1.now)) result (says_at types.now.declared.items (toks tokens.now)) }
{
    let (place, label, rest) = name_of(tokens)?;
    let (_, rest) = mark_of(rest, Mark::OpenParen)?;
    let (carried, rest) = payload_of(alloc, rest)?;
    let payload = types.kind_of(carried.as_slice());
    drop(carried);
    let (_, rest) = mark_of(rest, Mark::CloseParen)?;
    let (direction, rest) = direction_of(rest)?;
    let (_, peer, rest) = name_of(rest)?;
    let (_, rest) = mark_of(rest, Mark::Semicolon)?;
    let message = Message {
        place,
        direction,
        peer,
        label,
        payload,
    };
    Ok((Statement::Message(message), rest))
}

// "continue" name ";"
#[tactic(auto, using(crate::proofs::Views::alones), unfolding(crate::specs::inner::Reading::continue_with))]
fn continue_of(tokens: &[Token]) -> Result<(Statement, &[Token]), ParseFault>
    ensures { Gives (λ x. (alone x.0, toks x.1.now)) result (continue_with a_continue (toks tokens.now)) }
{
    let (place, rest) = mark_of(tokens, Mark::Continue)?;
    let (_, name, rest) = name_of(rest)?;
    let (_, rest) = mark_of(rest, Mark::Semicolon)?;
    Ok((Statement::Continue { place, name }, rest))
}

// "do" name "(" names ")" ";"
#[tactic(auto, using(crate::proofs::Views::alones), unfolding(crate::specs::inner::Reading::do_at))]
fn do_of(alloc: Global, tokens: &[Token]) -> Result<(Statement, &[Token]), ParseFault>
    ensures { Gives (λ x. (alone x.0, toks x.1.now)) result (do_at (toks tokens.now)) }
{
    let (place, rest) = mark_of(tokens, Mark::Do)?;
    let (_, name, rest) = name_of(rest)?;
    let (_, rest) = mark_of(rest, Mark::OpenParen)?;
    let (_, rest) = names_of(alloc, rest, Mark::Comma)?;
    let (_, rest) = mark_of(rest, Mark::CloseParen)?;
    let (_, rest) = mark_of(rest, Mark::Semicolon)?;
    Ok((Statement::Do { place, name }, rest))
}

/// How the statements of a local protocol are read and made.
pub(crate) struct OfLocal;

impl Nest for OfLocal {
    type Statement = Statement;

    ghost Tree = { Statements };

    ghost tree_of = { alone };

    ghost choice_tree = { a_choice };

    ghost loop_tree = { a_rec };

    ghost plain_tree_at = { plain_at };

    #[tactic(auto, using(crate::proofs::Views::alones))]
    fn choice(place: Place, at: Text, branches: List<List<Statement>>) -> Statement
        ensures { alone result ≡ a_choice place at (blocks_alone branches.items) }
    {
        Statement::Choice {
            place,
            at,
            branches,
        }
    }

    #[tactic(auto, using(crate::proofs::Views::alones))]
    fn rec(place: Place, name: Text, body: List<Statement>) -> Statement
        ensures { alone result ≡ a_rec place name (all_alone body.items) }
    {
        Statement::Rec { place, name, body }
    }

    #[tactic(auto, unfolding(crate::specs::inner::Reading::plain_at))]
    fn plain<'a>(
        alloc: Global,
        types: &Types,
        tokens: &'a [Token],
    ) -> Result<(Statement, &'a [Token]), ParseFault> {
        if is_mark(tokens, Mark::Continue) {
            continue_of(tokens)
        } else if is_mark(tokens, Mark::Do) {
            do_of(alloc, tokens)
        } else {
            message_of(alloc, types, tokens)
        }
    }
}
