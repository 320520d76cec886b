//! The statements of a global protocol in which no others stand, one function a production.

ghost use Rattle.std.specs.Prelude.{◌≡◌};
ghost use Rattle.scr_tree.specs.Tok.{toks};
ghost use Rattle.scr_global.specs.Tree.{Statements};
ghost use Rattle.scr_global_tree.specs.View.{told};
ghost use Rattle.scr_parse.specs.Answer.{Gives};
ghost use Rattle.scr_parse.specs.inner.Kinds.{IsTable};
ghost use Rattle.scr_parse.specs.inner.Reading.{continue_with};
ghost use Rattle.scr_global_parse.specs.inner.View.{alone, all_alone, blocks_alone};
ghost use Rattle.scr_global_parse.specs.inner.Reading.{ends_at, message_at, says_at, plain_at, a_choice, a_rec, a_continue};

use mg_text::{List, Place, Text};
use scr_global_tree::GStatement;
use scr_parse::{Nest, ParseFault, Types, is_mark, mark_of, name_of, payload_of};
use scr_tree::{Mark, Payload, Token};
use std::alloc::Global;

/// A message: where its label stands, the label, who sends and who receives it, and what it carries.
#[derive(Drop)]
struct Message {
    place: Place,
    label: Text,
    sender: Text,
    receiver: Text,
    payload: Payload,
}

// "from" name "to" name ";"
#[tactic(auto, unfolding(crate::specs::inner::Reading::ends_at))]
fn ends_of(tokens: &[Token]) -> Result<(Text, Text, &[Token]), ParseFault>
    ensures { Gives (λ x. ((x.0, x.1), toks x.2.now)) result (ends_at (toks tokens.now)) }
{
    let (_, rest) = mark_of(tokens, Mark::From)?;
    let (_, sender, rest) = name_of(rest)?;
    let (_, rest) = mark_of(rest, Mark::To)?;
    let (_, receiver, rest) = name_of(rest)?;
    let (_, rest) = mark_of(rest, Mark::Semicolon)?;
    Ok((sender, receiver, rest))
}

// name "(" payload ")" ends
#[tactic(auto, unfolding(crate::specs::inner::Reading::message_at))]
fn message_of<'a>(
    alloc: Global,
    types: &Types,
    tokens: &'a [Token],
) -> Result<(Message, &'a [Token]), ParseFault>
    requires { IsTable types.now }
    ensures { Gives (λ x. (told x.0.place x.0.sender x.0.receiver x.0.label x.0.payload, toks x.1.now)) result
        (message_at types.now.declared.items (toks tokens.now)) }
{
    let (place, label, rest) = name_of(tokens)?;
    let (_, rest) = mark_of(rest, Mark::OpenParen)?;
    let (carried, rest) = payload_of(alloc, rest)?;
    let (_, rest) = mark_of(rest, Mark::CloseParen)?;
    let (sender, receiver, rest) = ends_of(rest)?;
    let payload = types.kind_of(carried.as_slice());
    let message = Message {
        place,
        label,
        sender,
        receiver,
        payload,
    };
    Ok((message, rest))
}

// A message, as a statement.
#[tactic(auto, using(crate::proofs::Views::alones), unfolding(crate::specs::inner::Reading::says_at))]
fn says_of<'a>(
    alloc: Global,
    types: &Types,
    tokens: &'a [Token],
) -> Result<(GStatement, &'a [Token]), ParseFault>
    requires { IsTable types.now }
    ensures { Gives (λ x. (alone x.0, toks x.1.now)) result (says_at types.now.declared.items (toks tokens.now)) }
{
    let (message, rest) = message_of(alloc, types, tokens)?;
    let Message {
        place,
        label,
        sender,
        receiver,
        payload,
    } = message;
    let statement = GStatement::Message {
        place,
        sender,
        receiver,
        label,
        payload,
    };
    Ok((statement, rest))
}

// "continue" name ";"
#[tactic(auto, using(crate::proofs::Views::alones), unfolding(scr_parse::specs::inner::Reading::continue_with))]
fn continue_of(tokens: &[Token]) -> Result<(GStatement, &[Token]), ParseFault>
    ensures { Gives (λ x. (alone x.0, toks x.1.now)) result (continue_with a_continue (toks tokens.now)) }
{
    let (place, rest) = mark_of(tokens, Mark::Continue)?;
    let (_, name, rest) = name_of(rest)?;
    let (_, rest) = mark_of(rest, Mark::Semicolon)?;
    Ok((GStatement::Continue { place, name }, rest))
}

/// How the statements of a global protocol are read and made.
pub(crate) struct OfGlobal;

impl Nest for OfGlobal {
    type Statement = GStatement;

    ghost Tree = { Statements };

    ghost tree_of = { alone };

    ghost choice_tree = { a_choice };

    ghost loop_tree = { a_rec };

    ghost plain_tree_at = { plain_at };

    #[tactic(auto, using(crate::proofs::Views::alones))]
    fn choice(place: Place, at: Text, branches: List<List<GStatement>>) -> GStatement
        ensures { alone result ≡ a_choice place at (blocks_alone branches.items) }
    {
        GStatement::Choice {
            place,
            at,
            branches,
        }
    }

    #[tactic(auto, using(crate::proofs::Views::alones))]
    fn rec(place: Place, name: Text, body: List<GStatement>) -> GStatement
        ensures { alone result ≡ a_rec place name (all_alone body.items) }
    {
        GStatement::Rec { place, name, body }
    }

    #[tactic(auto, unfolding(crate::specs::inner::Reading::plain_at))]
    fn plain<'a>(
        alloc: Global,
        types: &Types,
        tokens: &'a [Token],
    ) -> Result<(GStatement, &'a [Token]), ParseFault> {
        if is_mark(tokens, Mark::Continue) {
            continue_of(tokens)
        } else {
            says_of(alloc, types, tokens)
        }
    }
}
