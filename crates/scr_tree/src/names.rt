//! The names of the calls that stand for messages.

ghost use Rattle.std.specs.Prelude.{◌≡◌, IfOk};
ghost use Rattle.std.specs.List.{flat_map};
ghost use Rattle.scr_tree.specs.CallNames.{label_call, message_call, start_of, way_of};
ghost use Rattle.scr_tree.specs.Meaning.{message_of};

use crate::{Direction, Message};
use mg_text::{Memory, Text};
use std::alloc::Global;

/// The name of the method that sends or receives a message, as `send_addIntToS`.
pub fn call_name(alloc: Global, message: &Message) -> Result<Text, Memory>
    ensures { IfOk result (λ t. t ≡ message_call (message_of message.now)) }
{
    let room = name_room(message.label.as_str().len(), message.peer.as_str().len());
    let mut name = String::with_capacity(alloc, room)?;
    name.push_str(start_of(message.direction))?;
    name.push_str(message.label.as_str())?;
    name.push_str(message.payload.part())?;
    name.push_str(way_of(message.direction))?;
    name.push_str(message.peer.as_str())?;
    Ok(Text::from_string(name))
}

// Room for a call's name, so that it is made in one piece: its longest other parts are "receive_", "Boolean" and
// "From".
fn name_room(label: usize, peer: usize) -> usize {
    label.saturating_add(peer).saturating_add(19)
}

// How a call's name begins.
fn start_of(direction: Direction) -> &'static str
    ensures { result.now ≡ start_of direction }
{
    match direction {
        Direction::To => "send_",
        Direction::From => "receive_",
    }
}

// What stands before the peer in a call's name.
fn way_of(direction: Direction) -> &'static str
    ensures { result.now ≡ way_of direction }
{
    match direction {
        Direction::To => "To",
        Direction::From => "From",
    }
}

/// The name of the method that answers which label a peer has sent, of the choice of this number
/// that is made elsewhere, as `receive_SChoice1LabelFromC`.
pub fn label_call(alloc: Global, me: &str, number: u32, peer: &str) -> Result<Text, Memory>
    ensures { IfOk result (λ t. t ≡ label_call me.now number peer.now) }
{
    let digits = format!(in alloc; "{number}")?;
    let name = text_of(
        alloc,
        &["receive_", me, "Choice", digits.as_str(), "LabelFrom", peer],
    )?;
    Ok(name)
}

// Pieces of a text, one behind another.
fn text_of(alloc: Global, pieces: &[&str]) -> Result<Text, Memory>
    ensures { IfOk result (λ t. t ≡ flat_map (λ p. p.now) pieces.now) }
{
    Ok(Text::from_string(pieces.concat(alloc)?))
}
