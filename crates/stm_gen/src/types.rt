//! The types that the methods of messages take and answer.

ghost use Rattle.std.specs.Prelude.{◌≡◌, IfOk};
ghost use Rattle.scr_tree.specs.Meaning.{message_of};
ghost use Rattle.stm_gen.specs.Laid.{carried_type, result_of, params_of};

use mg_text::{List, Memory};
use scr_tree::{Direction, Message, Payload};
use std::alloc::Global;
use ts_tree::TypeName;

/// What the method of a message answers.
pub fn result_of(message: &Message) -> TypeName
    ensures { result ≡ result_of (message_of message.now) }
{
    match message.direction {
        Direction::To => TypeName::Void,
        Direction::From => carried(message.payload),
    }
}

/// What the method of a message takes.
pub fn params_of(alloc: Global, message: &Message) -> Result<List<TypeName>, Memory>
    ensures { IfOk result (λ types. types.items ≡ params_of (message_of message.now)) }
{
    let mut params = List::new(alloc);
    if message.direction == Direction::To && message.payload != Payload::Nothing {
        params.push(carried(message.payload))?;
    }
    Ok(params)
}

/// The type of what a message carries.
pub fn carried(payload: Payload) -> TypeName
    ensures { result ≡ carried_type payload }
{
    match payload {
        Payload::Nothing => TypeName::Void,
        Payload::Int => TypeName::Int,
        Payload::Boolean => TypeName::Boolean,
        Payload::Text => TypeName::Text,
    }
}
