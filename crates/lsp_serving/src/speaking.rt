//! Messages as frames.

ghost use Rattle.std.specs.Prelude.{◌≡◌, ◌++◌, IfOk, OnOk};
ghost use Rattle.lsp_serving.specs.Speaking.{frame_of, spoken};

use lsp_frames::put_frame;
use lsp_messages::Outgoing;
use lsp_says::say;
use mg_text::{Bytes, Memory};
use std::alloc::Global;

// Appends the frame of a message.
fn put_message(alloc: Global, out: &mut Bytes, message: &Outgoing) -> Result<(), Memory>
    ensures { OnOk result (out.new ≡ out.old ++ frame_of message.now) }
{
    let text = say(alloc, message)?;
    put_frame(alloc, out, text.as_str().as_bytes())
}

/// The frames of messages, one behind the other.
///
/// # Errors
/// `Memory` only.
pub fn speak(alloc: Global, told: &[Outgoing]) -> Result<Bytes, Memory>
    ensures { IfOk result (λ b. b ≡ spoken told.now) }
{
    let mut out = Bytes::new(alloc);
    for message in told {
        put_message(alloc, &mut out, message)?;
    }
    Ok(out)
}
