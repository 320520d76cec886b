//! What is heard: bytes of the input, and messages in bodies.

ghost use Rattle.std.specs.Prelude.{◌<◌, length, IfOk};
ghost use Rattle.lsp_serving.specs.Hearing.{IsHeard};
ghost use Rattle.lsp_serving.specs.inner.Passing.{Fed};

use crate::Ending;
use lsp_frames::Frames;
use lsp_json::read;
use lsp_messages::Incoming;
use mg_text::Memory;
use std::alloc::Global;
use std::io::Read;
use std::str;

/// How many bytes a body has at most.
pub const BODY_LIMIT: u32 = 0x1000_0000;

/// The message of a body. What is no text is malformed.
///
/// # Errors
/// `Memory` only.
pub fn hear(alloc: Global, body: &[u8]) -> Result<Incoming, Memory>
    ensures { IfOk result (IsHeard body.now) }
{
    match str::from_utf8(body) {
        Ok(text) => read(alloc, text),
        Err(_) => Ok(Incoming::Malformed),
    }
}

/// Reads once, and answers whether more may come.
///
/// # Errors
/// `Unread` where the reader refuses it, `Memory` where memory is wanted.
pub fn feed<R: Read>(
    alloc: Global,
    reader: &mut R,
    buffer: &mut [u8],
    frames: &mut Frames,
) -> Result<bool, Ending>
    requires { 0 < length buffer.old }
    ensures { Fed (R.remaining reader.old) (R.remaining reader.new) frames.old frames.new result }
{
    let count = match reader.read(buffer) {
        Ok(count) => count,
        Err(_) => return Err(Ending::Unread),
    };
    match frames.feed(alloc, &buffer[..count]) {
        Ok(()) => Ok(count > 0),
        Err(Memory) => Err(Ending::Memory),
    }
}
