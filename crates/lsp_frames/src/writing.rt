//! Frames as they are written.

ghost use Rattle.std.specs.Prelude.{◌≡◌, ◌++◌, OnOk};
ghost use Rattle.lsp_frames.specs.Frames.{written};

use mg_text::{Bytes, Memory};
use std::alloc::Global;

/// Puts the frame of a body behind the bytes that stand there.
///
/// # Errors
/// `Memory` only. A part of the frame may then stand there.
pub fn put_frame(alloc: Global, out: &mut Bytes, body: &[u8]) -> Result<(), Memory>
    ensures { OnOk result (out.new ≡ out.old ++ written body.now) }
{
    let head = format!(in alloc; "Content-Length: {}\r\n\r\n", body.len())?;
    out.extend(head.as_bytes())?;
    out.extend(body)
}
