//! Serving, from the first byte to the end.

ghost use Rattle.std.specs.Prelude.{◌≡◌, ◌<◌, length};
ghost use Rattle.lsp_serving.specs.Endings.{GoesOn, IsServedFrom, IsServed};

use crate::Ending;
use crate::folders::Folders;
use crate::hearing::feed;
use crate::passing::pass;
use lsp_frames::Frames;
use lsp_server::Session;
use mg_io::Sink;
use std::alloc::Global;
use std::io::Read;

// How many bytes are asked for at a time.
const CHUNK: usize = 0x1_0000;

// Serves from a session on, with room for what is read at a time.
fn serve_from<R: Read, F: Folders, S: Sink>(
    alloc: Global,
    session: &mut Session,
    reader: &mut R,
    folders: &mut F,
    sink: &mut S,
    buffer: &mut [u8],
) -> Ending
    requires goes { GoesOn session.old }
    requires room { 0 < length buffer.old }
    ensures { IsServedFrom (F.known folders.old) session.old (R.remaining reader.old) (R.remaining reader.new)
        (S.bytes sink.old) (S.bytes sink.new) result }
{
    let mut frames = Frames::new(alloc);
    for _ in 0..u64::MAX {
        match feed(alloc, reader, buffer, &mut frames) {
            Ok(true) => {}
            Ok(false) => return Ending::Input,
            Err(ending) => return ending,
        }
        if let Err(ending) = pass(alloc, session, folders, sink, &mut frames) {
            return ending;
        }
    }
    Ending::Unread
}

/// Serves a client: reads its messages, tells what comes of each, and ends.
pub fn serve<R: Read, F: Folders, S: Sink>(
    alloc: Global,
    reader: &mut R,
    folders: &mut F,
    sink: &mut S,
) -> Ending
    ensures { IsServed (F.known folders.old) (R.remaining reader.old) (R.remaining reader.new) (S.bytes sink.old) (S.bytes sink.new) result }
{
    let mut session = Session::new(alloc);
    match vec![in alloc; 0u8; CHUNK] {
        Ok(mut buffer) => serve_from(alloc, &mut session, reader, folders, sink, &mut buffer[..]),
        Err(_) => Ending::Memory,
    }
}
