//! The call of the command, in one place: what it promises is proved where it is made, and the cases
//! look at what it leaves.

use mg_io::{MemFolder, MemSink};
use mg_text::Text;
use mg_top::{Status, mungo};
use std::alloc::Global;

/// How the command of these words ends, over a folder and sinks in memory.
pub fn status_of(
    alloc: Global,
    words: &[Text],
    folder: &mut MemFolder,
    out: &mut MemSink,
    err: &mut MemSink,
) -> Status {
    mungo(alloc, words, folder, out, err)
}
