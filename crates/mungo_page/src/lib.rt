//! The program as a page's host calls it: a static library with one function from bytes to bytes.
#![tactic(auto)]

ghost use Rattle.std.specs.Prelude.{◌≡◌, ◌≢◌, ◌++◌, ℕ, List, length, take, drop};
ghost use Rattle.mg_page.specs.Answer.{Responds};

use mg_page::respond;
use std::alloc::Global;

/// The answer to what two rows of bytes ask, words and files, each piece behind its length in four bytes.
/// It is put into the room as far as that goes. The result is how long the answer is, and 0 where there is none: memory
/// lacks, or the bytes ask nothing; then the room is as before.
#[unsafe(no_mangle)]
pub extern "C" fn page_answer(alloc: Global, words: &[u8], files: &[u8], room: &mut [u8]) -> usize
    ensures some { result ≢ 0 → (bytes : List ℕ) × Responds words.now files.now bytes × (result ≡ length bytes)
        × (room.new ≡ take (length room.old) bytes ++ drop (length bytes) room.old) }
    ensures none { result ≡ 0 → room.new ≡ room.old }
{
    match respond(alloc, words, files) {
        Ok(bytes) => put(bytes.as_slice(), room),
        Err(_) => 0,
    }
}

// Puts a text into the room, as far as that goes, and says how long it is.
fn put(bytes: &[u8], room: &mut [u8]) -> usize
    ensures long { result ≡ length bytes.now }
    ensures front { room.new ≡ take (length room.old) bytes.now ++ drop (length bytes.now) room.old }
{
    let count = bytes.len().min(room.len());
    room[..count].copy_from_slice(&bytes[..count]);
    bytes.len()
}
