//! The four files of a workload, and the line that tells how large it was.

ghost use Rattle.std.specs.Prelude.{◌≡◌, ◌<◌, ◌≤◌, IfOk, map};
ghost use Rattle.mg_load.specs.Workload.{file_names, file_texts, loaded_line};

use crate::classes::{client, server};
use crate::picks::picks;
use crate::protocols::protocol;
use mg_text::{Bytes, List, Memory, Text};
use std::alloc::Global;

/// The most branches that a workload has.
pub const MOST: u32 = 400;

/// The files of a workload: their names and what they hold, in one order.
#[derive(Drop)]
pub struct Workload {
    pub names: List<Text>,
    pub contents: List<Bytes>,
}

/// The names of the files.
///
/// # Errors
/// `Memory` only.
pub fn file_names(alloc: Global) -> Result<List<Text>, Memory>
    ensures { IfOk result (λ l. l.items ≡ file_names) }
{
    texts_of(alloc, &["A.scr", "B.scr", "AMain.java", "BMain.java"])
}

// These words, each as a text.
fn texts_of(alloc: Global, words: &[&str]) -> Result<List<Text>, Memory>
    ensures { IfOk result (λ l. l.items ≡ map (λ w. w.now) words.now) }
{
    let mut texts = List::new(alloc);
    for word in words {
        texts.push(Text::of(alloc, word)?)?;
    }
    Ok(texts)
}

/// The workload of so many branches, whose order a number picks: a protocol and a class for each of
/// two roles, `A` with `AMain` and `B` with `BMain`. There are four rounds for each branch.
///
/// # Errors
/// `Memory` only.
pub fn load_files(alloc: Global, n: u32, seed: u64) -> Result<Workload, Memory>
    requires some { 0 < n }
    requires most { n ≤ MOST }
    ensures names { IfOk result (λ w. w.names.items ≡ file_names) }
    ensures contents { IfOk result (λ w. w.contents.items ≡ file_texts n seed) }
{
    let mut contents = List::new(alloc);
    contents.push(protocol(alloc, "A", "to B", "from B", n)?)?;
    contents.push(protocol(alloc, "B", "from A", "to A", n)?)?;
    let picks = picks(alloc, n, seed)?;
    contents.push(client(alloc, picks.as_slice())?)?;
    drop(picks);
    contents.push(server(alloc, n)?)?;
    let names = file_names(alloc)?;
    Ok(Workload { names, contents })
}

/// The line that tells of a workload that ran: its rounds, and how many messages were sent. It ends
/// with a line feed.
///
/// # Errors
/// `Memory` only.
pub fn loaded_line(alloc: Global, n: u32, seed: u64, messages: usize) -> Result<Text, Memory>
    requires { n ≤ MOST }
    ensures { IfOk result (λ t. t ≡ loaded_line n seed messages) }
{
    let rounds = 4 * n;
    let line = format!(in alloc; "load {n} {seed}: {rounds} rounds, {messages} messages\n")?;
    Ok(Text::from_string(line))
}
