//! The commands of mungo, over a folder and sinks in memory. Each case of the files in `data/` is
//! run, and what it leaves is told where it isn't what is wanted.
//!
//! A case of commands gives lines, and then files, each begun by a line `>>> NAME`:
//!
//! ```text
//! mungo check A.java B.java     the words of the command
//! with A.java                   files of these names that lie here are in the folder too
//! first compile A.java          a command that runs before: of what is then in the folder, the files
//!                               that are words of the case's own command are in it
//! fills A.class 9               a file of so many bytes that are 0 is in it; of a file the first
//! cuts A.class 4                bytes alone are; its bytes from a number on are these; it has this
//! sets A.class 266 87 0         byte more
//! grows A.class 0
//! out fails 0 1                 calls of standard output that fail, counted from 0
//! err fails 0                   the same of standard error
//! folder fails 4                and of the folder, whose reads and writes are counted together
//! each folder                   each call of the folder, of `out` or of `err` fails in turn
//! each front A.class            of a file each front alone is there in turn, or each bit of it is
//! each bit A.class              another
//! shows a.txt                   files whose contents are told afterwards
//! bytes A.class                 files whose bytes are told afterwards, in hexadecimal digits
//! ```

mod asked;
mod calling;
mod classes;
mod given;
mod torn;
mod world;

use crate::commands::asked::tell_asked;
use cases::{Answer, Answers, CasesFault, tell};
use mg_text::Memory;
use std::alloc::Global;
use std::rt::Files;

/// The files of cases of commands, in the order in which they are answered.
const FILES: [&str; 20] = [
    "translate.txt",
    "client.txt",
    "conform.txt",
    "check.txt",
    "all.txt",
    "show.txt",
    "refused.txt",
    "compile.txt",
    "limits.txt",
    "run.txt",
    "roles.txt",
    "exec.txt",
    "faults.txt",
    "refine.txt",
    "project.txt",
    "fit.txt",
    "fitting.txt",
    "load.txt",
    "verify.txt",
    "words.txt",
];

/// Runs the commands of cases, which may ask for files of this runtime.
#[derive(Drop)]
struct Commands<'a, R: Files> {
    rt: &'a R,
}

impl<'a, R: Files> Answers for Commands<'a, R> {
    fn answer(
        &self,
        alloc: Global,
        answer: &mut Answer,
        _file: &str,
        given: &[u8],
    ) -> Result<(), Memory> {
        match str::from_utf8(given) {
            Ok(given) => tell_asked(alloc, answer, self.rt, given),
            Err(_) => {
                answer.add("what is given is no UTF-8");
                Ok(())
            }
        }
    }
}

/// Tells the cases of commands.
pub(crate) fn tell_all<R: Files + Print + AllocGlobal>(rt: &R) -> Result<(), CasesFault> {
    tell(rt, &Commands { rt }, &FILES)
}
