//! Class files, the machine, and the turns of a role. Each case of the files in `data/` is
//! answered, and told where its answer isn't what is wanted. What a case gives and what it wants is
//! said at the head of its file.

mod classes;
mod codes;
mod frames;
pub(crate) mod instrs;
mod running;
mod spelling;
mod texts;
mod turns;
mod unanswered;
mod walks;

use crate::machine::spelling::bytes_of;
use crate::machine::unanswered::Unanswered;
use cases::{Answer, Answers, CasesFault, tell};
use mg_text::Memory;
use std::alloc::Global;
use std::fs;
use std::rt::Files;

/// The files of cases, in the order in which they are answered.
const FILES: [&str; 6] = [
    "class_texts.txt",
    "class_codes.txt",
    "classes.txt",
    "class_walks.txt",
    "frames.txt",
    "turns.txt",
];

/// Answers the cases of each file, some of which begin with bytes of a file here.
#[derive(Drop)]
struct Machines {
    /// The class `Hello` whose `main` prints `hello`.
    hello: Vec<u8>,
    /// The class `Hello` up to the code of its `main`.
    front: Vec<u8>,
}

impl Answers for Machines {
    fn answer(
        &self,
        alloc: Global,
        answer: &mut Answer,
        file: &str,
        given: &[u8],
    ) -> Result<(), Memory> {
        if let Err(why) = self.tell(alloc, answer, file, given) {
            why.tell(answer);
        }
        Ok(())
    }
}

impl Machines {
    fn tell(
        &self,
        alloc: Global,
        answer: &mut Answer,
        file: &str,
        given: &[u8],
    ) -> Result<(), Unanswered> {
        if file == "class_texts.txt" {
            return texts::tell(alloc, answer, given);
        }
        match str::from_utf8(given) {
            Ok(given) => self.tell_lines(alloc, answer, file, given),
            Err(_) => Err(Unanswered::Form),
        }
    }

    fn tell_lines(
        &self,
        alloc: Global,
        answer: &mut Answer,
        file: &str,
        given: &str,
    ) -> Result<(), Unanswered> {
        match file {
            "class_codes.txt" => codes::tell(alloc, answer, given),
            "classes.txt" => classes::tell(alloc, answer, self.hello.as_slice(), given),
            "class_walks.txt" => walks::tell(alloc, answer, self.hello.as_slice(), given),
            "frames.txt" => frames::tell(alloc, answer, self.front.as_slice(), given),
            "turns.txt" => turns::tell(alloc, answer, self.hello.as_slice(), given),
            _ => Err(Unanswered::Form),
        }
    }
}

// The bytes of a file here that spells them in hexadecimal.
fn bytes_in<R: Files + AllocGlobal>(rt: &R, name: &str) -> Result<Vec<u8>, CasesFault> {
    let text = fs::read_to_string(rt, name)?;
    match bytes_of(rt.alloc(), text.as_str()) {
        Ok(bytes) => Ok(bytes),
        Err(_) => Err(CasesFault::Line(1)),
    }
}

fn read_bases<R: Files + AllocGlobal>(rt: &R) -> Result<Machines, CasesFault> {
    let hello = bytes_in(rt, "hello.hex")?;
    let front = bytes_in(rt, "front.hex")?;
    Ok(Machines { hello, front })
}

/// Tells the cases of class files and machines.
pub(crate) fn tell_all<R: Files + Print + AllocGlobal>(rt: &R) -> Result<(), CasesFault> {
    let machines = read_bases(rt)?;
    tell(rt, &machines, &FILES)
}
