//! Frames at the front of bytes.

ghost use Rattle.std.specs.Prelude.{◌≡◌, ◌+◌, ◌<◌, ◌≤◌, ◌^◌, length, option_to_list};
ghost use Rattle.lsp_frames.specs.declared.heads.Taken.TheVariants.{Refused};
ghost use Rattle.lsp_frames.specs.declared.heads.Step.TheVariants.{Stop};
ghost use Rattle.lsp_frames.specs.Reading.{head_limit, IsRead, Closes};
ghost use Rattle.lsp_frames.specs.inner.Walk.{Steps};

use crate::lines::{Cut, Said, begin, say};

/// How many bytes a head has at most, with the empty line that ends it.
pub const HEAD_LIMIT: usize = 4096;

/// Why bytes are no frame, and never become one, whatever follows them.
#[derive(Clone, Copy, PartialEq, Eq)]
pub enum Fault {
    /// A line of the head ends with a line feed that has no carriage return before it.
    NoReturn,
    /// A line of the head has no colon.
    NoColon,
    /// The head ends, and no field told a length.
    NoLength,
    /// A field tells a length, and one before it did.
    TwoLengths,
    /// A field tells a length that is no number in decimal digits, or is above the limit.
    BadLength,
    /// The head is longer than `HEAD_LIMIT`.
    HeadTooLong,
}

/// What stands at the front of bytes.
#[derive(Clone, Copy, PartialEq, Eq)]
pub enum Taken {
    /// A frame.
    Frame {
        /// How many bytes stand before its body.
        begins: usize,
        /// How many bytes stand before what follows it.
        ends: usize,
    },
    /// A part of a frame: more bytes are wanted.
    More,
    /// No frame.
    Refused {
        /// Why.
        fault: Fault,
        /// How many bytes stand before the line that is at fault.
        at: usize,
    },
}

// A line of a head is passed, or decides.
pub(crate) enum Step {
    // It decides.
    Stop(Taken),
    // It is passed: how many bytes it has with its end, and which length is told then.
    Go(usize, Option<usize>),
}

// What the end of a head decides, behind so many bytes, where so many follow the empty line.
fn closed(at: usize, told: Option<usize>, rest: &[u8]) -> Taken
    requires { at + 2 + length rest.now < 2 ^ 64 }
    ensures { Closes at (option_to_list told) rest.now result }
{
    match told {
        None => Taken::Refused {
            fault: Fault::NoLength,
            at,
        },
        Some(length) if length <= rest.len() => Taken::Frame {
            begins: at + 2,
            ends: at + 2 + length,
        },
        Some(_) => Taken::More,
    }
}

// Looks at the line with which the bytes begin, behind so many others, which told this length.
fn look(bytes: &[u8], at: usize, told: Option<usize>, limit: u32) -> Step
    requires head { at ≤ head_limit }
    requires within { at + length bytes.now < 2 ^ 64 }
    ensures { Steps limit bytes.now at told result }
{
    let size = match begin(bytes, HEAD_LIMIT - at) {
        Cut::Wants => return Step::Stop(Taken::More),
        Cut::Over => return refused(Fault::HeadTooLong, at),
        Cut::Bare => return refused(Fault::NoReturn, at),
        Cut::Line(size) => size,
    };
    match say(&bytes[..size], limit) {
        Said::Empty => Step::Stop(closed(at, told, &bytes[size + 2..])),
        Said::NoColon => refused(Fault::NoColon, at),
        Said::BadLength => refused(Fault::BadLength, at),
        Said::Other => Step::Go(size + 2, told),
        Said::Long(_) if told.is_some() => refused(Fault::TwoLengths, at),
        Said::Long(length) => Step::Go(size + 2, Some(length)),
    }
}

// A refusal.
fn refused(fault: Fault, at: usize) -> Step
    ensures { result ≡ Stop (Refused fault at) }
{
    Step::Stop(Taken::Refused { fault, at })
}

/// What stands at the front of bytes, where a body has at most so many bytes as the limit says: a frame, a part of
/// one, or no frame. A head has at most `HEAD_LIMIT` bytes, so this costs little, however long the bytes are.
pub fn take_frame(bytes: &[u8], limit: u32) -> Taken
    ensures { IsRead limit bytes.now result }
{
    let mut at = 0;
    let mut told = None;
    loop {
        match look(&bytes[at..], at, told, limit) {
            Step::Stop(taken) => return taken,
            Step::Go(passed, more) => {
                at += passed;
                told = more;
            }
        }
    }
}
