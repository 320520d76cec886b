//! Events in few bytes: what they name is a number in a table.

use std::mem::size_of;

/// What a message carries. A text is the number of one that is kept.
#[derive(Clone, Copy)]
pub(crate) enum Load {
    Nothing,
    Int(i32),
    Truth(bool),
    Text(u32),
}

/// A message that was sent or taken: the numbers of its peer's name and of its label, and what it
/// carries.
#[derive(Clone, Copy)]
pub(crate) struct Message {
    pub peer: u32,
    pub label: u32,
    pub load: Load,
}

/// An event in twelve bytes. A name or a text is the number of a text that is kept, and a message
/// that of one that is kept.
#[derive(Clone, Copy)]
pub(crate) enum Short {
    Print(u32),
    Made { object: u32, class: u32 },
    Enter { object: u32, method: u32 },
    /// A method is left that answers nothing.
    Left(u32),
    /// A method is left with an answer.
    Answered { object: u32, answer: i32 },
    Send(u32),
    Look { peer: u32, label: u32 },
    Take(u32),
}

/// An event, and the number of the role of which it is seen.
#[derive(Clone, Copy)]
pub(crate) struct Note {
    pub role: u32,
    pub event: Short,
}

const _: () = prove!(size_of::<Note>() == 16);

const _: () = prove!(size_of::<Message>() == 16);
