//! Events as they are read: their texts lie where they are kept.

/// What a message carries.
#[derive(Clone, Copy, Debug)]
pub enum SeenCarried<'a> {
    Nothing,
    Int(i32),
    Truth(bool),
    Text(&'a str),
}

/// What is seen of a run of a role. Objects are numbered from 0 in the order of their making.
#[derive(Clone, Copy, Debug)]
pub enum SeenEvent<'a> {
    /// A text is printed; a line feed follows it.
    Print(&'a str),
    /// An object of a class is made.
    Made {
        object: u32,
        class: &'a str,
    },
    /// A protocol method of an object begins.
    Enter {
        object: u32,
        method: &'a str,
    },
    /// It ends, and answers this int, truth value as 0 or 1, or position of an enum's constant.
    Leave {
        object: u32,
        answer: Option<i32>,
    },
    /// A message is sent to a peer.
    Send {
        peer: &'a str,
        label: &'a str,
        payload: SeenCarried<'a>,
    },
    /// The label of the next message from a peer is looked at.
    Look {
        peer: &'a str,
        label: &'a str,
    },
    /// The next message from a peer is taken.
    Take {
        peer: &'a str,
        label: &'a str,
        payload: SeenCarried<'a>,
    },
}

/// An event, and the number of the role of which it is seen.
#[derive(Clone, Copy)]
pub struct Noted<'a> {
    pub role: u32,
    pub event: SeenEvent<'a>,
}
