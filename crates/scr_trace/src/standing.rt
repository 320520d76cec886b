//! Where a role stands in the text of its protocol.

/// In front of the state of this number, counted from 0 in the order of the text, or at the end.
#[derive(Clone, Copy, PartialEq, Eq)]
pub enum Standing {
    State(u32),
    End,
}
