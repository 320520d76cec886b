//! The states of a protocol's text and where their calls lead, as they are laid out from its end on.

use mg_text::List;
use scr_tree::Message;

/// Where an arrow leads, while the states before it aren't numbered yet.
#[derive(Clone, Copy, Debug, PartialEq, Eq)]
pub enum Hop {
    /// To the state of this number, counted from 1 on from the end of the text.
    State(u32),
    /// To the first state inside the `rec` of this number.
    Loop(u32),
    /// To where the protocol of this number begins, counted from 0 on from the last one of the text.
    Part(u32),
    /// To the end of the protocol.
    End,
}

/// A message in front of a state or of a branch, and where it leads.
#[derive(Clone, Copy)]
pub struct Arrow<'a> {
    pub message: &'a Message,
    pub to: Hop,
}

/// What a state offers, the last of the text first.
#[derive(Drop)]
pub struct Exits<'a> {
    /// Of a choice elsewhere, how many such choices stand from it on, without itself.
    pub number: Option<u32>,
    pub arrows: List<Arrow<'a>>,
}
