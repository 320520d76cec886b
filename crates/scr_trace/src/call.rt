//! The calls of a role's object, as a walk takes and offers them.

use mg_text::{List, Text};

/// A call of a method, and the label that it answers with, where it answers with one.
#[derive(Clone, Copy)]
pub struct Call<'a> {
    pub method: &'a str,
    pub answer: Option<&'a str>,
}

/// A method that is offered, and the labels with which its call may answer: none but of a label call.
#[derive(Drop)]
pub struct Offer {
    pub method: Text,
    pub answers: List<Text>,
}
