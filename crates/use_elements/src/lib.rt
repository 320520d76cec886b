//! What the elements of a set lead to, and which demands they fail; and what is known where two ways meet.
//! What flows through a method is put together of these.
#![tactic(auto)]

mod elements;
mod sets;

pub use elements::{
    Mapping, Rule, Subject, Title, blame, copy_set, drops_at, empty_set, image, judge, mark,
};
pub use sets::{Sets, copy_now, meet, take_in};
