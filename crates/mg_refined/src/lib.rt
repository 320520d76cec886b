//! Whether one typestate of two files stands for the other, told as a text: yes with how many pairs
//! of their places calls lead to, or no with the calls to where it fails and why.
#![tactic(auto)]

mod refined;
mod telling;

pub use refined::{Told, refine};
