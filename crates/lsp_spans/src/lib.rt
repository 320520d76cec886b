//! Ranges of the words that stand at places of mungo, as the protocol has them.
#![tactic(auto)]

mod laws;
mod ranges;
mod words;

pub use laws::rows_hold;
pub use ranges::ranges_of;
pub use words::{path_len, word_len};
