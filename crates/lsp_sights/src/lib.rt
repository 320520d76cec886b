//! What an object may be where a protocol method is called on it: what an editor shows of it, over a call and behind each.
//! The sets are those that `show` puts: of the least tables, whether or not demands fail.
#![tactic(auto)]

mod answers;
mod behind;
mod hovers;
mod laws;
mod located;
mod sights;
mod told;

pub use answers::{core_of, hints, hover, text_at};
pub use laws::{hover_is_shown, rows_hold};
pub use located::{Located, covering};
pub use sights::calls_of;
