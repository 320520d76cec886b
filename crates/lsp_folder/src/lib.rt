//! The program that a document belongs to: the sources of its folder, those that are open in the
//! editor by their text there.
#![tactic(auto)]

mod laws;
mod names;
mod noted;
mod program;

pub use laws::rows_hold;
pub use names::is_part;
pub use noted::{is_noted, note, room_for};
pub use program::{File, Member, Program, program_of};
