//! The first fault of a Scribble file that is a tree: of the conditions that don't hold the one of
//! the lowest number, at its first place in the text.
#![tactic(auto)]

mod actions;
mod clash;
mod culprit;
mod cycles;
mod declared;
mod fault;
mod going;
mod gone;
mod guards;
mod labels;
mod last;
mod laws;
mod on_spot;
mod opening;
mod own;
mod reached;
mod roles;
mod roles_told;
mod round;
mod seen;
mod starts;
mod states;
mod truth;
mod typed;

pub use culprit::{Culprit, Named, culprit_unless, with_name};
pub use declared::find_duplicate_name;
pub use fault::{Fault, first_fault};
pub use guards::find_unguarded;
pub use labels::find_same_label;
pub use laws::{faultless_is_valid, one_fault};
pub use on_spot::{find_branch_start, find_duplicate_rec, find_mixed_choice, find_unknown_rec};
pub use reached::find_unreachable;
pub use roles::listed_roles;
pub use seen::{add_name, no_names};
pub use typed::{find_payload_count, find_unknown_type};
