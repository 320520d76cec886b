//! The frames of the Language Server Protocol: a head of fields, one of which tells how long the body is,
//! an empty line, and the body. Nothing here knows of JSON.
#![tactic(auto)]

mod frames;
mod heads;
mod laws;
mod lines;
mod writing;

pub use frames::{FrameFault, Frames};
pub use heads::{Fault, HEAD_LIMIT, Taken, take_frame};
pub use laws::{
    frames_join, more_changes_nothing, one_reading, rows_hold, what_is_a_frame, what_is_read,
    what_is_written,
};
pub use writing::put_frame;
