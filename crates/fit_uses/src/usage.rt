//! What a use is.

use jv_core::SessionCall;
use mg_text::Place;

/// What code uses that is for the classes of roles alone, and where.
#[derive(Clone, Copy)]
pub enum Use {
    /// This method of `Session` is called here.
    Talks(Place, SessionCall),
    /// An object of the class of this number is made here.
    Makes(Place, u32),
}
