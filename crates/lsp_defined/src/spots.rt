//! The words of a document over which something is said.

use mg_text::{Place, Text};

/// A word at a place, the method that it tells of, and the state, where it is one of a single state.
pub(crate) struct Spot {
    pub place: Place,
    pub state: Option<Text>,
    pub method: Text,
}

// One call lets go of it, wherever a function ends.
impl Drop for Spot {
    fn drop(self) {
        let Spot {
            place: _,
            state: _,
            method: _,
        } = self;
    }
}
