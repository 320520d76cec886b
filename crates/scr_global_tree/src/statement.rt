//! The statements of a global protocol, each with its place.

use mg_text::{List, Place, Text};
use scr_tree::Payload;

/// A statement of a global protocol, with the place of its first token.
#[derive(Drop)]
pub enum GStatement {
    /// A role sends a message to another one.
    Message {
        place: Place,
        sender: Text,
        receiver: Text,
        label: Text,
        payload: Payload,
    },
    /// The role `at` chooses one of the branches.
    Choice {
        place: Place,
        at: Text,
        branches: List<List<GStatement>>,
    },
    /// A body that `continue` with its name begins again.
    Rec {
        place: Place,
        name: Text,
        body: List<GStatement>,
    },
    /// Goes on with the whole body of the `rec` of this name.
    Continue {
        place: Place,
        name: Text,
    },
}
