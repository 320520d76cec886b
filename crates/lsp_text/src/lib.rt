//! Texts of an editor as the Language Server Protocol has them: their lines, places in them, and their changes.
//! Nothing here knows of messages.
#![tactic(auto)]

mod changes;
mod columns;
mod documents;
mod encoding;
mod laws;
mod lines;
mod places;
mod positions;

pub use changes::{Change, Range, apply, apply_all};
pub use documents::{ChangeFault, Document, Documents};
pub use encoding::Encoding;
pub use laws::{
    boundaries_are_places, one_meaning, one_position, places_have_their_offsets, rows_hold,
    there_and_back,
};
pub use places::{offset_of_place, offsets_of_places, position_of_place};
pub use positions::{Position, offset_of, position_of, positions_of};
