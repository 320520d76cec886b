//! Places that lie in a file.

ghost use Rattle.std.specs.Prelude.{◌≤◌, length};
ghost use Rattle.mg_read.specs.Within.{IsWithin};

use mg_text::{Place, place_of};

// Bytes of a file that are looked at, and one more.
const MOST: usize = 1_048_577;

/// The place of the same line and column in a file of these bytes, or where the file ends. Of a file
/// of more bytes than any reader takes it is the start.
#[tactic(auto, using(crate::proofs::Offsets::offsets))]
pub fn place_within(file: u32, bytes: &[u8], place: Place) -> Place
    ensures { IsWithin file bytes.now result }
{
    if bytes.len() > MOST {
        return Place::start(file);
    }
    place_at(file, bytes, offset_of(bytes, place))
}

// The place at an offset, or where the file ends.
#[tactic(auto, using(crate::proofs::Offsets::offsets))]
fn place_at(file: u32, bytes: &[u8], offset: usize) -> Place
    requires { length bytes.now ≤ 1048577 }
    ensures { IsWithin file bytes.now result }
{
    if offset > bytes.len() {
        return place_of(file, bytes, bytes.len());
    }
    place_of(file, bytes, offset)
}

// How many bytes stand before a line and a column.
fn offset_of(bytes: &[u8], place: Place) -> usize {
    let mut lines = place.line;
    let mut offset: usize = 0;
    for byte in bytes {
        if lines > 1 {
            offset = offset.saturating_add(1);
            if *byte == b'\n' {
                lines -= 1;
            }
        }
    }
    offset.saturating_add(place.column.saturating_sub(1) as usize)
}
