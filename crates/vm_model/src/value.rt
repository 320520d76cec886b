//! What locals, operands and fields hold.

use mg_text::Text;

/// A value of the machine. Truth values and constants of enums are ints.
#[derive(Drop)]
pub enum Value {
    Int(i32),
    Text(Text),
    Null,
    /// The print stream that `System.out` holds.
    Out,
    /// An object, by its number in the heap.
    Object(u32),
}
