//! What a frame and an object hold.
//! A cell is copied as it is: a text stands in it by its number.

/// What a frame or a field holds.
#[derive(Clone, Copy, PartialEq, Eq)]
pub enum Cell {
    /// A local that was never stored to.
    Unset,
    Int(i32),
    /// A text, by its place in the machine's table.
    Text(u32),
    Null,
    /// The print stream.
    Out,
    /// An object, by its number in the heap.
    Object(u32),
}

/// What a frame is beside its cells: its class and its method's number there, the number of its next
/// instruction, how many of its cells are locals, and the object that tells when it is left.
#[derive(Clone, Copy)]
pub(crate) struct Head {
    pub(crate) class: u32,
    pub(crate) method: u32,
    pub(crate) place: u32,
    pub(crate) told: Option<u32>,
    pub(crate) locals: u16,
}

/// An object: its class, and what its fields hold.
#[derive(Drop)]
pub(crate) struct Object {
    pub(crate) class: u32,
    pub(crate) fields: Vec<Cell>,
}
