//! The parts of a class file (JVMS chapter 4), and the numbers that each has.
//! Bytes are laid out as fields, from left to right.

use mg_text::List;

/// What each class file begins with.
pub const MAGIC: u32 = 0xcafe_babe;

/// The major version. The minor one, before it, is 0.
pub const VERSION: u16 = 49;

/// What a field is.
#[derive(Clone, Copy)]
pub enum Part {
    Magic,
    Minor,
    Major,
    PoolCount,
    /// The tag of a constant.
    Tag,
    TextLength,
    /// The bytes of a text.
    Letters(u32),
    /// A number that code may push.
    Int,
    /// The number of a constant with this tag.
    Reference(u8),
    /// Access flags, or a count that binds nothing.
    Number,
    /// How many interfaces there are.
    Interfaces,
    /// How many fields there are, or methods.
    MemberCount(bool),
    /// The access flags of a field or of a method.
    Member(bool),
    /// How many attributes there are, of a method or not.
    AttributeCount(bool),
    /// The name of an attribute that is none of a method.
    AttributeName,
    /// The name of an attribute of a method: how many follow it, and whether code stood before.
    MethodAttribute(u32, bool),
    /// The length of an attribute that is no code.
    OtherLength,
    /// The bytes of an attribute that is no code.
    Unread(u32),
    /// The length of a code's attribute.
    CodeLength,
    /// How many bytes the code itself has.
    CodeSize,
    Code(u32),
    /// How many handlers a code has.
    Handlers,
    /// The end of a code's attribute, with where its content begins and its length.
    ContentEnd(u32, u32),
    /// What stands behind all that was due.
    End,
}

/// A field, and where it begins.
#[derive(Clone, Copy)]
pub struct Field {
    pub at: u32,
    pub part: Part,
}

/// The fields laid out so far, where the next begins, where the pool's constants begin,
/// and the parts that are due, of which the last is next.
#[derive(Drop)]
pub struct Layout {
    pub row: List<Field>,
    pub at: u32,
    pub places: List<u32>,
    pub due: Vec<Part>,
}
