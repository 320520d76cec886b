//! What stands behind an opcode in the code.

use jcf_tree::Kind;

/// What stands behind an opcode.
#[derive(Clone, Copy)]
pub enum Operands {
    Nothing,
    /// A number of one byte.
    Byte,
    /// A number of two bytes.
    Short,
    /// The number of a local, in one byte.
    Local,
    /// The number of a local and what is added to it, a byte each.
    Increment,
    /// The distance of a jump, in two bytes.
    Jump,
    /// The distance of a jump, in four bytes.
    FarJump,
    /// The number of a constant of this kind, in one byte.
    NearConstant(Kind),
    /// The number of a constant of this kind, in two bytes.
    Constant(Kind),
    /// The number of a method of an interface in two bytes, and two further bytes.
    Interface,
    /// The number of a dynamic call in two bytes, and two further bytes.
    Dynamic,
    /// The number of a class in two bytes, and of dimensions in one.
    Dimensions,
    /// Bytes up to a multiple of four from the code's start, and then numbers of four bytes each:
    /// the distance for all other ints, the lowest int, the highest, and a distance for each from the lowest to the highest.
    TableSwitch,
    /// Bytes up to a multiple of four from the code's start, and then numbers of four bytes each:
    /// the distance for all other ints, how many pairs there are, and for each an int and its distance.
    LookupSwitch,
    /// A further opcode, and its local in two bytes; behind `iinc` two bytes more.
    Wide,
}
