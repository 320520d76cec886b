//! Instructions that act on their frame, on fields and by calls, in eight bytes each.

use std::mem::size_of;
use vm_actions::Sort;

/// An instruction that acts on its frame, on a field or by a call; or another one.
/// Numbers of instructions, fields and methods are as in the linked program, and so are those of classes that fit 16 bits.
#[derive(Clone, Copy)]
pub enum Flat {
    /// Pushes an int.
    Int(i32),
    /// Pushes null.
    Null,
    Load(Sort, u8),
    Store(Sort, u8),
    Pop,
    Double,
    Swap,
    Plus,
    Minus,
    Times,
    Divide,
    Remain,
    Negate,
    Increase(u8, i8),
    /// A jump where the int on top compares so with 0.
    IfZeroEqual(u32),
    IfZeroUnequal(u32),
    IfZeroLess(u32),
    IfZeroAtLeast(u32),
    IfZeroGreater(u32),
    IfZeroAtMost(u32),
    /// A jump where the two ints on top compare so.
    IfBothEqual(u32),
    IfBothUnequal(u32),
    IfBothLess(u32),
    IfBothAtLeast(u32),
    IfBothGreater(u32),
    IfBothAtMost(u32),
    /// A jump where the reference on top is null.
    IfNull(u32),
    /// A jump where it isn't.
    IfNotNull(u32),
    Go(u32),
    ReturnNothing,
    Return(Sort),
    Read { class: u16, field: u32 },
    Write { class: u16, field: u32 },
    CallStatic { class: u16, method: u32 },
    CallSilent { class: u16, method: u32 },
    /// A call of which the object tells.
    CallTelling { class: u16, method: u32 },
    /// Pushes the print stream.
    Out,
    /// Anything else.
    Other,
}

const _: () = prove!(size_of::<Flat>() == 8);
