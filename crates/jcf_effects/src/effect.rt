//! What an instruction does to the locals and operands of its frame, and where it goes on.
//! A long and a double take two words, everything else one.

/// Which local: one whose number stands behind the opcode, or one that the opcode names.
#[derive(Clone, Copy)]
pub enum Local {
    Behind,
    At(u8),
}

/// A move of operands, by words.
#[derive(Clone, Copy)]
pub enum Move {
    Pop,
    PopTwo,
    Double,
    DoubleBelowOne,
    DoubleBelowTwo,
    DoubleTwo,
    DoubleTwoBelowOne,
    DoubleTwoBelowTwo,
    Swap,
}

/// How two ints compare, of which the first lies below; or one with 0.
#[derive(Clone, Copy)]
pub enum Comparison {
    Equal,
    Unequal,
    Less,
    AtLeast,
    Greater,
    AtMost,
}

/// How a method is called.
#[derive(Clone, Copy)]
pub enum Calling {
    Virtual,
    Special,
    Static,
    Interface,
    Dynamic,
}

/// What an opcode does.
#[derive(Clone, Copy)]
pub enum Effect {
    /// Takes and gives so many words, of which nothing is known. It can't throw:
    /// constants, arithmetic but division and remainder of ints and longs, conversions and comparisons.
    Plain { takes: u8, gives: u8 },
    /// Takes and gives so many words, of which nothing is known. It may throw.
    Other { takes: u8, gives: u8 },
    /// Gives null.
    Null,
    /// Gives the int 0.
    Zero,
    /// Gives the int 1.
    One,
    /// Gives the words of a local.
    Load(u8, Local),
    /// A local takes so many words.
    Store(u8, Local),
    Move(Move),
    /// Adds to the int of a local.
    Increment,
    /// Takes an array of ints and a place in it, and gives the int there.
    IntLoad,
    /// Takes an array of references, a place in it, and the reference that it is to have there.
    ReferenceStore,
    /// Takes an int, and jumps where it compares so with 0.
    IfZero(Comparison),
    /// Takes two ints, and jumps where they compare so.
    IfBoth(Comparison),
    /// Takes two references, and jumps where they are the same, or where they aren't.
    IfSame(bool),
    /// Takes a reference, and jumps where it is null, or where it isn't.
    IfNull(bool),
    /// Jumps.
    Go,
    /// Takes an int, and jumps by it.
    Switch,
    GetStatic,
    PutStatic,
    GetField,
    PutField,
    /// Makes an object of a class.
    New,
    /// Takes as many ints as it has dimensions, and makes arrays.
    NewArrays,
    CheckCast,
    Call(Calling),
    /// Takes so many words, and returns them.
    Return(u8),
    Throw,
    /// The load, store or increment behind it has a local of two bytes.
    Wide,
    /// Subroutines, which no class file from version 51 on has.
    Unsupported,
}
