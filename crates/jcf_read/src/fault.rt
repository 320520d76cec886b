//! What is wrong with bytes that are no class file, and where.

use mg_text::Memory;

/// What is wrong.
#[derive(Clone, Copy, Debug)]
pub enum FaultKind {
    /// The first four bytes aren't those of a class file.
    BadMagic,
    /// The version is below 45.0 or above 69.0.
    Version,
    /// The file ends in the field that begins there.
    Short,
    /// Bytes stand behind the last attribute.
    TrailingBytes,
    /// The tag of a constant is none.
    BadTag,
    /// A number that names no constant of the kind that its place needs; a pool's count that is 0, or that ends within a long or a double.
    BadIndex,
    /// The bytes of a text aren't modified UTF-8.
    BadText,
    /// The content of an attribute ends in the field that begins there, or before the attribute does; a method has a second code; or a value
    /// of an annotation has a tag that is none, or stands in others too deep.
    BadAttribute,
    /// An instruction of subroutines: `jsr`, `jsr_w` or `ret`.
    Unsupported,
    /// A byte that is no opcode, where an instruction begins.
    UnknownOpcode,
    /// An instruction that ends behind the code, a `tableswitch` whose highest int is below its lowest, or a `wide` before an instruction
    /// that has none.
    BadOperand,
    /// A jump, a handler or a bound of what it covers that leads neither to the beginning of an instruction nor to the code's end.
    BadJump,
}

/// What is wrong, and where: counted in bytes from the start of the file.
#[derive(Clone, Copy, Debug)]
pub struct Fault {
    pub kind: FaultKind,
    pub offset: usize,
}

/// Why a class file isn't read.
#[derive(Clone, Copy, Debug)]
pub enum ReadError {
    /// The first thing that is wrong.
    Wrong(Fault),
    /// Want of memory.
    Memory,
}

impl From<Memory> for ReadError {
    ghost use Rattle.std.specs.Prelude.{◌≡◌};
    ghost use Rattle.jcf_read.specs.declared.fault.ReadError.TheVariants as E;

    ghost from_gives = { λ _ e. e ≡ E.Memory };

    fn from(_memory: Memory) -> ReadError {
        ReadError::Memory
    }
}
