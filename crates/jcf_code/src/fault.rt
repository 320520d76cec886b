//! Why no instruction stands at a place.

/// Why no instruction stands at a place.
#[derive(Clone, Copy, Debug)]
pub enum CodeFault {
    /// An instruction of subroutines: `jsr`, `jsr_w` or `ret`.
    Unsupported,
    /// A byte that is no opcode.
    UnknownOpcode,
    /// An instruction that ends behind the code, a `tableswitch` whose highest int is below its lowest, or a `wide` before an instruction
    /// that has none.
    BadOperand,
}
