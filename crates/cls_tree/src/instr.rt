//! Instructions: opcodes and what stands behind them (JVMS chapter 6).
//! One table of opcodes says which form of arguments each has.

ghost use Rattle.std.specs.Prelude.{◌≡◌};
ghost use Rattle.cls_tree.specs.Opcodes.{form_of};

use crate::opcodes::*;
use mg_text::List;

/// The arguments of an instruction.
#[derive(Debug, Drop)]
pub enum Args {
    None,
    /// A number that is pushed.
    Number(i16),
    /// A local.
    Local(u8),
    /// The number of a constant in the pool.
    Pool(u16),
    /// A jump, by its distance in bytes from the instruction's own opcode.
    Jump(i16),
    /// A local, and what is added to it.
    Add(u8, i8),
    /// Jumps by an int: from `low` on one for each number, and one for all others.
    /// Each is a distance in bytes from the instruction's own opcode.
    Table {
        default: i32,
        low: i32,
        offsets: List<i32>,
    },
}

/// An instruction: its opcode and its arguments.
#[derive(Debug, Drop)]
pub struct Instr {
    pub op: u8,
    pub args: Args,
}

/// What stands behind an opcode.
#[derive(Clone, Copy, PartialEq, Eq)]
pub enum Form {
    Nothing,
    /// A number of one byte.
    Byte,
    /// A number of two bytes.
    Short,
    /// A local, in one byte.
    Local,
    /// A local and a number to be added, a byte each.
    Increment,
    /// The distance of a jump, in two bytes.
    Jump,
    /// Zero bytes up to a multiple of four from the code's start, and then numbers of four bytes each:
    /// the distance for all other numbers, the lowest number, the highest, and a distance for each from the lowest to the highest.
    Table,
    /// The number of an int or a text of the pool, in one byte.
    NearConstant,
    /// The number of an int or a text of the pool, in two bytes.
    Constant,
    /// The number of a field of the pool, in two bytes.
    Field,
    /// The number of a method of the pool, in two bytes.
    Method,
    /// The number of a class of the pool, in two bytes.
    Class,
}

/// What stands behind an opcode; `None` where the number is none of the opcodes of this machine.
#[tactic(auto, unfolding(crate::specs::Opcodes::form_of))]
pub fn form_of(op: u8) -> Option<Form>
    ensures { result ≡ form_of op }
{
    let form = match op {
        ACONST_NULL..=ICONST_5
        | ILOAD_0..=ILOAD_3
        | ALOAD_0..=ALOAD_3
        | ISTORE_0..=ISTORE_3
        | ASTORE_0..=ASTORE_3 => Form::Nothing,
        POP | DUP | SWAP | IADD | ISUB | IMUL | IDIV | IREM | INEG => Form::Nothing,
        IRETURN | ARETURN | RETURN => Form::Nothing,
        BIPUSH => Form::Byte,
        SIPUSH => Form::Short,
        LDC => Form::NearConstant,
        LDC_W => Form::Constant,
        ILOAD | ALOAD | ISTORE | ASTORE => Form::Local,
        IINC => Form::Increment,
        IFEQ..=IF_ICMPLE | GOTO | IFNULL | IFNONNULL => Form::Jump,
        TABLESWITCH => Form::Table,
        GETSTATIC | GETFIELD | PUTFIELD => Form::Field,
        INVOKEVIRTUAL..=INVOKESTATIC => Form::Method,
        NEW => Form::Class,
        _ => return None,
    };
    Some(form)
}
