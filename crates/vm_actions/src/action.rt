//! What instructions do: opcodes (JVMS chapter 6) with their arguments, as actions.
//! One table, a row for each opcode.

ghost use Rattle.std.specs.Prelude.{◌≡◌, option_map};
ghost use Rattle.vm_model.specs.Actions as model;
ghost use Rattle.vm_model.specs.View.{args_of};
ghost use Rattle.vm_actions.specs.Table.{action_of};

use cls_tree::opcodes::*;
use mg_text::Text;
use std::rc::Rc;
use vm_model::{Built, LinkedArgs, LinkedInstr};

/// Ints, and everything else.
#[derive(Clone, Copy)]
pub enum Sort {
    Number,
    Reference,
}

/// What two ints are computed to.
#[derive(Clone, Copy)]
pub enum Operation {
    Plus,
    Minus,
    Times,
    Divide,
    Remain,
}

/// How two ints compare.
#[derive(Clone, Copy)]
pub enum Comparison {
    Equal,
    Unequal,
    Less,
    AtLeast,
    Greater,
    AtMost,
}

/// How a method is called: on an object that tells of it, on an object that doesn't, or on none.
#[derive(Clone, Copy)]
pub enum Calling {
    Telling,
    Silent,
    Static,
}

/// A value that stands in the code.
#[derive(Clone, Copy)]
pub enum Constant<'a> {
    Int(i32),
    Text(&'a Rc<Text>),
    Null,
}

/// What an instruction does that stays in its frame.
#[derive(Clone, Copy)]
pub enum Plain<'a> {
    Push(Constant<'a>),
    Load(Sort, u8),
    Store(Sort, u8),
    Pop,
    Double,
    Swap,
    Compute(Operation),
    Negate,
    Increase(u8, &'a i8),
    /// A jump where the int on top compares so with 0.
    IfZero(Comparison, u32),
    /// A jump where the two ints on top compare so.
    IfBoth(Comparison, u32),
    /// A jump where the reference on top is null, or where it isn't.
    IfNull(bool, u32),
    Go(u32),
    /// A jump by the int on top: the targets from `low` on, and that of every other int.
    Switch {
        default: u32,
        low: &'a i32,
        targets: &'a [u32],
    },
}

/// What an instruction does.
#[derive(Clone, Copy)]
pub enum Action<'a> {
    Plain(Plain<'a>),
    /// A return, of a value of this sort or of none.
    Return(Option<Sort>),
    Read {
        class: u32,
        field: u32,
    },
    Write {
        class: u32,
        field: u32,
    },
    Make(u32),
    Call {
        calling: Calling,
        class: u32,
        method: u32,
    },
    Use(Built),
}

/// What an opcode without arguments does.
#[inline(always)]
fn plain_action<'a>(op: u8) -> Option<Action<'a>>
    ensures { option_map action_of result ≡ model.plain_action op }
{
    let action = match op {
        ACONST_NULL => Action::Plain(Plain::Push(Constant::Null)),
        ICONST_M1 => Action::Plain(Plain::Push(Constant::Int(-1))),
        ICONST_0..=ICONST_5 => Action::Plain(Plain::Push(Constant::Int(i32::from(op - ICONST_0)))),
        ILOAD_0..=ILOAD_3 => Action::Plain(Plain::Load(Sort::Number, op - ILOAD_0)),
        ALOAD_0..=ALOAD_3 => Action::Plain(Plain::Load(Sort::Reference, op - ALOAD_0)),
        ISTORE_0..=ISTORE_3 => Action::Plain(Plain::Store(Sort::Number, op - ISTORE_0)),
        ASTORE_0..=ASTORE_3 => Action::Plain(Plain::Store(Sort::Reference, op - ASTORE_0)),
        POP => Action::Plain(Plain::Pop),
        DUP => Action::Plain(Plain::Double),
        SWAP => Action::Plain(Plain::Swap),
        IADD => Action::Plain(Plain::Compute(Operation::Plus)),
        ISUB => Action::Plain(Plain::Compute(Operation::Minus)),
        IMUL => Action::Plain(Plain::Compute(Operation::Times)),
        IDIV => Action::Plain(Plain::Compute(Operation::Divide)),
        IREM => Action::Plain(Plain::Compute(Operation::Remain)),
        INEG => Action::Plain(Plain::Negate),
        IRETURN => Action::Return(Some(Sort::Number)),
        ARETURN => Action::Return(Some(Sort::Reference)),
        RETURN => Action::Return(None),
        _ => return None,
    };
    Some(action)
}

/// What an opcode with an int does.
#[inline(always)]
fn int_action<'a>(op: u8, value: i32) -> Option<Action<'a>>
    ensures { option_map action_of result ≡ model.int_action op value }
{
    match op {
        BIPUSH | SIPUSH | LDC | LDC_W => Some(Action::Plain(Plain::Push(Constant::Int(value)))),
        _ => None,
    }
}

/// What an opcode with a text does.
#[inline(always)]
fn text_action<'a>(op: u8, text: &'a Rc<Text>) -> Option<Action<'a>>
    ensures { option_map action_of result ≡ model.text_action op text.now.value }
{
    match op {
        LDC | LDC_W => Some(Action::Plain(Plain::Push(Constant::Text(text)))),
        _ => None,
    }
}

/// What an opcode with a local does.
#[inline(always)]
fn local_action<'a>(op: u8, local: u8) -> Option<Action<'a>>
    ensures { option_map action_of result ≡ model.local_action op local }
{
    match op {
        ILOAD => Some(Action::Plain(Plain::Load(Sort::Number, local))),
        ALOAD => Some(Action::Plain(Plain::Load(Sort::Reference, local))),
        ISTORE => Some(Action::Plain(Plain::Store(Sort::Number, local))),
        ASTORE => Some(Action::Plain(Plain::Store(Sort::Reference, local))),
        _ => None,
    }
}

/// What an opcode with a place does.
#[inline(always)]
fn jump_action<'a>(op: u8, target: u32) -> Option<Action<'a>>
    ensures { option_map action_of result ≡ model.jump_action op target }
{
    let action = match op {
        IFEQ => Action::Plain(Plain::IfZero(Comparison::Equal, target)),
        IFNE => Action::Plain(Plain::IfZero(Comparison::Unequal, target)),
        IFLT => Action::Plain(Plain::IfZero(Comparison::Less, target)),
        IFGE => Action::Plain(Plain::IfZero(Comparison::AtLeast, target)),
        IFGT => Action::Plain(Plain::IfZero(Comparison::Greater, target)),
        IFLE => Action::Plain(Plain::IfZero(Comparison::AtMost, target)),
        IF_ICMPEQ => Action::Plain(Plain::IfBoth(Comparison::Equal, target)),
        IF_ICMPNE => Action::Plain(Plain::IfBoth(Comparison::Unequal, target)),
        IF_ICMPLT => Action::Plain(Plain::IfBoth(Comparison::Less, target)),
        IF_ICMPGE => Action::Plain(Plain::IfBoth(Comparison::AtLeast, target)),
        IF_ICMPGT => Action::Plain(Plain::IfBoth(Comparison::Greater, target)),
        IF_ICMPLE => Action::Plain(Plain::IfBoth(Comparison::AtMost, target)),
        GOTO => Action::Plain(Plain::Go(target)),
        IFNULL => Action::Plain(Plain::IfNull(true, target)),
        IFNONNULL => Action::Plain(Plain::IfNull(false, target)),
        _ => return None,
    };
    Some(action)
}

/// What an opcode with a field does.
#[inline(always)]
fn field_action<'a>(op: u8, class: u32, field: u32) -> Option<Action<'a>>
    ensures { option_map action_of result ≡ model.field_action op class field }
{
    match op {
        GETFIELD => Some(Action::Read { class, field }),
        PUTFIELD => Some(Action::Write { class, field }),
        _ => None,
    }
}

/// What an opcode with a method does. A protocol method is called by `invokevirtual`, one that no
/// protocol names by `invokespecial`.
#[inline(always)]
fn method_action<'a>(op: u8, class: u32, method: u32) -> Option<Action<'a>>
    ensures { option_map action_of result ≡ model.method_action op class method }
{
    let calling = match op {
        INVOKEVIRTUAL => Calling::Telling,
        INVOKESPECIAL => Calling::Silent,
        INVOKESTATIC => Calling::Static,
        _ => return None,
    };
    Some(Action::Call {
        calling,
        class,
        method,
    })
}

/// What an instruction does. An opcode with arguments of another form does nothing.
#[inline(always)]
pub fn action_of(instr: &LinkedInstr) -> Option<Action<'_>>
    ensures { option_map action_of result ≡ model.action instr.now.op (args_of instr.now.args) }
{
    let op = instr.op;
    match &instr.args {
        LinkedArgs::None => plain_action(op),
        LinkedArgs::Int(value) => int_action(op, *value),
        LinkedArgs::Text(text) => text_action(op, text),
        LinkedArgs::Local(local) => local_action(op, *local),
        LinkedArgs::Add(local, by) if op == IINC => Some(Action::Plain(Plain::Increase(
            *local, by,
        ))),
        LinkedArgs::Add(_, _) => None,
        LinkedArgs::Jump(target) => jump_action(op, *target),
        LinkedArgs::Table {
            default,
            low,
            targets,
        } if op == TABLESWITCH => Some(Action::Plain(Plain::Switch {
            default: *default,
            low,
            targets: targets.as_slice(),
        })),
        LinkedArgs::Table { .. } => None,
        LinkedArgs::Class(class) if op == NEW => Some(Action::Make(*class)),
        LinkedArgs::Class(_) => None,
        LinkedArgs::Field { class, field } => field_action(op, *class, *field),
        LinkedArgs::Method { class, method } => method_action(op, *class, *method),
        LinkedArgs::Built(built) if op == built.member().op => Some(Action::Use(*built)),
        LinkedArgs::Built(_) => None,
    }
}
