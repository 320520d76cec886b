//! What each instruction of the JVM does to a frame: one table, a row for each opcode.
//! Nothing above this table knows an opcode.
#![tactic(auto)]

ghost use Rattle.std.specs.Prelude.{◌≡◌};
ghost use Rattle.jcf_effects.specs.Table.{row_of};
ghost use Rattle.jcf_effects.specs.Words as rows;

mod effect;
mod operands;
mod table;

use crate::table::TABLE;
pub use effect::{Calling, Comparison, Effect, Local, Move};
pub use operands::Operands;

/// What stands behind an opcode in the code, and what it does.
#[derive(Clone, Copy)]
pub struct Row {
    pub operands: Operands,
    pub effect: Effect,
}

/// The row of an opcode (JVMS chapter 6), or none where the number is that of no opcode.
pub fn row_of(opcode: u8) -> Option<Row>
    ensures { result ≡ row_of opcode }
{
    let number = opcode as usize;
    if number < TABLE.len() {
        let (operands, effect) = TABLE[number];
        Some(Row { operands, effect })
    } else {
        None
    }
}

/// How many bytes stand behind an opcode; none where that hangs on further bytes, as of switches and `wide`.
pub fn fixed_bytes(operands: Operands) -> Option<u8>
    ensures { result ≡ rows.fixed_bytes operands }
{
    match operands {
        Operands::Nothing => Some(0),
        Operands::Byte | Operands::Local | Operands::NearConstant(_) => Some(1),
        Operands::Short | Operands::Increment | Operands::Jump | Operands::Constant(_) => Some(2),
        Operands::Dimensions => Some(3),
        Operands::FarJump | Operands::Interface | Operands::Dynamic => Some(4),
        Operands::TableSwitch | Operands::LookupSwitch | Operands::Wide => None,
    }
}

/// How many words a move of operands takes and gives.
fn moved(step: Move) -> (u8, u8)
    ensures { result ≡ rows.moved step }
{
    match step {
        Move::Pop => (1, 0),
        Move::PopTwo => (2, 0),
        Move::Double => (1, 2),
        Move::DoubleBelowOne => (2, 3),
        Move::DoubleBelowTwo => (3, 4),
        Move::DoubleTwo => (2, 4),
        Move::DoubleTwoBelowOne => (3, 5),
        Move::DoubleTwoBelowTwo => (4, 6),
        Move::Swap => (2, 2),
    }
}

/// How many words an instruction takes and gives; none where that hangs on a descriptor or on further bytes.
pub fn words(effect: Effect) -> Option<(u8, u8)>
    ensures { result ≡ rows.words effect }
{
    match effect {
        Effect::Plain { takes, gives } | Effect::Other { takes, gives } => Some((takes, gives)),
        Effect::Null | Effect::Zero | Effect::One | Effect::New => Some((0, 1)),
        Effect::Load(count, _) => Some((0, count)),
        Effect::Store(count, _) | Effect::Return(count) => Some((count, 0)),
        Effect::Move(step) => Some(moved(step)),
        Effect::Increment | Effect::Go => Some((0, 0)),
        Effect::IntLoad => Some((2, 1)),
        Effect::ReferenceStore => Some((3, 0)),
        Effect::IfZero(_) | Effect::IfNull(_) | Effect::Switch | Effect::Throw => Some((1, 0)),
        Effect::IfBoth(_) | Effect::IfSame(_) => Some((2, 0)),
        Effect::CheckCast => Some((1, 1)),
        _ => None,
    }
}

/// Whether an instruction may throw: each but constants that are none of the pool, loads and stores of locals, moves of operands,
/// arithmetic other than division and remainder of ints and longs, conversions, comparisons, jumps and switches.
pub fn may_throw(effect: Effect) -> bool
    ensures { result ≡ rows.may_throw effect }
{
    !matches!(
        effect,
        Effect::Plain { .. }
            | Effect::Null
            | Effect::Zero
            | Effect::One
            | Effect::Load(_, _)
            | Effect::Store(_, _)
            | Effect::Move(_)
            | Effect::Increment
            | Effect::IfZero(_)
            | Effect::IfBoth(_)
            | Effect::IfSame(_)
            | Effect::IfNull(_)
            | Effect::Go
            | Effect::Switch
            | Effect::Wide
    )
}
