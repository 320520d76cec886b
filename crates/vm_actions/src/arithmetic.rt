//! What ints are computed to, how they compare, and where a table leads.
//! Ints are 32-bit two's complement: results wrap, and quotients are cut toward zero (JVMS 6.5).

ghost use Rattle.std.specs.Prelude.{◌≡◌, neg_ℤ, ◌+ℤ◌};
ghost use Rattle.vm_model.specs.Arithmetic as model;
ghost use Rattle.vm_actions.specs.Table.{operation_of, comparison_of};

use crate::action::{Comparison, Operation};

/// What two ints are computed to; none where the divisor is zero.
#[inline(always)]
pub fn computed(operation: Operation, x: i32, y: i32) -> Option<i32>
    ensures { result ≡ model.computed (operation_of operation) x y }
{
    match operation {
        Operation::Plus => Some(x.wrapping_add(y)),
        Operation::Minus => Some(x.wrapping_sub(y)),
        Operation::Times => Some(x.wrapping_mul(y)),
        Operation::Divide => quotient(x, y),
        Operation::Remain => remainder(x, y),
    }
}

#[inline(always)]
fn quotient(x: i32, y: i32) -> Option<i32>
    ensures { result ≡ model.computed (operation_of Operation.Divide) x y }
{
    if y == 0 {
        return None;
    }
    Some(x.wrapping_div(y))
}

#[inline(always)]
fn remainder(x: i32, y: i32) -> Option<i32>
    ensures { result ≡ model.computed (operation_of Operation.Remain) x y }
{
    if y == 0 {
        return None;
    }
    Some(x.wrapping_rem(y))
}

/// Whether two ints compare so.
#[inline(always)]
pub fn compares(comparison: Comparison, x: i32, y: i32) -> bool
    ensures { result ≡ model.compares (comparison_of comparison) x y }
{
    match comparison {
        Comparison::Equal => x == y,
        Comparison::Unequal => x != y,
        Comparison::Less => x < y,
        Comparison::AtLeast => x >= y,
        Comparison::Greater => x > y,
        Comparison::AtMost => x <= y,
    }
}

/// The target at a place of a table.
#[inline(always)]
fn target_at(default: u32, targets: &[u32], place: i64) -> u32
    ensures { result ≡ model.target_at default targets.now place }
{
    if place < 0 {
        return default;
    }
    let place = place as usize;
    if place < targets.len() {
        targets[place]
    } else {
        default
    }
}

/// The target of an int in a table that begins at `low`.
#[inline(always)]
pub fn switched(default: u32, low: i32, targets: &[u32], x: i32) -> u32
    ensures { result ≡ model.switched default low targets.now x }
{
    target_at(default, targets, i64::from(x) - i64::from(low))
}

/// The sum of an int and a small one.
#[inline(always)]
pub fn added(x: i32, by: i8) -> i32
    ensures { result ≡ model.wrap (x +ℤ by) }
{
    x.wrapping_add(i32::from(by))
}

/// The int with the other sign.
#[inline(always)]
pub fn negated(x: i32) -> i32
    ensures { result ≡ model.wrap (neg_ℤ x) }
{
    x.wrapping_neg()
}
