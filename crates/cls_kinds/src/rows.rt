//! Rows of locals: the least that two rows fit, and whether one is raised.

ghost use Rattle.std.specs.Prelude.{◌≡◌, length, IfOk};
ghost use Rattle.cls_kinds.specs.Numbers.{joined_all, is_raised};

use crate::kind::Kind;
use mg_text::Memory;
use std::alloc::Global;

/// Whether a row isn't the least that it and another fit.
pub fn raises_row(old: &[Kind], new: &[Kind]) -> bool
    requires { length old.now ≡ length new.now }
    ensures { result ≡ is_raised old.now new.now }
{
    for (at, kind) in old.iter().enumerate() {
        if kind.joined(new[at]).0 != kind.0 {
            return true;
        }
    }
    false
}

/// The least row that two fit.
///
/// # Errors
/// `Memory` only.
pub fn join_rows(alloc: Global, old: &[Kind], new: &[Kind]) -> Result<Vec<Kind>, Memory>
    requires { length old.now ≡ length new.now }
    ensures { IfOk result (λ v. v.items ≡ joined_all old.now new.now) }
{
    let mut row = Vec::with_capacity(alloc, old.len())?;
    for (at, kind) in old.iter().enumerate() {
        row.push(kind.joined(new[at]))?;
    }
    Ok(row)
}
