//! Names by their numbers, and numbers of things.
//! Contracts see the names that have numbers by then.

ghost use Rattle.std.specs.Prelude.{◌≡◌, ◌+◌, Some, IfOk, OnOk};
ghost use Rattle.mg_text.specs.Interned.{with_text};
ghost use Rattle.jv_resolve_law.specs.Tables.{interned};
ghost use Rattle.jv_resolve.specs.inner.Interning.{with_number};

use mg_text::{Memory, Name, Names};

/// The number of a name, which is added where it is new. Past 2^32 of them the answer is `Memory`.
pub(crate) fn add_name(names: &mut Names, name: &str) -> Result<Name, Memory>
    ensures names { OnOk result (names.new ≡ with_text names.old name.now) }
    ensures number { IfOk result (λ n. interned names.old name.now ≡ Some (with_number n.0 names.new)) }
{
    if names.len() >= MOST_NAMES {
        return Err(Memory);
    }
    names.add(name)
}

// As many names have numbers.
const MOST_NAMES: usize = 0x1_0000_0000;

/// A number of things, where it fits.
pub(crate) fn count(len: usize) -> Result<u32, Memory>
    ensures { IfOk result (λ n. n ≡ len) }
{
    match u32::try_from(len) {
        Ok(number) => Ok(number),
        Err(_) => Err(Memory),
    }
}

/// A number behind so many others.
pub(crate) fn next(number: u32, len: usize) -> Result<u32, Memory>
    ensures { IfOk result (λ n. n ≡ number + len) }
{
    let len = count(len)?;
    match number.checked_add(len) {
        Some(sum) => Ok(sum),
        None => Err(Memory),
    }
}
