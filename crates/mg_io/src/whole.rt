//! Writes all bytes of a piece.

ghost use Rattle.std.specs.Prelude.{◌≡◌, ℕ, IsOk, IsErr, IsErrOf, take};
ghost use Rattle.std.specs.Io.KnownBytes.{Appends};
ghost use Rattle.mg_io.specs.Outside.{Rose};
ghost use Rattle.mg_io.specs.Fakes.{counted_if_failed};

use crate::IoFault;
use crate::refusal::Refusals;
use std::io::Write;

/// Writes all bytes and flushes. `Failed` exactly where the writer refuses that: a write that
/// takes nothing of bytes that are left is refused too. Then a front of them was written.
pub fn write_whole<W: Write>(
    writer: &mut W,
    refusals: &mut Refusals,
    bytes: &[u8],
) -> Result<(), IoFault>
    ensures whole { IsOk result → Appends (W.contents writer.old) (W.contents writer.new) bytes.now }
    ensures front { (k : ℕ) × Appends (W.contents writer.old) (W.contents writer.new) (take k bytes.now) }
    ensures counted { refusals.new ≡ counted_if_failed result refusals.old }
    ensures risen { IsErr result → Rose refusals.old refusals.new }
    ensures memory { IsErrOf result IoFault.Memory → ⊥ }
{
    let mut rest = bytes;
    while !rest.is_empty() {
        let answer = writer.write(rest);
        let taken = refusals.noted_write(answer)?;
        rest = &rest[taken..];
    }
    refusals.noted(writer.flush())
}
