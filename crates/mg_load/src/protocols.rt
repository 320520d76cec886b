//! The protocol files: a choice of so many branches, each of which sends a number and is answered.

ghost use Rattle.std.specs.Prelude.{◌≡◌, ◌++◌, OnOk, IfOk, string_bytes};
ghost use Rattle.mg_load.specs.Workload.{branch, protocol};

use mg_text::{Bytes, Memory};
use std::alloc::Global;

/// The protocol at a role, with so many branches. A message of a branch goes there, and its answer
/// comes back.
pub(crate) fn protocol(
    alloc: Global,
    me: &str,
    there: &str,
    back: &str,
    n: u32,
) -> Result<Bytes, Memory>
    ensures { IfOk result (λ b. b ≡ protocol me.now there.now back.now n) }
{
    let mut out = String::new(alloc);
    write!(
        out,
        "local protocol Load at {me}(role A, role B) {{\n    rec X {{\n        choice at A {{\n"
    )?;
    for number in 0..n {
        push_branch(&mut out, there, back, number)?;
    }
    write!(out, "            stop() {there};\n        }}\n    }}\n}}\n")?;
    Bytes::of(alloc, out.as_bytes())
}

// Appends the branch of a number, and the words before the next.
fn push_branch(out: &mut String, there: &str, back: &str, number: u32) -> Result<(), Memory>
    ensures { OnOk result (string_bytes out.new ≡ string_bytes out.old ++ branch there.now back.now number) }
{
    write!(
        out,
        "            m{number}(int) {there};
            r{number}(int) {back};
            continue X;
        }} or {{
"
    )?;
    Ok(())
}
