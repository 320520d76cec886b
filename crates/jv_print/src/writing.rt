//! Runs of text, and how lines begin.

ghost use Rattle.std.specs.Prelude.{◌≡◌, ◌++◌, OnOk, string_bytes};
ghost use Rattle.std.specs.List.{flat_map};
ghost use Rattle.jv_print.specs.Layout.{indent};

use mg_text::Memory;

/// Writes texts, one after another.
pub fn put(out: &mut String, parts: &[&str]) -> Result<(), Memory>
    ensures { OnOk result (string_bytes out.new ≡ string_bytes out.old ++ flat_map (λ p. p.now) parts.now) }
{
    for part in parts {
        out.push_str(part)?;
    }
    Ok(())
}

/// Writes what a line at this level begins with.
pub fn put_indent(out: &mut String, level: u32) -> Result<(), Memory>
    ensures { OnOk result (string_bytes out.new ≡ string_bytes out.old ++ indent level) }
{
    for _ in 0..level {
        out.push_str("    ")?;
    }
    Ok(())
}
