//! The law of printing and reading.

ghost use Rattle.std.specs.Prelude.{ℕ, ◌≤◌, length, Contains};
ghost use Rattle.scr_tree.specs.Tree.{LocalTree};
ghost use Rattle.scr_tree.specs.Valid.{IsWritten, IsValid};
ghost use Rattle.scr_tree.specs.Written.{WrittenTree, local_of};
ghost use Rattle.scr_read.specs.Outcome.{Outcome, Protocol};
ghost use Rattle.scr_read.specs.Spelling.{Spells};
ghost use Rattle.scr_read.specs.Layout.{layout};
ghost use Rattle.scr_back.specs.Same.{IsSame};

/// The text of a local protocol whose names can be written, and which is among its own roles,
/// spells the same protocol in any file, places aside, where the text is no longer than a file.
pub fn printed_spells()
    ensures { (file : ℕ) (local : LocalTree) → IsWritten local → Contains local.roles local.me → length (layout local) ≤ 1048576 →
        (w : WrittenTree) × Spells file (layout local) w × IsSame local (local_of w) }
{}

/// Reading the text of a valid local protocol, in any file, gives the same protocol, places aside,
/// where the text is no longer than a file.
pub fn printed_reads_back()
    ensures { (file : ℕ) (local : LocalTree) → IsValid local → length (layout local) ≤ 1048576 →
        (t : LocalTree) × Outcome file (layout local) (Protocol t) × IsSame local t }
{}
