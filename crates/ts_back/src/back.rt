//! The law of printing and reading typestates.
//! A typestate has no places, so what is read is the very same one.

ghost use Rattle.std.specs.Prelude.{ℕ, List, ◌≤◌, length};
ghost use Rattle.ts_tree.specs.Typestate.{Typestate};
ghost use Rattle.ts_read.specs.Layout.{layout};
ghost use Rattle.ts_read.specs.Outcome.{Outcome, Read};

/// Reading the text of a typestate that some file is read as, in any file, gives the same
/// typestate, where the text is no longer than a file. Such a typestate has at most 1,000 states.
pub fn printed_reads_back()
    ensures { (file source : ℕ) (bytes : List ℕ) (t : Typestate) → Outcome source bytes (Read t) → length (layout t) ≤ 1048576 →
        Outcome file (layout t) (Read t) }
{}
