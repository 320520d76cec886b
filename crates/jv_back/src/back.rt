//! The law of printing and reading Java files.
//! What is read differs from what was printed in its places at most.

ghost use Rattle.std.specs.Prelude.{◌≡◌, ℕ, List, ◌≤◌, length};
ghost use Rattle.jv_tree.specs.Source.{File};
ghost use Rattle.jv_print.specs.Layout.{layout};
ghost use Rattle.jv_back.specs.Bare.{bare_file};
ghost use Rattle.jv_read.specs.Spelling.{Spells};

/// The text of a file that some bytes spell, in any file, spells the same file, places aside,
/// where the text is no longer than a file.
pub fn printed_reads_back()
    ensures { (file source : ℕ) (bytes : List ℕ) (tree : File) → Spells source bytes tree → length (layout tree) ≤ 1048576 →
        (back : File) × Spells file (layout tree) back × (bare_file back ≡ bare_file tree) }
{}
