//! The law of generated files.
//! Their texts spell the trees that they were laid out from, places aside.

ghost use Rattle.std.specs.Prelude.{◌≡◌, ◌≤◌, ℕ, List, length, Contains};
ghost use Rattle.scr_tree.specs.Tree.{LocalTree};
ghost use Rattle.scr_tree.specs.Valid.{IsValid};
ghost use Rattle.stm_api.specs.Api.{ApiText, IsApi};
ghost use Rattle.jv_tree.specs.Source.{File};
ghost use Rattle.jv_back.specs.Bare.{bare_file};
ghost use Rattle.jv_read.specs.Spelling.{Spells};

/// The text of each file of a valid local protocol's API spells, as any file, the file's tree,
/// places aside, where the text is no longer than a file.
pub fn files_are_spelled()
    ensures { (local : LocalTree) (files : List ApiText) (f : ApiText) (file : ℕ) → IsValid local → IsApi local files → Contains files f →
        length f.text ≤ 1048576 → (back : File) × Spells file f.text back × (bare_file back ≡ bare_file f.tree) }
{}
