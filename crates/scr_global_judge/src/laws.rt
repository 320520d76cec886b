//! Laws of the first fault.

ghost use Rattle.std.specs.Prelude.{◌≡◌, Option, None};
ghost use Rattle.mg_read.specs.Culprit.{Culprit};
ghost use Rattle.scr_global_tree.specs.Faults.{IsFault};
ghost use Rattle.scr_global_tree.specs.Valid.{IsWritten, IsValid};
ghost use Rattle.scr_global_tree.specs.Written.{WrittenTree, global_of};
ghost use Rattle.scr_tree.specs.declared.condition.Condition.{Condition};

/// A file has one first fault, or has none.
pub fn one_fault()
    ensures { (w : WrittenTree) (r s : Option (Condition × Culprit)) → IsFault w r → IsFault w s → r ≡ s }
{}

/// A file without a fault, of names that can be written, is a valid global protocol.
pub fn faultless_is_valid()
    ensures { (w : WrittenTree) → IsFault w None → IsWritten (global_of w) → IsValid (global_of w) }
{}
