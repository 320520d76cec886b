//! Laws of the first fault.

ghost use Rattle.std.specs.Prelude.{◌≡◌, Option, None};
ghost use Rattle.mg_read.specs.Culprit.{Culprit};
ghost use Rattle.scr_tree.specs.Faults.{IsFault};
ghost use Rattle.scr_tree.specs.Valid.{IsWritten, IsValid};
ghost use Rattle.scr_tree.specs.Written.{WrittenTree, local_of};
ghost use Rattle.scr_tree.specs.declared.condition.Condition.{Condition};

/// A file has one first fault, or has none.
pub fn one_fault()
    ensures { (w : WrittenTree) (r s : Option (Condition × Culprit)) → IsFault w r → IsFault w s → r ≡ s }
{}

/// A file without a fault, of names that can be written, is a valid local protocol.
pub fn faultless_is_valid()
    ensures { (w : WrittenTree) → IsFault w None → IsWritten (local_of w) → IsValid (local_of w) }
{}
