//! A law of the labels of loops.

ghost use Rattle.std.specs.Prelude.{◌≡◌, List, false};
ghost use Rattle.mg_text.specs.Call.{Name};
ghost use Rattle.stm_client.specs.Client.{Loop, is_taken, label_for};

/// The label of a loop is free, whichever loops are around: it is no word that Java reserves, and none
/// of them has it.
pub fn labels_are_free()
    ensures { (loops : List Loop) (name : Name) → is_taken loops (label_for loops name) ≡ false }
{}
