//! What the words of files fix of the cores that stand for them.
//! There is no running code here; the function carries a law.
#![tactic(auto)]

ghost use Rattle.gen_held.specs.Laws.{WrittenCoresAreHeld};

/// Class files can hold the names, texts and numbers of a core whose program was read from files.
pub fn written_cores_are_held()
    ensures { WrittenCoresAreHeld }
{}
