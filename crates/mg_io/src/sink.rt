//! What takes bytes, piece by piece.

ghost use Rattle.std.specs.Prelude.{◌≡◌, ℕ, List, [], Option, IsOk};
ghost use Rattle.mg_io.specs.Outside.{Puts, Counts};

use crate::IoFault;

/// What takes bytes, piece by piece.
pub trait Sink {
    /// The bytes so far, where the sink tells them.
    ghost bytes: { Self → Option (List ℕ) };

    /// How many calls failed: a count that never falls.
    ghost faults: { Self → ℕ };

    /// Appends a piece. `Failed` comes only where the count of faults rose, and then a front of
    /// the piece was appended; after `Memory` nothing was. An empty piece is Ok, and no call.
    fn put(&mut self, piece: &[u8]) -> Result<(), IoFault>
        ensures bytes { Puts piece.now result (bytes self.old) (bytes self.new) }
        ensures faults { Counts result (faults self.old) (faults self.new) }
        ensures empty { piece.now ≡ [] → IsOk result × (self.new ≡ self.old) };
}
