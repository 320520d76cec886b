//! Kinds of values by numbers. Frames of many locals stand at many places, so a kind takes four bytes.

ghost use Rattle.std.specs.Prelude.{◌≡◌, ◌==◌, not};
ghost use Rattle.cls_kinds.specs.Numbers.{joined, fits_in, is_plain};

/// A kind of values: ints, texts, null, anything, and from 4 on the objects of a class, by the number
/// of its name in a table whose first two names are those of `Object` and `PrintStream`.
#[derive(Clone, Copy, PartialEq, Eq)]
pub struct Kind(pub u32);

impl Kind {
    pub const INT: Kind = Kind(0);
    /// A text or null.
    pub const TEXT: Kind = Kind(1);

    pub const NULL: Kind = Kind(2);
    /// Any value, or none.
    pub const ANY: Kind = Kind(3);
    /// Any reference.
    pub const OBJECT: Kind = Kind(4);
    /// The print stream, or null.
    pub const STREAM: Kind = Kind(5);

    /// Whether no reference is of this kind alone.
    fn is_plain(self) -> bool
        ensures { result ≡ is_plain self.0 }
    {
        self.0 == 0 || self.0 == 3
    }

    /// Whether it is known to be an int.
    pub fn is_int(self) -> bool
        ensures { result ≡ (self.0 == 0) }
    {
        self.0 == 0
    }

    /// Whether it is known to be a reference.
    pub fn is_reference(self) -> bool
        ensures { result ≡ not (is_plain self.0) }
    {
        !self.is_plain()
    }

    /// The least kind that both fit.
    pub fn joined(self, other: Kind) -> Kind
        ensures { result ≡ joined self other }
    {
        if self.0 == other.0 {
            return self;
        }
        if self.is_plain() || other.is_plain() {
            return Kind::ANY;
        }
        if self.0 == 2 {
            return other;
        }
        if other.0 == 2 {
            return self;
        }
        Kind::OBJECT
    }

    /// Whether each value of this kind is one of another.
    pub fn fits(self, other: Kind) -> bool
        ensures { result ≡ fits_in self other }
    {
        if self.0 == other.0 || other.0 == 3 {
            return true;
        }
        if self.is_plain() || other.is_plain() {
            return false;
        }
        self.0 == 2 || other.0 == 4
    }
}
