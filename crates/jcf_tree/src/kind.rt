//! Kinds of constants: which constants a place of a class file may name.

ghost use Rattle.std.specs.Prelude.{◌≡◌};
ghost use Rattle.jcf_tree.specs.Kinds.{is_of};

/// What a place needs of the constant that it names (JVMS 4.4).
#[derive(Clone, Copy)]
pub enum Kind {
    /// A text.
    Text,
    Integer,
    Float,
    Long,
    Double,
    Class,
    NameAndType,
    Field,
    Method,
    InterfaceMethod,
    /// A method of a class or of an interface.
    AnyMethod,
    /// What `invokedynamic` calls.
    DynamicCall,
    /// What `ldc` pushes, in one word.
    Loadable,
    /// What `ldc2_w` pushes, in two words.
    WideLoadable,
    /// None at all.
    Nothing,
}

/// Whether a constant with this tag is of the kind.
pub fn is_of(kind: Kind, tag: u8) -> bool
    ensures { result ≡ is_of kind tag }
{
    match kind {
        Kind::Text => tag == 1,
        Kind::Integer => tag == 3,
        Kind::Float => tag == 4,
        Kind::Long => tag == 5,
        Kind::Double => tag == 6,
        Kind::Class => tag == 7,
        Kind::NameAndType => tag == 12,
        Kind::Field => tag == 9,
        Kind::Method => tag == 10,
        Kind::InterfaceMethod => tag == 11,
        Kind::AnyMethod => tag == 10 || tag == 11,
        Kind::DynamicCall => tag == 18,
        Kind::Loadable => matches!(tag, 3 | 4 | 7 | 8 | 15 | 16 | 17),
        Kind::WideLoadable => matches!(tag, 5 | 6 | 17),
        Kind::Nothing => false,
    }
}
