//! What the meanings of sources and of resolved programs share: values, objects, messages, and how the parts of a program combine.
//! There is no running code here; the one function carries a law.
#![tactic(auto)]

ghost use Rattle.jv_values.specs.Laws.{LibraryLaws};

/// Two laws of the library. Operators, objects and messages go on through the relation "the same, or a spent budget and more
/// events". And in every language whose statements go further where what is below their budget does, a greater budget changes
/// nothing of what has ended, and only adds events to what has not.
pub fn library_laws()
    ensures { LibraryLaws }
{}
