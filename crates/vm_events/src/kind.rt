//! Kinds of events.

ghost use Rattle.vm_events.specs.inner.Keeping.{IsKindOf};

use crate::note::Short;

/// The kind of an event: which of these it is, and nothing more.
#[derive(Clone, Copy)]
pub enum Kind {
    /// A text is printed.
    Print,
    /// An object is made.
    Made,
    /// A protocol method of an object begins.
    Enter,
    /// It ends.
    Leave,
    /// A message is sent to a peer.
    Send,
    /// The label of the next message from a peer is looked at.
    Look,
    /// The next message from a peer is taken.
    Take,
}

/// The kind of an event that is kept in few bytes. No text is looked up.
pub(crate) fn kind_of(event: Short) -> Kind
    ensures { IsKindOf result event }
{
    match event {
        Short::Print(_) => Kind::Print,
        Short::Made { .. } => Kind::Made,
        Short::Enter { .. } => Kind::Enter,
        Short::Left(_) => Kind::Leave,
        Short::Answered { .. } => Kind::Leave,
        Short::Send(_) => Kind::Send,
        Short::Look { .. } => Kind::Look,
        Short::Take(_) => Kind::Take,
    }
}
