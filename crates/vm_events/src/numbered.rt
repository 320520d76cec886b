//! Events of protocol methods, whose names are numbers of texts that are kept already.

ghost use Rattle.vm_events.specs.inner.Keeping.{IsLeft, IsShort};

use crate::note::Short;

/// An event of a protocol method, whose name is the number of a text that is kept. Objects are
/// numbered from 0 in the order of their making.
#[derive(Clone, Copy)]
pub enum Numbered {
    /// A protocol method of an object begins.
    Enter { object: u32, method: u32 },
    /// It ends, and answers this int, truth value as 0 or 1, or position of an enum's constant.
    Leave { object: u32, answer: Option<i32> },
}

/// That a method is left.
pub(crate) fn left(object: u32, answer: Option<i32>) -> Short
    ensures { IsLeft result object answer }
{
    match answer {
        Some(answer) => Short::Answered { object, answer },
        None => Short::Left(object),
    }
}

/// A numbered event in few bytes.
pub(crate) fn short_of(event: Numbered) -> Short
    ensures { IsShort result event }
{
    match event {
        Numbered::Enter { object, method } => Short::Enter { object, method },
        Numbered::Leave { object, answer } => left(object, answer),
    }
}
