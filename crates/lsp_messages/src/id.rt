//! The ids of requests.

ghost use Rattle.std.specs.Prelude.{◌≡◌, IfOk};

use mg_text::{Memory, Text};

/// By what a client tells its requests apart.
#[derive(Drop)]
pub enum Id {
    /// A whole number.
    Number(i64),
    /// A text.
    Name(Text),
}

impl Id {
    /// An equal id.
    ///
    /// # Errors
    /// `Memory` only.
    pub fn copy(&self) -> Result<Id, Memory>
        ensures { IfOk result (λ id. id ≡ self.now) }
    {
        match self {
            Id::Number(number) => Ok(Id::Number(*number)),
            Id::Name(text) => Ok(Id::Name(text.copy()?)),
        }
    }
}
