//! How serving ends.

ghost use Rattle.std.specs.Prelude.{◌≡◌};
ghost use Rattle.lsp_serving.specs.Endings.{number_of};

/// How serving ends.
#[derive(Clone, Copy, PartialEq, Eq)]
pub enum Ending {
    /// By `exit`.
    Exit {
        /// Whether `shutdown` came before.
        clean: bool,
    },
    /// The input ends, and no `exit` came.
    Input,
    /// What comes is no frame.
    NoFrame,
    /// The input can't be read.
    Unread,
    /// A message can't be written.
    Unwritten,
    /// Want of memory.
    Memory,
}

impl Ending {
    /// The number with which a program tells it.
    pub fn number(self) -> u8
        ensures { result ≡ number_of self }
    {
        match self {
            Ending::Exit { clean: true } => 0,
            Ending::Exit { clean: false } => 1,
            Ending::Input => 1,
            Ending::NoFrame => 2,
            Ending::Unread => 3,
            Ending::Unwritten => 4,
            Ending::Memory => 5,
        }
    }
}
