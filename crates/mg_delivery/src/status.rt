//! How a run of the program ended, and the number of it.

ghost use Rattle.std.specs.Prelude.{◌≡◌};
ghost use Rattle.mg_delivery.specs.Numbers.{number_of};

/// How a run of the program ended. The five from `Zero` on come where a program was run: the first
/// that applies of `Bound`, `Broken`, `Zero`, `Mismatch`, `Waits` and `Done`.
#[derive(Clone, Copy, PartialEq, Eq)]
pub enum Status {
    /// The command was carried out; of `run`, the `main` of each role returned.
    Done,
    /// Something was refused; one line on standard error says which file, where and why, or that a
    /// class has no `main`. Of `conform` also: a call isn't offered, which standard output says.
    Refused,
    /// The words are no command.
    Words,
    /// A file of the words couldn't be read.
    ReadFault,
    /// A file couldn't be written, or a sink failed.
    WriteFault,
    /// Want of memory.
    Memory,
    /// A role's divisor was zero.
    Zero,
    /// The next message of a role wasn't the one that was taken or the program refused it, or no
    /// other role has the name that was spoken to.
    Mismatch,
    /// A role waits for a message, and no other goes on. With `--main` none ever waits.
    Waits,
    /// The roles took as many instructions as they may take, and one goes on.
    Bound,
    /// A null stood where an object must, or code is wrong. `exec` alone answers it: a program that is
    /// accepted meets no null, and its own code is right.
    Broken,
}

impl Status {
    /// The number with which the program ends.
    pub fn number(self) -> u8
        ensures { result ≡ number_of self }
    {
        match self {
            Status::Done => 0,
            Status::Refused => 1,
            Status::Words => 2,
            Status::ReadFault => 3,
            Status::WriteFault => 4,
            Status::Memory => 5,
            Status::Zero => 6,
            Status::Mismatch => 7,
            Status::Waits => 8,
            Status::Bound => 9,
            Status::Broken => 10,
        }
    }
}
