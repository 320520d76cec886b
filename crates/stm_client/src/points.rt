//! How choices are numbered, where control comes, and what a protocol's file has.

ghost use Rattle.std.specs.Prelude.{◌≡◌, ◌+◌, IfOk};
ghost use Rattle.stm_client.specs.Counting.{opened, deeper};
ghost use Rattle.stm_client.specs.inner.Surveyed.{counted, seen, going_on};
ghost use Rattle.stm_client.specs.View.{past, either};

use mg_text::{Memory, Place, Text};
use scr_tree::Local;

/// What each statement of a client is made with.
#[derive(Clone, Copy)]
pub struct About<'a> {
    pub local: &'a Local,
    /// The one place at which all of it stands.
    pub place: Place,
    /// The names of the counters of own choices.
    pub counters: &'a [Text],
}

/// The numbers of the next choice that another role makes, and of the next own one.
#[derive(Clone, Copy)]
pub struct Numbers {
    pub there: u32,
    pub own: u32,
}

impl Numbers {
    /// Behind the opening of a choice. `Memory` past the last number.
    pub fn opened(self, is_own: bool) -> Result<Numbers, Memory>
        ensures { IfOk result (λ n. n ≡ opened is_own self) }
    {
        if is_own {
            let own = next_number(self.own)?;
            Ok(Numbers { own, ..self })
        } else {
            let there = next_number(self.there)?;
            Ok(Numbers { there, ..self })
        }
    }
}

/// The end of statements or of branches: the next numbers, and whether control comes there.
#[derive(Clone, Copy)]
pub struct End {
    pub numbers: Numbers,
    pub falls: bool,
}

impl End {
    /// The end of these statements and one more, which ends so.
    pub fn past(self, last: End) -> End
        ensures { result ≡ past self last }
    {
        End {
            numbers: last.numbers,
            falls: self.falls && last.falls,
        }
    }

    /// The end of these branches and one more, which ends so.
    pub fn either(self, last: End) -> End
        ensures { result ≡ either self last }
    {
        End {
            numbers: last.numbers,
            falls: self.falls || last.falls,
        }
    }
}

/// What a file has: how many own choices, how many branches of own choices one inside another at
/// most, and whether it goes on by `do`.
#[derive(Clone, Copy)]
pub struct Survey {
    pub own: u32,
    pub levels: u32,
    pub goes_on: bool,
}

impl Survey {
    /// With one more choice. `Memory` past the last number.
    pub fn counted(self, is_own: bool) -> Result<Survey, Memory>
        ensures { IfOk result (λ s. s ≡ counted is_own self) }
    {
        if !is_own {
            return Ok(self);
        }
        let own = next_number(self.own)?;
        Ok(Survey { own, ..self })
    }

    /// With a branch that is so deep.
    pub fn seen(self, level: u32) -> Survey
        ensures { result ≡ seen level self }
    {
        if level <= self.levels {
            return self;
        }
        Survey {
            levels: level,
            ..self
        }
    }

    /// With a `do`.
    pub fn going_on(self) -> Survey
        ensures { result ≡ going_on self }
    {
        Survey {
            goes_on: true,
            ..self
        }
    }
}

/// How deep the next branch of a choice is. `Memory` past the last number.
pub fn deeper(is_own: bool, level: u32) -> Result<u32, Memory>
    ensures { IfOk result (λ l. l ≡ deeper is_own level) }
{
    if !is_own {
        return Ok(level);
    }
    next_number(level)
}

// The number behind this one. `Memory` past the last.
fn next_number(number: u32) -> Result<u32, Memory>
    ensures { IfOk result (λ n. n ≡ number + 1) }
{
    match number.checked_add(1) {
        Some(next) => Ok(next),
        None => Err(Memory),
    }
}
