//! Where `break` and `continue` lead.

ghost use Rattle.std.specs.Prelude.{◌≡◌};
ghost use Rattle.gen_rules.specs.Around.{break_to, continue_to};
ghost use Rattle.gen_symbolic.specs.inner.Held.{around_of};

/// What stands around a statement, the innermost first, with the labels behind it and where it goes on.
#[derive(Clone, Copy)]
pub(crate) enum Around<'s> {
    Method,
    /// The number of a loop, the label behind it, where it goes on, and what is around it.
    Loop(u32, u32, u32, &'s Around<'s>),
    /// The label behind a `switch`, and what is around it.
    Switch(u32, &'s Around<'s>),
}

impl<'s> Around<'s> {
    /// The label to which a `break` leads: behind the loop of this number, or behind the innermost `switch`.
    pub(crate) fn break_to(&self, number: Option<u32>) -> u32
        ensures { result ≡ break_to (around_of self.now) number }
    {
        match self {
            Around::Method => 0,
            Around::Loop(of, behind, _, outer) => match number {
                Some(wanted) => {
                    if *of == wanted {
                        return *behind;
                    }
                    outer.break_to(number)
                }
                None => outer.break_to(number),
            },
            Around::Switch(behind, outer) => match number {
                Some(_) => outer.break_to(number),
                None => *behind,
            },
        }
    }

    /// The label to which a `continue` of the loop of this number leads.
    pub(crate) fn continue_to(&self, number: u32) -> u32
        ensures { result ≡ continue_to (around_of self.now) number }
    {
        match self {
            Around::Method => 0,
            Around::Loop(of, _, next, outer) => {
                if *of == number {
                    return *next;
                }
                outer.continue_to(number)
            }
            Around::Switch(_, outer) => outer.continue_to(number),
        }
    }
}
