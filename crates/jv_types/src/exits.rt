//! How control may leave statements other than through their ends: by `break` and `continue`.
//! Those that were met are kept by their labels, in a hashed table.

ghost use Rattle.std.specs.Prelude.{◌≡◌, IfOk, OnOk, None as Missing, Option, option_map, false};
ghost use Rattle.mg_text.specs.Call.{Name};
ghost use Rattle.jv_types.specs.inner.Exits.{both, emptied, jumps, met_at, no_jumps, with_jumps};

use mg_text::Memory;
use std::alloc::Global;
use std::collections::HashMap;

/// Whether `break` and `continue` were met, with one label or without one.
#[derive(Clone, Copy)]
pub(crate) struct Jumps {
    pub breaks: bool,
    pub continues: bool,
}

/// What was met before a loop: without a label, and with the label of the loop.
#[derive(Clone, Copy)]
pub(crate) struct Hidden {
    pub plain: Jumps,
    pub labelled: Jumps,
}

/// The jumps that were met, by their labels.
#[derive(Drop)]
pub(crate) struct Exits {
    alloc: Global,
    plain: Jumps,
    labelled: HashMap<String, Jumps>,
}

// No jump.
fn no_jumps() -> Jumps
    ensures { result ≡ no_jumps }
{
    Jumps {
        breaks: false,
        continues: false,
    }
}

// What was met of either.
fn both(one: Jumps, other: Jumps) -> Jumps
    ensures { result ≡ both one other }
{
    Jumps {
        breaks: one.breaks || other.breaks,
        continues: one.continues || other.continues,
    }
}

impl Exits {
    /// No jump was met.
    pub(crate) fn new(alloc: Global) -> Exits
        ensures { (label : Option Name) → met_at result label ≡ no_jumps }
    {
        Exits {
            alloc,
            plain: no_jumps(),
            labelled: HashMap::new(alloc),
        }
    }

    // What was met with this label.
    fn met(&self, label: Option<&str>) -> Jumps
        ensures { result ≡ met_at self.now (option_map (λ l. l.now) label.entry) }
    {
        match label {
            None => self.plain,
            Some(name) => match self.labelled.get(name) {
                Some(jumps) => *jumps,
                None => no_jumps(),
            },
        }
    }

    // From now on these are what was met with this label.
    fn set(&mut self, label: Option<&str>, jumps: Jumps) -> Result<(), Memory>
        ensures { OnOk result ((l : Option Name) → met_at self.new l ≡ with_jumps (met_at self.old) (option_map (λ l. l.now) label.entry)
            jumps l) }
    {
        match label {
            None => {
                self.plain = jumps;
                Ok(())
            }
            Some(name) => {
                let key = String::from_str(self.alloc, name)?;
                self.labelled.insert(key, jumps)?;
                Ok(())
            }
        }
    }

    /// Meets these.
    pub(crate) fn add(&mut self, label: Option<&str>, jumps: Jumps) -> Result<(), Memory>
        ensures { OnOk result ((l : Option Name) → met_at self.new l ≡ with_jumps (met_at self.old) (option_map (λ l. l.now) label.entry)
            (both (met_at self.old (option_map (λ l. l.now) label.entry)) jumps) l) }
    {
        let met = self.met(label);
        self.set(label, both(met, jumps))
    }

    /// Enters a loop: what was met before and would lead to it is hidden.
    pub(crate) fn enter_loop(&mut self, label: Option<&str>) -> Result<Hidden, Memory>
        ensures plain { IfOk result (λ h. h.plain ≡ met_at self.old Missing) }
        ensures labelled { IfOk result (λ h. h.labelled ≡ met_at self.old (option_map (λ l. l.now) label.entry)) }
        ensures met { OnOk result ((l : Option Name) → met_at self.new l ≡ emptied (option_map (λ l. l.now) label.entry)
            (met_at self.old) l) }
    {
        let hidden = Hidden {
            plain: self.met(None),
            labelled: self.met(label),
        };
        self.set(None, no_jumps())?;
        self.set(label, no_jumps())?;
        Ok(hidden)
    }

    /// Leaves a loop: what leads to it. What was hidden is there again.
    pub(crate) fn leave_loop(
        &mut self,
        label: Option<&str>,
        hidden: Hidden,
    ) -> Result<Jumps, Memory>
        ensures inner { IfOk result (λ j. j ≡ both (met_at self.old Missing) (met_at self.old (option_map (λ l. l.now) label.entry))) }
        ensures met { OnOk result ((l : Option Name) →
            met_at self.new l ≡ with_jumps (with_jumps (met_at self.old) (option_map (λ l. l.now) label.entry) hidden.labelled) Missing
            hidden.plain l) }
    {
        let inner = both(self.met(None), self.met(label));
        self.set(label, hidden.labelled)?;
        self.set(None, hidden.plain)?;
        Ok(inner)
    }

    /// Enters a switch: whether `break` was met before, which is hidden.
    pub(crate) fn enter_switch(&mut self) -> bool
        ensures hidden { result ≡ (met_at self.old Missing).breaks }
        ensures met { (l : Option Name) → met_at self.new l ≡ with_jumps (met_at self.old) Missing
            (jumps false (met_at self.old Missing).continues) l }
    {
        let hidden = self.plain.breaks;
        self.plain.breaks = false;
        hidden
    }

    /// Leaves a switch: whether `break` leads to it. What was hidden is there again.
    pub(crate) fn leave_switch(&mut self, hidden: bool) -> bool
        ensures inner { result ≡ (met_at self.old Missing).breaks }
        ensures met { (l : Option Name) → met_at self.new l ≡ with_jumps (met_at self.old) Missing
            (jumps hidden (met_at self.old Missing).continues) l }
    {
        let inner = self.plain.breaks;
        self.plain.breaks = hidden;
        inner
    }
}
