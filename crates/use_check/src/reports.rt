//! The report of an accepted program: what each of its tables holds, a line for each.
//! Fields come first, class by class and state by state; then the contexts in their order.

ghost use Rattle.std.specs.Prelude.{◌≡◌, ◌++◌, IfOk, OnOk, string_bytes};
ghost use Rattle.jv_core.specs.View.{class_of};
ghost use Rattle.use_flow.specs.View.{tables_of, reached_of};
ghost use Rattle.use_check.specs.Report.{state_front, state_lines, class_lines, in_order, report_text, IsReport};
ghost use Rattle.use_verdict.specs.Verdict.{AreAnswer};
ghost use Rattle.use_check.specs.inner.Reported.{seen};

use crate::lines::{Reporter, put_state};
use jv_core::{Core, CoreClass};
use mg_text::{Memory, Text};
use std::alloc::Global;
use use_flow::{FieldTable, number, typestate_of};
use use_verdict::Accepted;

impl<'a> Reporter<'a> {
    // What stands before the names of fields in a state.
    fn state_front(
        &self,
        alloc: Global,
        number: u32,
        class: &CoreClass,
        state: usize,
    ) -> Result<String, Memory>
        ensures { IfOk result (λ s. string_bytes s ≡ state_front (seen self.now) number (class_of class.now) state) }
    {
        let mut front = String::new(alloc);
        front.push_str("field ")?;
        self.put_name(&mut front, class.name)?;
        front.push_str(" ")?;
        put_state(&mut front, typestate_of(self.core, number), state)?;
        front.push_str(" ")?;
        Ok(front)
    }

    // Appends what the fields of a class have in a state.
    fn put_in_state(
        &self,
        alloc: Global,
        out: &mut String,
        class_number: u32,
        class: &CoreClass,
        state: usize,
    ) -> Result<(), Memory>
        ensures { OnOk result (string_bytes out.new ≡ string_bytes out.old ++ state_lines (seen self.now) class_number
            (class_of class.now) state) }
    {
        let front = self.state_front(alloc, class_number, class, state)?;
        let table = FieldTable::State {
            class: class_number,
            state: number(state)?,
        };
        self.put_fields(out, front.as_str(), table, class.fields.as_slice())
    }

    // Appends what the fields of a class have, in each state that calls lead to.
    fn put_class(
        &self,
        alloc: Global,
        out: &mut String,
        number: u32,
        class: &CoreClass,
    ) -> Result<(), Memory>
        ensures { OnOk result (string_bytes out.new ≡ string_bytes out.old ++ class_lines (seen self.now) number (class_of class.now)) }
    {
        let Some(states) = self.tables.reached_states(self.core, number) else {
            return Ok(());
        };
        for state in 0..states.width() {
            if !states.has(state) {
                continue;
            }
            self.put_in_state(alloc, out, number, class, state)?;
        }
        Ok(())
    }

    // Appends the lines of all fields.
    fn put_classes(&self, alloc: Global, out: &mut String) -> Result<(), Memory>
        ensures { OnOk result (string_bytes out.new ≡ string_bytes out.old ++ in_order (class_lines (seen self.now)) 0
            (seen self.now).program.classes) }
    {
        let classes = self.core.classes();
        for place in 0..classes.len() {
            let class_number = number(place)?;
            let class = &classes[place];
            self.put_class(alloc, out, class_number, class)?;
        }
        Ok(())
    }
}

/// The report of the least tables of an accepted program.
///
/// # Errors
/// `Memory` only.
pub fn report(alloc: Global, core: &Core, accepted: &Accepted) -> Result<Text, Memory>
    requires { AreAnswer core.now accepted.now.tables }
    ensures text { IfOk result (λ t. t ≡ report_text core.now (reached_of accepted.now.tables) (tables_of accepted.now.tables)) }
    ensures report { IfOk result (λ t. IsReport core.now t) }
{
    let reporter = Reporter {
        core,
        tables: &accepted.tables,
    };
    let mut out = String::new(alloc);
    reporter.put_classes(alloc, &mut out)?;
    reporter.put_contexts(alloc, &mut out, accepted.tables.contexts())?;
    Ok(Text::from_string(out))
}
