//! Lines of the report that speak of contexts: parameters, results, fields of helpers, and loops.
//! Each function appends what its part of the report says.

ghost use Rattle.std.specs.Prelude.{◌≡◌, ◌++◌, ◌+◌, map, take, IfOk, OnOk, string_bytes, codes};
ghost use Rattle.std.specs.Fmt.{decimal};
ghost use Rattle.std.specs.List.{flat_map};
ghost use Rattle.jv_core.specs.View.{method_of, slot_of, loop_of};
ghost use Rattle.use_rules.specs.Keys.{method_in};
ghost use Rattle.use_flow.specs.inner.Fields.{key_in};
ghost use Rattle.use_check.specs.Report.{is_instance, is_helper, class_text, where_text, context_text, param_lines, result_line};
ghost use Rattle.use_check.specs.Report.{own_fields, field_lines, front_of, param_line};
ghost use Rattle.use_check.specs.Report.{helper_lines, helper_lines_of, slot_line, head_fields, head_lines, loop_lines, named_lines};
ghost use Rattle.use_check.specs.Report.{method_lines, context_lines, in_order};
ghost use Rattle.use_check.specs.inner.Reported.{seen};

use crate::lines::{Reporter, put_state};
use jv_core::{CoreLoop, CoreMethod, CoreSlot, CoreType, MethodKind};
use mg_text::Memory;
use std::alloc::Global;
use use_flow::{
    Context, FieldTable, TableKey, class_at, class_in, method_at, number, sum, typestate_of,
};

// The method of a context.
fn method_in(context: Context) -> u32
    ensures { result ≡ method_in context }
{
    match context {
        Context::Plain { method } => method,
        Context::Protocol { method, .. } => method,
    }
}

// The parameters of a method.
#[tactic(auto, using(crate::proofs::Listed::taken))]
fn params_of(method: &CoreMethod) -> &[CoreSlot]
    ensures { map slot_of result.now ≡ take (method_of method.now).params (method_of method.now).slots }
{
    let slots = method.slots.as_slice();
    let count = (method.params as usize).min(slots.len());
    &slots[..count]
}

// Whether a method runs on an object.
fn is_instance(kind: MethodKind) -> bool
    ensures { result ≡ is_instance kind }
{
    match kind {
        MethodKind::Protocol | MethodKind::Helper => true,
        MethodKind::Main | MethodKind::Static => false,
    }
}

// Whether a method of an object is none of its typestate's.
fn is_helper(kind: MethodKind) -> bool
    ensures { result ≡ is_helper kind }
{
    match kind {
        MethodKind::Helper => true,
        MethodKind::Protocol | MethodKind::Main | MethodKind::Static => false,
    }
}

// A word and a name, with a blank behind the name.
fn front_of(alloc: Global, word: &str, name: &str) -> Result<String, Memory>
    ensures { IfOk result (λ s. string_bytes s ≡ word.now ++ (name.now ++ codes " ")) }
{
    let mut front = String::new(alloc);
    front.push_str(word)?;
    front.push_str(name)?;
    front.push_str(" ")?;
    Ok(front)
}

// What stands before the name of a variable at the head of a loop. Loops are counted from 1.
fn loop_front(alloc: Global, name: &str, place: usize) -> Result<String, Memory>
    ensures { IfOk result (λ s. string_bytes s ≡ codes "loop " ++ (name.now ++ (codes " " ++ (decimal (place + 1) ++ codes " ")))) }
{
    let count = sum(place, 1)?;
    let mut front = String::new(alloc);
    front.push_str("loop ")?;
    front.push_str(name)?;
    write!(front, " {count} ")?;
    Ok(front)
}

impl<'a> Reporter<'a> {
    // Appends the name of a class.
    fn put_class_name(&self, out: &mut String, class: u32) -> Result<(), Memory>
        ensures { OnOk result (string_bytes out.new ≡ string_bytes out.old ++ class_text (seen self.now) class) }
    {
        match class_at(self.core, class) {
            Some(class) => self.put_name(out, class.name),
            None => Ok(()),
        }
    }

    // Appends the class of a context, and its state.
    fn put_where(
        &self,
        out: &mut String,
        context: Context,
        method: &CoreMethod,
    ) -> Result<(), Memory>
        ensures { OnOk result (string_bytes out.new ≡ string_bytes out.old ++ where_text (seen self.now) context (method_of method.now)) }
    {
        match context {
            Context::Plain { .. } => self.put_class_name(out, method.class),
            Context::Protocol { class, state, .. } => {
                self.put_class_name(out, class)?;
                out.push_str("@")?;
                put_state(out, typestate_of(self.core, class), state as usize)
            }
        }
    }

    // The name of a context.
    fn context_name(
        &self,
        alloc: Global,
        context: Context,
        method: &CoreMethod,
    ) -> Result<String, Memory>
        ensures { IfOk result (λ s. string_bytes s ≡ context_text (seen self.now) context (method_of method.now)) }
    {
        let mut name = String::new(alloc);
        self.put_where(&mut name, context, method)?;
        name.push_str(".")?;
        self.put_name(&mut name, method.name)?;
        Ok(name)
    }

    // Appends the line of the parameter at a place. One that has no objects has none.
    fn put_param(
        &self,
        out: &mut String,
        front: &str,
        context: u32,
        place: usize,
        slot: &CoreSlot,
    ) -> Result<(), Memory>
        ensures { OnOk result (string_bytes out.new ≡ string_bytes out.old ++ param_line (seen self.now) front.now context place
            (slot_of slot.now)) }
    {
        let param = number(place)?;
        let key = TableKey::Param { context, param };
        self.put_variable(out, front, slot.name, slot.ty, key)
    }

    // Appends the lines of parameters.
    fn put_params(
        &self,
        alloc: Global,
        out: &mut String,
        name: &str,
        context: u32,
        params: &[CoreSlot],
    ) -> Result<(), Memory>
        ensures { OnOk result (string_bytes out.new ≡ string_bytes out.old ++ param_lines (seen self.now) name.now context
            (map slot_of params.now)) }
    {
        let front = front_of(alloc, "param ", name)?;
        for place in 0..params.len() {
            self.put_param(out, front.as_str(), context, place, &params[place])?;
        }
        Ok(())
    }

    // Appends the line of a result. One that has no objects has none.
    fn put_result(
        &self,
        out: &mut String,
        name: &str,
        context: u32,
        ty: CoreType,
    ) -> Result<(), Memory>
        ensures { OnOk result (string_bytes out.new ≡ string_bytes out.old ++ result_line (seen self.now) name.now context ty) }
    {
        let Some(class) = class_in(ty) else {
            return Ok(());
        };
        out.push_str("result ")?;
        out.push_str(name)?;
        self.put_table(out, class, TableKey::Result { context })
    }

    // Appends the lines of the fields of a method's class.
    fn put_own_fields(
        &self,
        out: &mut String,
        front: &str,
        table: FieldTable,
        method: &CoreMethod,
    ) -> Result<(), Memory>
        ensures { OnOk result (string_bytes out.new ≡ string_bytes out.old ++ field_lines (seen self.now) front.now (key_in table)
            (own_fields (seen self.now) (method_of method.now))) }
    {
        match class_at(self.core, method.class) {
            Some(class) => self.put_fields(out, front, table, class.fields.as_slice()),
            None => Ok(()),
        }
    }

    // Appends the lines of the fields of a method's class, behind a word and the name of a context.
    fn put_marked(
        &self,
        alloc: Global,
        out: &mut String,
        word: &str,
        name: &str,
        table: FieldTable,
        method: &CoreMethod,
    ) -> Result<(), Memory>
        ensures { OnOk result (string_bytes out.new ≡ string_bytes out.old ++ field_lines (seen self.now)
            (front_of (seen self.now) word.now name.now) (key_in table) (own_fields (seen self.now) (method_of method.now))) }
    {
        let front = front_of(alloc, word, name)?;
        self.put_own_fields(out, front.as_str(), table, method)
    }

    // Appends what the fields have where a helper is entered and where it is left.
    fn put_helper(
        &self,
        alloc: Global,
        out: &mut String,
        name: &str,
        method_number: u32,
        method: &CoreMethod,
    ) -> Result<(), Memory>
        ensures { OnOk result (string_bytes out.new ≡ string_bytes out.old ++ helper_lines (seen self.now) name.now method_number
            (own_fields (seen self.now) (method_of method.now))) }
    {
        let entered = FieldTable::Enter {
            method: method_number,
        };
        self.put_marked(alloc, out, "enter ", name, entered, method)?;
        let left = FieldTable::Leave {
            method: method_number,
        };
        self.put_marked(alloc, out, "leave ", name, left, method)
    }

    // Appends the line of a slot at the head of a loop.
    #[tactic(auto, using(use_flow::proofs::Scenes::scenes))]
    fn put_slot(
        &self,
        out: &mut String,
        front: &str,
        context: u32,
        loop_number: u32,
        slots: &[CoreSlot],
        slot: u32,
    ) -> Result<(), Memory>
        ensures { OnOk result (string_bytes out.new ≡ string_bytes out.old ++ slot_line (seen self.now) front.now context loop_number
            (map slot_of slots.now) slot) }
    {
        let Some(kept) = slots.get(slot as usize) else {
            return Ok(());
        };
        let key = TableKey::Loop {
            context,
            number: loop_number,
            slot,
        };
        self.put_variable(out, front, kept.name, kept.ty, key)
    }

    // Appends the lines of the slots in scope at the head of a loop.
    fn put_slots(
        &self,
        out: &mut String,
        front: &str,
        context: u32,
        loop_number: u32,
        slots: &[CoreSlot],
        scope: &[u32],
    ) -> Result<(), Memory>
        ensures { OnOk result (string_bytes out.new ≡ string_bytes out.old
            ++ flat_map (slot_line (seen self.now) front.now context loop_number (map slot_of slots.now)) scope.now) }
    {
        for slot in scope {
            self.put_slot(out, front, context, loop_number, slots, *slot)?;
        }
        Ok(())
    }

    // Appends the lines of the own fields at the head of a loop of an instance method.
    fn put_head_fields(
        &self,
        out: &mut String,
        front: &str,
        context: u32,
        loop_number: u32,
        method: &CoreMethod,
    ) -> Result<(), Memory>
        ensures { OnOk result (string_bytes out.new ≡ string_bytes out.old ++ head_fields (seen self.now) front.now context loop_number
            (method_of method.now)) }
    {
        if !is_instance(method.kind) {
            return Ok(());
        }
        let slots = method.slots.len();
        let table = FieldTable::Head {
            context,
            number: loop_number,
            slots,
        };
        self.put_own_fields(out, front, table, method)
    }

    // Appends the lines of a loop's head.
    fn put_head(
        &self,
        out: &mut String,
        front: &str,
        context: u32,
        loop_number: u32,
        method: &CoreMethod,
        kept: &CoreLoop,
    ) -> Result<(), Memory>
        ensures { OnOk result (string_bytes out.new ≡ string_bytes out.old ++ head_lines (seen self.now) front.now context loop_number
            (method_of method.now) (loop_of kept.now)) }
    {
        let slots = method.slots.as_slice();
        let scope = kept.scope.as_slice();
        self.put_slots(out, front, context, loop_number, slots, scope)?;
        self.put_head_fields(out, front, context, loop_number, method)
    }

    // Appends the lines of the loops of a method.
    fn put_loops(
        &self,
        alloc: Global,
        out: &mut String,
        name: &str,
        context: u32,
        method: &CoreMethod,
    ) -> Result<(), Memory>
        ensures { OnOk result (string_bytes out.new ≡ string_bytes out.old
            ++ in_order (loop_lines (seen self.now) name.now context (method_of method.now)) 0 (method_of method.now).loops) }
    {
        let loops = method.loops.as_slice();
        for place in 0..loops.len() {
            let front = loop_front(alloc, name, place)?;
            let loop_number = number(place)?;
            let kept = &loops[place];
            self.put_head(out, front.as_str(), context, loop_number, method, kept)?;
        }
        Ok(())
    }

    // Appends the lines of the fields of a helper.
    fn put_if_helper(
        &self,
        alloc: Global,
        out: &mut String,
        name: &str,
        method_number: u32,
        method: &CoreMethod,
    ) -> Result<(), Memory>
        ensures { OnOk result (string_bytes out.new ≡ string_bytes out.old ++ helper_lines_of (seen self.now) name.now method_number
            (method_of method.now)) }
    {
        if !is_helper(method.kind) {
            return Ok(());
        }
        self.put_helper(alloc, out, name, method_number, method)
    }

    // Appends the lines of a context of this name.
    fn put_named(
        &self,
        alloc: Global,
        out: &mut String,
        name: &str,
        context_number: u32,
        context: Context,
        method: &CoreMethod,
    ) -> Result<(), Memory>
        ensures { OnOk result (string_bytes out.new ≡ string_bytes out.old ++ named_lines (seen self.now) name.now context_number context
            (method_of method.now)) }
    {
        self.put_params(alloc, out, name, context_number, params_of(method))?;
        self.put_result(out, name, context_number, method.result)?;
        self.put_if_helper(alloc, out, name, method_in(context), method)?;
        self.put_loops(alloc, out, name, context_number, method)
    }

    // Appends the lines of a context of a method.
    fn put_method(
        &self,
        alloc: Global,
        out: &mut String,
        context_number: u32,
        context: Context,
        method: &CoreMethod,
    ) -> Result<(), Memory>
        ensures { OnOk result (string_bytes out.new ≡ string_bytes out.old ++ method_lines (seen self.now) context_number context
            (method_of method.now)) }
    {
        let name = self.context_name(alloc, context, method)?;
        self.put_named(alloc, out, name.as_str(), context_number, context, method)
    }

    // Appends the lines of a context.
    fn put_context(
        &self,
        alloc: Global,
        out: &mut String,
        context_number: u32,
        context: Context,
    ) -> Result<(), Memory>
        ensures { OnOk result (string_bytes out.new ≡ string_bytes out.old ++ context_lines (seen self.now) context_number context) }
    {
        match method_at(self.core, method_in(context)) {
            Some(method) => self.put_method(alloc, out, context_number, context, method),
            None => Ok(()),
        }
    }

    // Appends the lines of contexts.
    pub(crate) fn put_contexts(
        &self,
        alloc: Global,
        out: &mut String,
        contexts: &[Context],
    ) -> Result<(), Memory>
        ensures { OnOk result (string_bytes out.new ≡ string_bytes out.old ++ in_order (context_lines (seen self.now)) 0 contexts.now) }
    {
        for place in 0..contexts.len() {
            let context_number = number(place)?;
            self.put_context(alloc, out, context_number, contexts[place])?;
        }
        Ok(())
    }
}
