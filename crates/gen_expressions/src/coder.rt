//! A method whose code is written, and what is written of it: instructions, and the places of labels.

ghost use Rattle.std.specs.Prelude.{◌≡◌, [], IfOk, OnOk};
ghost use Rattle.jv_core.specs.Lookup.{slot_type, field_type, variable_type};
ghost use Rattle.gen_rules.specs.Symbolic.{jump as jump_to, plain};
ghost use Rattle.gen_expressions.specs.View.{operand_of};
ghost use Rattle.gen_expressions.specs.Held.{draft_in, method_in};
ghost use Rattle.gen_expressions.specs.Drafting.{emit, with_label, with_label_here, with_labels, next_label, placed, variable_type_of};
ghost use Rattle.gen_expressions.specs.Drafting.{variable};
ghost use Rattle.jv_core.specs.declared.tree.Var.TheVariants as vars;

use crate::symbolic::{Operand, Symbolic};
use jv_core::{Core, CoreMethod, CoreType, Var};
use mg_text::Memory;
use std::alloc::Global;

/// What is written of a method: instructions whose jumps lead to labels, and the place of each label,
/// which is 0 until it is known.
#[derive(Drop)]
pub struct Draft<'a> {
    pub instrs: Vec<Symbolic<'a>>,
    pub labels: Vec<u32>,
}

/// The method whose code is written, in its program.
#[derive(Clone, Copy)]
pub struct Coder<'a> {
    pub alloc: Global,
    pub core: &'a Core,
    pub method: &'a CoreMethod,
}

impl<'a> Draft<'a> {
    /// Nothing, and no labels.
    pub fn new(alloc: Global) -> Draft<'a>
        ensures instrs { result.instrs.items ≡ [] }
        ensures labels { result.labels.items ≡ [] }
    {
        Draft {
            instrs: Vec::new(alloc),
            labels: Vec::new(alloc),
        }
    }
}

// The place behind these many instructions.
fn place_of(len: usize) -> Result<u32, Memory>
    ensures { IfOk result (λ n. n ≡ len) }
{
    let Ok(place) = u32::try_from(len) else {
        return Err(Memory);
    };
    Ok(place)
}

impl<'a> Coder<'a> {
    /// Appends an instruction: its opcode, and what it works with.
    ///
    /// # Errors
    /// `Memory` only.
    #[tactic(auto, using(crate::proofs::Written::writes))]
    pub fn put(&self, draft: &mut Draft<'a>, op: u8, operand: Operand<'a>) -> Result<(), Memory>
        ensures { OnOk result (draft_in self.now draft.new
            ≡ emit (record { op = op; operand = operand_of self.now.core.now operand.entry }) (draft_in self.now draft.old)) }
    {
        draft.instrs.push(Symbolic { op, operand })?;
        Ok(())
    }

    /// Appends an instruction that has an opcode alone.
    ///
    /// # Errors
    /// `Memory` only.
    pub fn put_plain(&self, draft: &mut Draft<'a>, op: u8) -> Result<(), Memory>
        ensures { OnOk result (draft_in self.now draft.new ≡ emit (plain op) (draft_in self.now draft.old)) }
    {
        self.put(draft, op, Operand::Nothing)
    }

    /// Appends a jump to a label.
    ///
    /// # Errors
    /// `Memory` only.
    pub fn put_jump(&self, draft: &mut Draft<'a>, op: u8, label: u32) -> Result<(), Memory>
        ensures { OnOk result (draft_in self.now draft.new ≡ emit (jump_to op label) (draft_in self.now draft.old)) }
    {
        self.put(draft, op, Operand::Jump(label))
    }

    /// One more label, which has no place yet.
    ///
    /// # Errors
    /// `Memory` only.
    #[tactic(auto, using(crate::proofs::Written::writes))]
    pub fn open(&self, draft: &mut Draft<'a>) -> Result<u32, Memory>
        ensures number { IfOk result (λ n. n ≡ next_label (draft_in self.now draft.old)) }
        ensures draft { OnOk result (draft_in self.now draft.new ≡ with_label 0 (draft_in self.now draft.old)) }
    {
        let number = place_of(draft.labels.len())?;
        draft.labels.push(0)?;
        Ok(number)
    }

    /// One more label, which is here.
    ///
    /// # Errors
    /// `Memory` only.
    #[tactic(auto, using(crate::proofs::Written::writes))]
    pub fn mark(&self, draft: &mut Draft<'a>) -> Result<u32, Memory>
        ensures number { IfOk result (λ n. n ≡ next_label (draft_in self.now draft.old)) }
        ensures draft { OnOk result (draft_in self.now draft.new ≡ with_label_here (draft_in self.now draft.old)) }
    {
        let number = place_of(draft.labels.len())?;
        let place = place_of(draft.instrs.len())?;
        draft.labels.push(place)?;
        Ok(number)
    }

    /// So many more labels, which have no places yet. The first has the number that is answered.
    ///
    /// # Errors
    /// `Memory` only.
    #[tactic(auto, using(crate::proofs::Written::writes, crate::proofs::Loops::opened))]
    pub fn open_all(&self, draft: &mut Draft<'a>, count: usize) -> Result<u32, Memory>
        ensures number { IfOk result (λ n. n ≡ next_label (draft_in self.now draft.old)) }
        ensures draft { OnOk result (draft_in self.now draft.new ≡ with_labels count (draft_in self.now draft.old)) }
    {
        let number = place_of(draft.labels.len())?;
        for _opened in 0..count {
            self.open(draft)?;
        }
        Ok(number)
    }

    /// The place of a label is here. Where there is no such label nothing changes.
    ///
    /// # Errors
    /// `Memory` only.
    #[tactic(auto, using(crate::proofs::Written::writes))]
    pub fn close(&self, draft: &mut Draft<'a>, label: u32) -> Result<(), Memory>
        ensures { OnOk result (draft_in self.now draft.new ≡ placed label (draft_in self.now draft.old)) }
    {
        let place = place_of(draft.instrs.len())?;
        if (label as usize) < draft.labels.len() {
            draft.labels[label as usize] = place;
        }
        Ok(())
    }

    // The type of a slot.
    #[tactic(auto, using(crate::proofs::Seen::found))]
    fn slot_type(&self, slot: u32) -> Option<CoreType>
        ensures { result ≡ slot_type (method_in self.now) slot }
    {
        match self.method.slots.as_slice().get(slot as usize) {
            Some(slot) => Some(slot.ty),
            None => None,
        }
    }

    // The type of an own field.
    #[tactic(auto, using(crate::proofs::Seen::found))]
    fn field_type(&self, field: u32) -> Option<CoreType>
        ensures { result ≡ field_type self.now.core.now (method_in self.now).class field }
    {
        let class = self.core.classes().get(self.method.class as usize)?;
        match class.fields.as_slice().get(field as usize) {
            Some(field) => Some(field.ty),
            None => None,
        }
    }

    /// The type of a variable.
    pub(crate) fn variable_type(&self, variable: Var) -> Option<CoreType>
        ensures { result ≡ variable_type self.now.core.now (method_in self.now) variable }
    {
        match variable {
            Var::Slot(slot) => self.slot_type(slot),
            Var::Field(field) => self.field_type(field),
        }
    }

    /// The type of a slot of the method. What is no slot of it has that of ints.
    pub fn type_of_slot(&self, slot: u32) -> CoreType
        ensures { result ≡ variable_type_of self.now.core.now (method_in self.now) (vars.Slot slot) }
    {
        match self.slot_type(slot) {
            Some(ty) => ty,
            None => CoreType::Int,
        }
    }
}
