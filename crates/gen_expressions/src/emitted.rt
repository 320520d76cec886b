//! Instructions for ints, texts, locals, fields and calls.

ghost use Rattle.std.specs.Prelude.{◌≡◌, ◌≤◌, OnOk, pos};
ghost use Rattle.gen_rules.specs.Symbolic.{push, push_truth, store, aload, is_reference, return_value, with_local};
ghost use Rattle.gen_rules.specs.Symbolic.{Nothing, Field};
ghost use Rattle.gen_rules.specs.Members.{field_reference};
ghost use Rattle.gen_expressions.specs.Held.{draft_in, method_in};
ghost use Rattle.gen_expressions.specs.Drafting.{emit, variable, store_in, text, discard};

use crate::coder::{Coder, Draft};
use crate::locals::Locals;
use crate::symbolic::Operand;
use cls_tree::opcodes::{
    ALOAD, ALOAD_0, ARETURN, ASTORE, ASTORE_0, BIPUSH, GETFIELD, ICONST_0, ILOAD, ILOAD_0,
    INVOKESTATIC, IRETURN, ISTORE, ISTORE_0, LDC, POP, SIPUSH,
};
use jv_core::{CoreType, Var};
use mg_text::Memory;
use vm_model::Built;

// Whether values of a type are references.
fn is_reference(ty: CoreType) -> bool
    ensures { result ≡ is_reference ty }
{
    match ty {
        CoreType::Text => true,
        CoreType::Object(_) => true,
        CoreType::Void => false,
        CoreType::Int => false,
        CoreType::Boolean => false,
        CoreType::Enum(_) => false,
    }
}

/// The opcode of the return of a value of a type.
pub fn return_of(ty: CoreType) -> u8
    ensures { record { op = result; operand = Nothing } ≡ return_value ty }
{
    if is_reference(ty) { ARETURN } else { IRETURN }
}

impl<'a> Coder<'a> {
    /// Pushes an int.
    ///
    /// # Errors
    /// `Memory` only.
    pub fn put_int(&self, draft: &mut Draft<'a>, number: i32) -> Result<(), Memory>
        ensures { OnOk result (draft_in self.now draft.new ≡ emit (push number) (draft_in self.now draft.old)) }
    {
        if -1 <= number && number <= 5 {
            return self.put_plain(draft, (i32::from(ICONST_0) + number) as u8);
        }
        if -128 <= number && number <= 127 {
            return self.put(draft, BIPUSH, Operand::Number(number as i16));
        }
        if -32768 <= number && number <= 32767 {
            return self.put(draft, SIPUSH, Operand::Number(number as i16));
        }
        self.put(draft, LDC, Operand::Int(number))
    }

    /// Pushes a number.
    pub(crate) fn put_number(&self, draft: &mut Draft<'a>, number: u32) -> Result<(), Memory>
        ensures { OnOk result (draft_in self.now draft.new ≡ emit (push (pos number)) (draft_in self.now draft.old)) }
    {
        let Ok(number) = i32::try_from(number) else {
            return Err(Memory);
        };
        self.put_int(draft, number)
    }

    /// Pushes a truth value.
    pub(crate) fn put_truth(&self, draft: &mut Draft<'a>, holds: bool) -> Result<(), Memory>
        ensures { OnOk result (draft_in self.now draft.new ≡ emit (push_truth holds) (draft_in self.now draft.old)) }
    {
        if holds {
            return self.put_int(draft, 1);
        }
        self.put_int(draft, 0)
    }

    // An instruction of a local, which has short forms for the first four.
    fn put_local(
        &self,
        draft: &mut Draft<'a>,
        short: u8,
        long: u8,
        local: u32,
    ) -> Result<(), Memory>
        requires { short ≤ 100 }
        ensures { OnOk result (draft_in self.now draft.new ≡ emit (with_local short long local) (draft_in self.now draft.old)) }
    {
        if local <= 3 {
            return self.put_plain(draft, short + local as u8);
        }
        self.put(draft, long, Operand::Local(local))
    }

    /// Pushes the object on which the method runs: its first local.
    ///
    /// # Errors
    /// `Memory` only.
    pub fn put_own(&self, draft: &mut Draft<'a>) -> Result<(), Memory>
        ensures { OnOk result (draft_in self.now draft.new ≡ emit (aload 0) (draft_in self.now draft.old)) }
    {
        self.put_plain(draft, ALOAD_0)
    }

    /// A local of this type takes the value on top.
    ///
    /// # Errors
    /// `Memory` only.
    pub fn put_store(&self, draft: &mut Draft<'a>, ty: CoreType, local: u32) -> Result<(), Memory>
        ensures { OnOk result (draft_in self.now draft.new ≡ emit (store ty local) (draft_in self.now draft.old)) }
    {
        if is_reference(ty) {
            return self.put_local(draft, ASTORE_0, ASTORE, local);
        }
        self.put_local(draft, ISTORE_0, ISTORE, local)
    }

    /// Pushes a variable.
    pub(crate) fn put_variable(
        &self,
        draft: &mut Draft<'a>,
        locals: &Locals,
        of: Var,
    ) -> Result<(), Memory>
        ensures { OnOk result (draft_in self.now draft.new ≡ variable self.now.core.now (method_in self.now) locals.now of
            (draft_in self.now draft.old)) }
    {
        match of {
            Var::Slot(slot) => {
                let local = locals.local_of(self.method.kind, slot)?;
                if is_reference(self.type_of_slot(slot)) {
                    return self.put_local(draft, ALOAD_0, ALOAD, local);
                }
                self.put_local(draft, ILOAD_0, ILOAD, local)
            }
            Var::Field(field) => {
                self.put_own(draft)?;
                self.put_field(draft, GETFIELD, field)
            }
        }
    }

    /// Appends an instruction of this opcode for an own field, by its number in the class.
    ///
    /// # Errors
    /// `Memory` only.
    pub fn put_field(&self, draft: &mut Draft<'a>, op: u8, field: u32) -> Result<(), Memory>
        ensures { OnOk result (draft_in self.now draft.new
            ≡ emit (record { op = op; operand = Field (field_reference self.now.core.now (method_in self.now).class field) })
            (draft_in self.now draft.old)) }
    {
        let class = self.method.class;
        self.put(draft, op, Operand::Field { class, field })
    }

    /// A slot in scope takes the value on top.
    ///
    /// # Errors
    /// `Memory` only.
    pub fn put_slot(&self, draft: &mut Draft<'a>, locals: &Locals, slot: u32) -> Result<(), Memory>
        ensures { OnOk result (draft_in self.now draft.new ≡ store_in self.now.core.now (method_in self.now) locals.now slot
            (draft_in self.now draft.old)) }
    {
        let local = locals.local_of(self.method.kind, slot)?;
        self.put_store(draft, self.type_of_slot(slot), local)
    }

    /// Makes a text of the value of this type that is on top, of an int or a truth value. Others stay.
    ///
    /// # Errors
    /// `Memory` only.
    pub fn put_text_of(&self, draft: &mut Draft<'a>, ty: Option<CoreType>) -> Result<(), Memory>
        ensures { OnOk result (draft_in self.now draft.new ≡ text self.now.core.now (method_in self.now) ty
            (draft_in self.now draft.old)) }
    {
        let Some(ty) = ty else {
            return Ok(());
        };
        match ty {
            CoreType::Int => self.put(draft, INVOKESTATIC, Operand::BuiltIn(Built::ValueOfInt)),
            CoreType::Boolean => {
                self.put(draft, INVOKESTATIC, Operand::BuiltIn(Built::ValueOfTruth))
            }
            CoreType::Void | CoreType::Text => Ok(()),
            CoreType::Object(_) | CoreType::Enum(_) => Ok(()),
        }
    }

    /// Drops the value on top of a call with this result, where it has one.
    ///
    /// # Errors
    /// `Memory` only.
    pub fn put_discard(&self, draft: &mut Draft<'a>, ty: Option<CoreType>) -> Result<(), Memory>
        ensures { OnOk result (draft_in self.now draft.new ≡ discard self.now.core.now (method_in self.now) ty
            (draft_in self.now draft.old)) }
    {
        let Some(ty) = ty else {
            return self.put_plain(draft, POP);
        };
        match ty {
            CoreType::Void => Ok(()),
            CoreType::Int | CoreType::Boolean | CoreType::Text => self.put_plain(draft, POP),
            CoreType::Object(_) | CoreType::Enum(_) => self.put_plain(draft, POP),
        }
    }
}
