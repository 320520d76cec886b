//! What is known at a place of a method, and what stays the same in all of it.

ghost use Rattle.std.specs.Prelude.{IfOk};
ghost use Rattle.cls_rows.specs.Same.{AreSame};

use cls_kinds::Kind;
use cls_table::ProgramKinds;
use mg_text::Memory;
use std::rc::Rc;

/// The kinds at a place: those of the locals, which places share, and the list of the operands.
#[derive(Drop)]
pub struct Frame {
    pub locals: Rc<Vec<Kind>>,
    pub operands: u32,
}

impl Frame {
    /// An equal one, which shares the locals.
    ///
    /// # Errors
    /// `Memory` only.
    pub fn copy(&self) -> Result<Frame, Memory>
        ensures { IfOk result (λ f. AreSame self.now f) }
    {
        let locals = self.locals.clone()?;
        Ok(Frame {
            locals,
            operands: self.operands,
        })
    }
}

/// What an instruction is judged by beside the kinds that it finds.
#[derive(Clone, Copy)]
pub struct Scene<'a> {
    pub program: &'a ProgramKinds,
    /// What the method answers.
    pub result: Option<Kind>,
    pub max_stack: usize,
}
