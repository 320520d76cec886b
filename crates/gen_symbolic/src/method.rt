//! The whole code of a method, and its frame.

ghost use Rattle.std.specs.Prelude.{◌≡◌, IfOk, OnOk};
ghost use Rattle.jv_core.specs.View.{method_of};
ghost use Rattle.gen_rules.specs.Templates.{IsCode};
ghost use Rattle.gen_rules.specs.Frames.{max_stack, max_locals};
ghost use Rattle.gen_expressions.specs.View.{instrs_of};
ghost use Rattle.gen_expressions.specs.Held.{draft_in, method_in};
ghost use Rattle.gen_symbolic.specs.inner.Drafting.{end_of_method, drafted};

use crate::aimed::aim;
use crate::around::Around;
use crate::frames::max_stack;
use crate::locals_of::max_locals;
use crate::statements::statements;
use cls_tree::opcodes::{ACONST_NULL, RETURN};
use gen_expressions::{Coder, Draft, Symbolic, params, return_of};
use jv_core::{Core, CoreMethod, CoreType};
use mg_text::{List, Memory};
use std::alloc::Global;

/// The code of a method: its instructions, how many operands stand on the stack at most, and how many
/// locals it has.
#[derive(Drop)]
pub struct MethodCode<'a> {
    pub instrs: List<Symbolic<'a>>,
    pub max_stack: u32,
    pub max_locals: u32,
}

// The end of the method, whether it is reached or not.
fn put_end<'a>(coder: &Coder<'a>, draft: &mut Draft<'a>) -> Result<(), Memory>
    ensures { OnOk result (draft_in coder.now draft.new ≡ end_of_method coder.now.core.now (method_in coder.now)
        (method_in coder.now).result (draft_in coder.now draft.old)) }
{
    let result = coder.method.result;
    match result {
        CoreType::Void => return coder.put_plain(draft, RETURN),
        CoreType::Int | CoreType::Boolean | CoreType::Enum(_) => coder.put_int(draft, 0)?,
        CoreType::Text | CoreType::Object(_) => coder.put_plain(draft, ACONST_NULL)?,
    }
    coder.put_plain(draft, return_of(result))
}

// The whole method.
#[tactic(auto, using(crate::proofs::Whole::begins))]
fn draft<'a>(coder: &Coder<'a>) -> Result<Draft<'a>, Memory>
    ensures { IfOk result (λ d. draft_in coder.now d ≡ drafted coder.now.core.now (method_in coder.now)) }
{
    let mut draft = Draft::new(coder.alloc);
    // Label 0 is the beginning.
    draft.labels.push(0)?;
    let mut locals = params(coder.alloc, coder.method.params)?;
    let body = coder.method.body.as_slice();
    statements(coder, &mut draft, &mut locals, &Around::Method, body)?;
    put_end(coder, &mut draft)?;
    Ok(draft)
}

/// The code of a method of a program, as the templates and the rules of frames have it.
///
/// # Errors
/// `Memory` only.
pub fn method_code<'a>(
    alloc: Global,
    core: &'a Core,
    method: &'a CoreMethod,
) -> Result<MethodCode<'a>, Memory>
    ensures code { IfOk result (λ c. IsCode core.now (method_of method.now) (instrs_of core.now c.instrs.items)) }
    ensures stack { IfOk result (λ c. c.max_stack ≡ max_stack core.now (method_of method.now)) }
    ensures locals { IfOk result (λ c. c.max_locals ≡ max_locals (method_of method.now)) }
{
    let coder = Coder {
        alloc,
        core,
        method,
    };
    let max_stack = max_stack(&coder)?;
    let max_locals = max_locals(&coder)?;
    let draft = draft(&coder)?;
    let instrs = aim(alloc, draft.labels.as_slice(), draft.instrs.as_slice())?;
    Ok(MethodCode {
        instrs,
        max_stack,
        max_locals,
    })
}
