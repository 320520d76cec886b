//! Statements, one after another.
//! A local is in scope behind its declaration, up to the end of its list.

ghost use Rattle.std.specs.Prelude.{◌≡◌, OnOk, map};
ghost use Rattle.jv_core.specs.View.{expr_of, stmt_of, stmts_of, group_of, groups_of};
ghost use Rattle.gen_expressions.specs.Held.{draft_in, method_in};
ghost use Rattle.gen_symbolic.specs.inner.Held.{around_of, with_slot};
ghost use Rattle.gen_expressions.specs.Drafting.{value};
ghost use Rattle.gen_symbolic.specs.inner.Drafting.{assign, statement, statements, groups, alone, returned, printed, evaluated};
ghost use Rattle.gen_symbolic.specs.inner.Drafting.{if_true, if_else, while_true, do_while, switch};

use crate::around::Around;
use crate::locals_of::declared;
use crate::switches::{next_label, put_table};
use cls_tree::opcodes::{GETSTATIC, GOTO, INVOKEVIRTUAL, PUTFIELD, RETURN};
use gen_expressions::{Coder, Draft, Locals, Operand, return_of};
use jv_core::{CoreExpr, CoreGroup, CoreStmt, CoreStmtKind, Var};
use mg_text::Memory;
use vm_model::Built;

// A slot that is declared is in scope.
fn declare(locals: &mut Locals, slot: Option<u32>) -> Result<(), Memory>
    ensures { OnOk result (locals.new ≡ with_slot slot locals.old) }
{
    match slot {
        Some(slot) => locals.declare(slot),
        None => Ok(()),
    }
}

/// A statement. The slots in scope stay as they are, that of a declaration included.
///
/// # Errors
/// `Memory` only.
#[tactic(auto, using(gen_expressions::proofs::Seen::seen))]
#[cycle(statements)]
pub(crate) fn statement<'a>(
    coder: &Coder<'a>,
    draft: &mut Draft<'a>,
    locals: &mut Locals,
    around: &Around<'_>,
    stmt: &'a CoreStmt,
) -> Result<(), Memory>
    ensures draft { OnOk result (draft_in coder.now draft.new ≡ statement coder.now.core.now (method_in coder.now) locals.old
        (around_of around.now) (stmt_of stmt.now) (draft_in coder.now draft.old)) }
    ensures kept { OnOk result (locals.new ≡ locals.old) }
{
    match &stmt.kind {
        CoreStmtKind::Block(body, _) => statements(coder, draft, locals, around, body.as_slice()),
        CoreStmtKind::Empty => Ok(()),
        CoreStmtKind::Local(slot, value) => local_alone(coder, draft, locals, *slot, value),
        CoreStmtKind::Assign(target, value) => assign(coder, draft, locals, target.var, value),
        CoreStmtKind::If(condition, inner, otherwise) => match otherwise {
            None => if_true(coder, draft, locals, around, condition, inner),
            Some(otherwise) => {
                if_else(coder, draft, locals, around, condition, inner, otherwise)
            }
        },
        CoreStmtKind::While(number, condition, inner) => {
            while_true(coder, draft, locals, around, *number, condition, inner)
        }
        CoreStmtKind::Do(number, inner, condition) => {
            do_while(coder, draft, locals, around, *number, inner, condition)
        }
        CoreStmtKind::Switch(value, groups, _) => {
            switch(coder, draft, locals, around, groups.as_slice(), value)
        }
        CoreStmtKind::Break(number) => coder.put_jump(draft, GOTO, around.break_to(*number)),
        CoreStmtKind::Continue(number) => {
            coder.put_jump(draft, GOTO, around.continue_to(*number))
        }
        CoreStmtKind::Return(value) => match value {
            None => coder.put_plain(draft, RETURN),
            Some(value) => return_value(coder, draft, locals, value),
        },
        CoreStmtKind::Print(value) => print(coder, draft, locals, value),
        CoreStmtKind::Eval(value) => evaluate(coder, draft, locals, value),
    }
}

/// Statements in their order.
#[tactic(auto, using(crate::proofs::Stating::written))]
#[cycle(statements)]
pub(crate) fn statements<'a>(
    coder: &Coder<'a>,
    draft: &mut Draft<'a>,
    locals: &mut Locals,
    around: &Around<'_>,
    stmts: &'a [CoreStmt],
) -> Result<(), Memory>
    ensures draft { OnOk result (draft_in coder.now draft.new ≡ statements coder.now.core.now (method_in coder.now) locals.old
        (around_of around.now) (stmts_of (map stmt_of stmts.now)) (draft_in coder.now draft.old)) }
    ensures kept { OnOk result (locals.new ≡ locals.old) }
{
    let outer = locals.len();
    for stmt in stmts {
        statement(coder, draft, locals, around, stmt)?;
        declare(locals, declared(stmt))?;
    }
    locals.truncate(outer);
    Ok(())
}

// The first value of a local, which takes the next free one.
fn local_alone<'a>(
    coder: &Coder<'a>,
    draft: &mut Draft<'a>,
    locals: &Locals,
    slot: u32,
    value: &'a CoreExpr,
) -> Result<(), Memory>
    ensures { OnOk result (draft_in coder.now draft.new ≡ alone coder.now.core.now (method_in coder.now) locals.now slot
        (expr_of value.now) (draft_in coder.now draft.old)) }
{
    coder.value(draft, locals, value)?;
    let local = locals.next(coder.method.kind)?;
    coder.put_store(draft, coder.type_of_slot(slot), local)
}

// A variable takes a value.
fn assign<'a>(
    coder: &Coder<'a>,
    draft: &mut Draft<'a>,
    locals: &Locals,
    target: Var,
    source: &'a CoreExpr,
) -> Result<(), Memory>
    ensures { OnOk result (draft_in coder.now draft.new ≡ assign coder.now.core.now (method_in coder.now) locals.now target
        (value coder.now.core.now (method_in coder.now) locals.now (expr_of source.now)) (draft_in coder.now draft.old)) }
{
    match target {
        Var::Slot(slot) => {
            coder.value(draft, locals, source)?;
            coder.put_slot(draft, locals, slot)
        }
        Var::Field(field) => {
            coder.put_own(draft)?;
            coder.value(draft, locals, source)?;
            coder.put_field(draft, PUTFIELD, field)
        }
    }
}

// A value that is returned.
fn return_value<'a>(
    coder: &Coder<'a>,
    draft: &mut Draft<'a>,
    locals: &Locals,
    value: &'a CoreExpr,
) -> Result<(), Memory>
    ensures { OnOk result (draft_in coder.now draft.new ≡ returned coder.now.core.now (method_in coder.now) locals.now
        (expr_of value.now) (draft_in coder.now draft.old)) }
{
    coder.value(draft, locals, value)?;
    coder.put_plain(draft, return_of(coder.method.result))
}

// A value that is printed.
fn print<'a>(
    coder: &Coder<'a>,
    draft: &mut Draft<'a>,
    locals: &Locals,
    value: &'a CoreExpr,
) -> Result<(), Memory>
    ensures { OnOk result (draft_in coder.now draft.new ≡ printed coder.now.core.now (method_in coder.now) locals.now
        (expr_of value.now) (draft_in coder.now draft.old)) }
{
    coder.put(draft, GETSTATIC, Operand::BuiltIn(Built::Out))?;
    coder.value(draft, locals, value)?;
    coder.put_text_of(draft, coder.type_of(value))?;
    coder.put(draft, INVOKEVIRTUAL, Operand::BuiltIn(Built::Println))
}

// A value that is dropped.
fn evaluate<'a>(
    coder: &Coder<'a>,
    draft: &mut Draft<'a>,
    locals: &Locals,
    value: &'a CoreExpr,
) -> Result<(), Memory>
    ensures { OnOk result (draft_in coder.now draft.new ≡ evaluated coder.now.core.now (method_in coder.now) locals.now
        (expr_of value.now) (draft_in coder.now draft.old)) }
{
    coder.value(draft, locals, value)?;
    coder.put_discard(draft, coder.type_of(value))
}

// `if` without `else`.
#[cycle(statements)]
fn if_true<'a>(
    coder: &Coder<'a>,
    draft: &mut Draft<'a>,
    locals: &mut Locals,
    around: &Around<'_>,
    condition: &'a CoreExpr,
    inner: &'a CoreStmt,
) -> Result<(), Memory>
    ensures draft { OnOk result (draft_in coder.now draft.new ≡ if_true coder.now.core.now (method_in coder.now) locals.old
        (around_of around.now) (expr_of condition.now) (stmt_of inner.now) (draft_in coder.now draft.old)) }
    ensures kept { OnOk result (locals.new ≡ locals.old) }
{
    let end = coder.open(draft)?;
    coder.jump(draft, locals, condition, false, end)?;
    statement(coder, draft, locals, around, inner)?;
    coder.close(draft, end)
}

// `if` with `else`.
#[cycle(statements)]
fn if_else<'a>(
    coder: &Coder<'a>,
    draft: &mut Draft<'a>,
    locals: &mut Locals,
    around: &Around<'_>,
    condition: &'a CoreExpr,
    inner: &'a CoreStmt,
    otherwise: &'a CoreStmt,
) -> Result<(), Memory>
    ensures draft { OnOk result (draft_in coder.now draft.new ≡ if_else coder.now.core.now (method_in coder.now) locals.old
        (around_of around.now) (expr_of condition.now) (stmt_of inner.now) (stmt_of otherwise.now) (draft_in coder.now draft.old)) }
    ensures kept { OnOk result (locals.new ≡ locals.old) }
{
    let end = coder.open(draft)?;
    let fails = coder.open(draft)?;
    coder.jump(draft, locals, condition, false, fails)?;
    statement(coder, draft, locals, around, inner)?;
    coder.put_jump(draft, GOTO, end)?;
    coder.close(draft, fails)?;
    statement(coder, draft, locals, around, otherwise)?;
    coder.close(draft, end)
}

// A loop whose condition stands in front.
#[cycle(statements)]
fn while_true<'a>(
    coder: &Coder<'a>,
    draft: &mut Draft<'a>,
    locals: &mut Locals,
    around: &Around<'_>,
    number: u32,
    condition: &'a CoreExpr,
    inner: &'a CoreStmt,
) -> Result<(), Memory>
    ensures draft { OnOk result (draft_in coder.now draft.new ≡ while_true coder.now.core.now (method_in coder.now) locals.old
        (around_of around.now) number (expr_of condition.now) (stmt_of inner.now) (draft_in coder.now draft.old)) }
    ensures kept { OnOk result (locals.new ≡ locals.old) }
{
    let head = coder.mark(draft)?;
    let end = coder.open(draft)?;
    coder.jump(draft, locals, condition, false, end)?;
    let within = Around::Loop(number, end, head, &*around);
    statement(coder, draft, locals, &within, inner)?;
    coder.put_jump(draft, GOTO, head)?;
    coder.close(draft, end)
}

// A loop whose condition stands behind.
#[cycle(statements)]
fn do_while<'a>(
    coder: &Coder<'a>,
    draft: &mut Draft<'a>,
    locals: &mut Locals,
    around: &Around<'_>,
    number: u32,
    inner: &'a CoreStmt,
    condition: &'a CoreExpr,
) -> Result<(), Memory>
    ensures draft { OnOk result (draft_in coder.now draft.new ≡ do_while coder.now.core.now (method_in coder.now) locals.old
        (around_of around.now) number (stmt_of inner.now) (expr_of condition.now) (draft_in coder.now draft.old)) }
    ensures kept { OnOk result (locals.new ≡ locals.old) }
{
    let head = coder.mark(draft)?;
    let end = coder.open(draft)?;
    let test = coder.open(draft)?;
    let within = Around::Loop(number, end, test, &*around);
    statement(coder, draft, locals, &within, inner)?;
    coder.close(draft, test)?;
    coder.jump(draft, locals, condition, true, head)?;
    coder.close(draft, end)
}

// A `switch`.
#[tactic(auto, using(crate::proofs::Stating::switches))]
#[cycle(statements)]
fn switch<'a>(
    coder: &Coder<'a>,
    draft: &mut Draft<'a>,
    locals: &mut Locals,
    around: &Around<'_>,
    list: &'a [CoreGroup],
    value: &'a CoreExpr,
) -> Result<(), Memory>
    ensures draft { OnOk result (draft_in coder.now draft.new ≡ switch coder.now.core.now (method_in coder.now) locals.old
        (around_of around.now) (expr_of value.now) (groups_of (map group_of list.now)) (draft_in coder.now draft.old)) }
    ensures kept { OnOk result (locals.new ≡ locals.old) }
{
    let end = coder.open(draft)?;
    coder.value(draft, locals, value)?;
    let first = coder.open_all(draft, list.len())?;
    put_table(coder, draft, list, first, end, coder.constants(value))?;
    let within = Around::Switch(end, &*around);
    groups(coder, draft, locals, &within, list, first)?;
    coder.close(draft, end)
}

// The groups of a `switch`, which begin at labels from the first on.
#[tactic(auto, using(crate::proofs::Stating::grouped))]
#[cycle(statements)]
fn groups<'a>(
    coder: &Coder<'a>,
    draft: &mut Draft<'a>,
    locals: &mut Locals,
    around: &Around<'_>,
    list: &'a [CoreGroup],
    first: u32,
) -> Result<(), Memory>
    ensures draft { OnOk result (draft_in coder.now draft.new ≡ groups coder.now.core.now (method_in coder.now) locals.old
        (around_of around.now) (groups_of (map group_of list.now)) first (draft_in coder.now draft.old)) }
    ensures kept { OnOk result (locals.new ≡ locals.old) }
{
    let mut label = first;
    for group in list {
        coder.close(draft, label)?;
        statements(coder, draft, locals, around, group.body.as_slice())?;
        label = next_label(label)?;
    }
    Ok(())
}
