//! Statements: the first fault in one.
//! A local is in scope behind its declaration, up to the end of its list.

ghost use Rattle.std.specs.Prelude.{◌≡◌, map, OnOk};
ghost use Rattle.jv_tree.specs.View.{stmt_of, stmts_of, group_of, groups_of};
ghost use Rattle.jv_rules.specs.Scope.{Loop, within};
ghost use Rattle.jv_rules.specs.Scope as targets;
ghost use Rattle.jv_types.specs.inner.Scopes.{scope_seen};
ghost use Rattle.jv_types.specs.inner.Stating.{Answers, stmt_fault, stmts_fault, groups_fault};

use crate::exprs::check_expr;
use crate::heads::check_loop;
use crate::judged::Wrong;
use crate::jumps::{check_break, check_continue, label_text};
use crate::locals::Locals;
use crate::scope::{Around, Scope};
use crate::simple::{check_assign, check_local, check_return, declare_local, wanted_result};
use crate::switches::check_choice;
use crate::value_type::ValueType;
use crate::values::{Wanted, check_value};
use jv_tree::{Group, Stmt, StmtKind};
use mg_text::Text;

/// Judges a statement. The locals in scope stay as they are, that of a declaration included.
#[cycle(stmts)]
pub(crate) fn check_stmt<'a>(
    scope: &Scope<'_, 'a>,
    locals: &mut Locals<'a>,
    stmt: &'a Stmt,
) -> Result<(), Wrong<'a>>
    ensures told { Answers (stmt_fault (scope_seen scope.now locals.old) (stmt_of stmt.now)) result }
    ensures kept { OnOk result (locals.new ≡ locals.old) }
{
    let place = stmt.place;
    match stmt.kind {
        StmtKind::Block(ref body, _) => check_stmts(scope, locals, body.as_slice()),
        StmtKind::Empty => Ok(()),
        StmtKind::Local(ref ty, ref name, ref value) => check_local(
            scope,
            locals,
            place,
            ty,
            name.as_str(),
            value,
        ),
        StmtKind::Assign(ref target, ref value) => check_assign(
            scope, locals, place, target, value,
        ),
        StmtKind::If(ref condition, ref inner, ref otherwise) => {
            check_value(
                scope,
                locals,
                condition,
                Wanted::Fitting(ValueType::Boolean),
            )?;
            match otherwise {
                None => check_stmt(scope, locals, inner),
                Some(otherwise) => {
                    check_stmt(scope, locals, inner)?;
                    check_stmt(scope, locals, otherwise)
                }
            }
        }
        StmtKind::While(ref label, ref condition, ref inner) => {
            check_loop(scope, locals, place, label, condition)?;
            check_inner(scope, locals, label, inner)
        }
        StmtKind::Do(ref label, ref inner, ref condition) => {
            check_inner(scope, locals, label, inner)?;
            check_loop(scope, locals, place, label, condition)
        }
        StmtKind::Switch(ref value, ref groups, _) => {
            let groups = groups.as_slice();
            check_choice(scope, locals, place, value, groups)?;
            check_groups(scope, locals, groups)
        }
        StmtKind::Break(ref label) => check_break(scope, locals, place, label),
        StmtKind::Continue(ref label) => check_continue(scope, locals, place, label),
        StmtKind::Return(ref value) => match value {
            None => check_return(scope, locals, place),
            Some(value) => {
                let wanted = wanted_result(scope, locals);
                check_value(scope, locals, value, wanted)
            }
        },
        StmtKind::Print(ref value) => check_value(scope, locals, value, Wanted::Writable),
        StmtKind::Eval(ref value) => {
            check_expr(scope, locals, value)?;
            Ok(())
        }
    }
}

// Judges the statement of a loop.
#[cycle(stmts)]
fn check_inner<'a>(
    scope: &Scope<'_, 'a>,
    locals: &mut Locals<'a>,
    label: &Option<Text>,
    stmt: &'a Stmt,
) -> Result<(), Wrong<'a>>
    ensures told { Answers (stmt_fault (within (Loop label.now) (scope_seen scope.now locals.old)) (stmt_of stmt.now)) result }
    ensures kept { OnOk result (locals.new ≡ locals.old) }
{
    let around = Around::Loop(label_text(label), &*scope.around);
    let within = (&*scope).within(&around);
    check_stmt(&within, locals, stmt)
}

/// Judges statements in their order.
#[cycle(stmts)]
pub(crate) fn check_stmts<'a>(
    scope: &Scope<'_, 'a>,
    locals: &mut Locals<'a>,
    stmts: &'a [Stmt],
) -> Result<(), Wrong<'a>>
    ensures told { Answers (stmts_fault (scope_seen scope.now locals.old) (stmts_of (map stmt_of stmts.now))) result }
    ensures kept { OnOk result (locals.new ≡ locals.old) }
{
    let outer = locals.len();
    for stmt in stmts {
        check_stmt(scope, locals, stmt)?;
        declare_local(scope, locals, stmt)?;
    }
    locals.truncate(outer);
    Ok(())
}

// Judges the groups of a switch, in their switch. A local is not in scope in the next group.
#[cycle(stmts)]
fn check_groups<'a>(
    scope: &Scope<'_, 'a>,
    locals: &mut Locals<'a>,
    groups: &'a [Group],
) -> Result<(), Wrong<'a>>
    ensures told { Answers (groups_fault (within targets.Switch (scope_seen scope.now locals.old)) (groups_of (map group_of groups.now)))
        result }
    ensures kept { OnOk result (locals.new ≡ locals.old) }
{
    let around = Around::Switch(&*scope.around);
    let within = (&*scope).within(&around);
    for group in groups {
        check_stmts(&within, locals, group.body.as_slice())?;
    }
    Ok(())
}
