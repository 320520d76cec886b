//! Statements.
//! Contracts see them as trees, and what they are resolved to.

ghost use Rattle.std.specs.Prelude.{◌≡◌, OnOk, map};
ghost use Rattle.jv_tree.specs.View.{enum_of, stmt_of as source_stmt, stmts_of as source_stmts, group_of as source_group};
ghost use Rattle.jv_tree.specs.View.{groups_of as source_groups};
ghost use Rattle.jv_core.specs.View.{stmt_of, group_of};
ghost use Rattle.jv_resolve_law.specs.Statements.{stmt as meant, stmts as all_meant, groups as groups_meant};
ghost use Rattle.jv_resolve.specs.inner.Counted.{counted_seen, counting, itemed, item_at, group_at};
ghost use Rattle.jv_resolve.specs.inner.Gives.{Gives};
ghost use Rattle.jv_resolve.specs.inner.Seen.{tables_seen, standing_seen, around_seen};

use crate::body::Body;
use crate::exprs::{resolve_expr, resolve_operand};
use crate::given::{Unresolved, boxed, stmt_at};
use crate::labels::{enum_of, resolve_labels};
use crate::scope::{Around, Scope};
use crate::simple::{
    assigned, broken, continued, evaluated, label_of, local_stmt, printed, resolve_declaration,
    returned,
};
use crate::written::{resolve_local, written_in};
use jv_core::{CoreGroup, CoreStmt, CoreStmtKind};
use jv_tree::{Group, Stmt, StmtKind};
use jv_types::EnumEntry;
use mg_text::List;

/// Statements, each declaration with those behind it in its scope.
#[cycle(stmts)]
pub(crate) fn resolve_stmts<'a>(
    scope: &Scope<'_, 'a>,
    around: &Around<'_>,
    body: &mut Body<'a>,
    stmts: &'a [Stmt],
) -> Result<List<CoreStmt>, Unresolved>
    ensures it { Gives (λ l. counting (map stmt_of l.items) (counted_seen body.new)) result
        (all_meant (tables_seen scope.now.table.now) (standing_seen scope.now) (source_stmts (map source_stmt stmts.now))
        (around_seen around.now) body.old.locals (counted_seen body.old)) }
    ensures locals { OnOk result (body.new.locals ≡ body.old.locals) }
{
    let outer = body.locals.len();
    let mut resolved = List::new(scope.alloc);
    for stmt in stmts {
        let stmt = resolve_item(scope, around, body, stmt)?;
        resolved.push(stmt)?;
    }
    body.locals.truncate(outer);
    Ok(resolved)
}

// A statement of a block. A declaration is in scope from then on.
#[cycle(stmts)]
fn resolve_item<'a>(
    scope: &Scope<'_, 'a>,
    around: &Around<'_>,
    body: &mut Body<'a>,
    stmt: &'a Stmt,
) -> Result<CoreStmt, Unresolved>
    ensures { Gives (λ s. itemed (stmt_of s) body.new.locals (counted_seen body.new)) result
        (item_at (tables_seen scope.now.table.now) (standing_seen scope.now) (source_stmt stmt.now) (around_seen around.now)
        body.old.locals (counted_seen body.old)) }
{
    match written_in(stmt) {
        Some(written) => resolve_local(scope, body, written),
        None => resolve_stmt(scope, around, body, stmt),
    }
}

// A statement. Nothing is in the scope of a declaration that stands alone.
#[cycle(stmts)]
fn resolve_stmt<'a>(
    scope: &Scope<'_, 'a>,
    around: &Around<'_>,
    body: &mut Body<'a>,
    stmt: &'a Stmt,
) -> Result<CoreStmt, Unresolved>
    ensures it { Gives (λ s. counting (stmt_of s) (counted_seen body.new)) result
        (meant (tables_seen scope.now.table.now) (standing_seen scope.now) (source_stmt stmt.now) (around_seen around.now) body.old.locals
        (counted_seen body.old)) }
    ensures locals { OnOk result (body.new.locals ≡ body.old.locals) }
{
    let place = stmt.place;
    match stmt.kind {
        StmtKind::Block(ref inner, end) => {
            let inner = resolve_stmts(scope, around, body, inner.as_slice())?;
            Ok(stmt_at(place, CoreStmtKind::Block(inner, end)))
        }
        StmtKind::Empty => Ok(stmt_at(place, CoreStmtKind::Empty)),
        StmtKind::Local(ref ty, ref name, ref value) => {
            let declared = resolve_declaration(scope, body, place, ty, name.as_str(), value)?;
            Ok(local_stmt(declared))
        }
        StmtKind::Assign(ref target, ref value) => assigned(scope, body, place, target, value),
        // A test numbers nothing, so it may come last.
        StmtKind::If(ref test, ref then, ref otherwise) => match otherwise {
            None => {
                let then = resolve_inner(scope, around, body, then)?;
                let test = resolve_expr(scope, &body.locals, test)?;
                Ok(stmt_at(place, CoreStmtKind::If(test.expr, then, None)))
            }
            Some(otherwise) => {
                let then = resolve_inner(scope, around, body, then)?;
                let otherwise = resolve_inner(scope, around, body, otherwise)?;
                let test = resolve_expr(scope, &body.locals, test)?;
                let kind = CoreStmtKind::If(test.expr, then, Some(otherwise));
                Ok(stmt_at(place, kind))
            }
        },
        StmtKind::While(ref label, ref test, ref inner) => {
            let number = body.add_loop(scope.alloc, place)?;
            let within = Around::Loop(label_of(label), number, &*around);
            let inner = resolve_inner(scope, &within, body, inner)?;
            let test = resolve_expr(scope, &body.locals, test)?;
            Ok(stmt_at(place, CoreStmtKind::While(number, test.expr, inner)))
        }
        StmtKind::Do(ref label, ref inner, ref test) => {
            let number = body.add_loop(scope.alloc, place)?;
            let within = Around::Loop(label_of(label), number, &*around);
            let inner = resolve_inner(scope, &within, body, inner)?;
            let test = resolve_expr(scope, &body.locals, test)?;
            Ok(stmt_at(place, CoreStmtKind::Do(number, inner, test.expr)))
        }
        StmtKind::Switch(ref value, ref groups, end) => {
            let value = resolve_operand(scope, &body.locals, value)?;
            let of = enum_of(scope, value.given)?;
            let within = Around::Switch(&*around);
            let groups = resolve_groups(scope, &within, body, of, groups.as_slice())?;
            let kind = CoreStmtKind::Switch(Box::into_inner(value.expr), groups, end);
            Ok(stmt_at(place, kind))
        }
        StmtKind::Break(ref label) => broken(scope, around, body, place, label),
        StmtKind::Continue(ref label) => continued(scope, around, body, place, label),
        StmtKind::Return(ref value) => returned(scope, body, place, value),
        StmtKind::Print(ref value) => printed(scope, body, place, value),
        StmtKind::Eval(ref value) => evaluated(scope, body, place, value),
    }
}

// A statement inside another one, in a box.
#[cycle(stmts)]
fn resolve_inner<'a>(
    scope: &Scope<'_, 'a>,
    around: &Around<'_>,
    body: &mut Body<'a>,
    stmt: &'a Stmt,
) -> Result<Box<CoreStmt>, Unresolved>
    ensures it { Gives (λ s. counting (stmt_of s.value) (counted_seen body.new)) result
        (meant (tables_seen scope.now.table.now) (standing_seen scope.now) (source_stmt stmt.now) (around_seen around.now) body.old.locals
        (counted_seen body.old)) }
    ensures locals { OnOk result (body.new.locals ≡ body.old.locals) }
{
    let resolved = resolve_stmt(scope, around, body, stmt)?;
    Ok(boxed(scope.alloc, resolved)?)
}

// The groups of a switch over an enum. A local's scope ends with its group.
#[cycle(stmts)]
fn resolve_groups<'a>(
    scope: &Scope<'_, 'a>,
    around: &Around<'_>,
    body: &mut Body<'a>,
    of: &EnumEntry<'_>,
    groups: &'a [Group],
) -> Result<List<CoreGroup>, Unresolved>
    ensures it { Gives (λ l. counting (map group_of l.items) (counted_seen body.new)) result
        (groups_meant (tables_seen scope.now.table.now) (standing_seen scope.now) (source_groups (map source_group groups.now))
        (enum_of of.now.of.now) (around_seen around.now) body.old.locals (counted_seen body.old)) }
    ensures locals { OnOk result (body.new.locals ≡ body.old.locals) }
{
    let mut resolved = List::new(scope.alloc);
    for group in groups {
        let group = resolve_group(scope, around, body, of, group)?;
        resolved.push(group)?;
    }
    Ok(resolved)
}

// A group.
#[cycle(stmts)]
fn resolve_group<'a>(
    scope: &Scope<'_, 'a>,
    around: &Around<'_>,
    body: &mut Body<'a>,
    of: &EnumEntry<'_>,
    group: &'a Group,
) -> Result<CoreGroup, Unresolved>
    ensures it { Gives (λ g. counting (group_of g) (counted_seen body.new)) result
        (group_at (tables_seen scope.now.table.now) (standing_seen scope.now) (source_group group.now) (enum_of of.now.of.now)
        (around_seen around.now) body.old.locals (counted_seen body.old)) }
    ensures locals { OnOk result (body.new.locals ≡ body.old.locals) }
{
    let labels = resolve_labels(scope.alloc, of, group.labels.as_slice())?;
    let inner = resolve_stmts(scope, around, body, group.body.as_slice())?;
    Ok(CoreGroup {
        labels,
        body: inner,
        end: group.end,
    })
}
