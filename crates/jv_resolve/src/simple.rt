//! Statements without inner ones.
//! Contracts see them as trees, and what they are resolved to.

ghost use Rattle.std.specs.Prelude.{◌≡◌, [], option_map};
ghost use Rattle.jv_tree.specs.Source.{Assign, Break, Continue, Return, Print, Eval};
ghost use Rattle.jv_tree.specs.View.{expr_of};
ghost use Rattle.jv_core.specs.Tree as Core;
ghost use Rattle.jv_core.specs.View.{expr_of as core_expr, stmt_of};
ghost use Rattle.jv_resolve_law.specs.Statements.{stmt, local, given_back};
ghost use Rattle.jv_resolve.specs.inner.Counted.{counted_seen, counting};
ghost use Rattle.jv_resolve.specs.inner.Declaring.{declaration_seen};
ghost use Rattle.jv_resolve.specs.inner.Gives.{Gives};
ghost use Rattle.jv_resolve.specs.inner.Seen.{tables_seen, standing_seen, around_seen};

use crate::body::Body;
use crate::exprs::resolve_expr;
use crate::given::{Unresolved, stmt_at};
use crate::scope::{Around, Scope, gone_on_by, left_by};
use crate::targets::target_of;
use jv_core::{CoreExpr, CoreStmt, CoreStmtKind};
use jv_scope::Local;
use jv_tree::Expr;
use mg_text::{Place, Text};
use ts_tree::TypeName;

/// A declaration: its place, its local and its first value.
#[derive(Drop)]
pub(crate) struct Declaration {
    pub place: Place,
    pub local: Local,
    pub value: CoreExpr,
}

/// A declaration. Its local isn't in scope yet.
pub(crate) fn resolve_declaration(
    scope: &Scope<'_, '_>,
    body: &mut Body<'_>,
    place: Place,
    ty: &TypeName,
    name: &str,
    value: &Expr,
) -> Result<Declaration, Unresolved>
    ensures it { Gives (λ d. declaration_seen name.now d (counted_seen body.new)) result
        (local (tables_seen scope.now.table.now) (standing_seen scope.now) place ty.now name.now (expr_of value.now) body.old.locals
        (counted_seen body.old)) }
    ensures locals { body.new.locals ≡ body.old.locals }
{
    let local = body.add_slot(scope.table, ty, name)?;
    let value = resolve_expr(scope, &body.locals, value)?;
    Ok(Declaration {
        place,
        local,
        value: value.expr,
    })
}

/// The statement of a declaration.
pub(crate) fn local_stmt(declaration: Declaration) -> CoreStmt
    ensures { stmt_of result ≡ Core.Local declaration.place declaration.local.slot (core_expr declaration.value) }
{
    let slot = declaration.local.slot;
    stmt_at(
        declaration.place,
        CoreStmtKind::Local(slot, declaration.value),
    )
}

/// An assignment.
pub(crate) fn assigned(
    scope: &Scope<'_, '_>,
    body: &Body<'_>,
    place: Place,
    target: &Expr,
    value: &Expr,
) -> Result<CoreStmt, Unresolved>
    ensures { Gives (λ s. counting (stmt_of s) (counted_seen body.now)) result
        (stmt (tables_seen scope.now.table.now) (standing_seen scope.now) (Assign place (expr_of target.now) (expr_of value.now))
        [] body.now.locals (counted_seen body.now)) }
{
    let target = target_of(scope, body, target)?;
    let value = resolve_expr(scope, &body.locals, value)?;
    Ok(stmt_at(place, CoreStmtKind::Assign(target, value.expr)))
}

/// `return`
pub(crate) fn returned(
    scope: &Scope<'_, '_>,
    body: &Body<'_>,
    place: Place,
    value: &Option<Expr>,
) -> Result<CoreStmt, Unresolved>
    ensures { Gives (λ s. counting (stmt_of s) (counted_seen body.now)) result
        (stmt (tables_seen scope.now.table.now) (standing_seen scope.now) (Return place (option_map expr_of value.now)) [] body.now.locals
        (counted_seen body.now)) }
{
    let value = given_back(scope, body, value)?;
    Ok(stmt_at(place, CoreStmtKind::Return(value)))
}

// The value of a `return`.
fn given_back(
    scope: &Scope<'_, '_>,
    body: &Body<'_>,
    value: &Option<Expr>,
) -> Result<Option<CoreExpr>, Unresolved>
    ensures { Gives (option_map core_expr) result (given_back (tables_seen scope.now.table.now) (standing_seen scope.now) body.now.locals
        (option_map expr_of value.now)) }
{
    match value {
        None => Ok(None),
        Some(value) => {
            let value = resolve_expr(scope, &body.locals, value)?;
            Ok(Some(value.expr))
        }
    }
}

/// `System.out.println(..);`
pub(crate) fn printed(
    scope: &Scope<'_, '_>,
    body: &Body<'_>,
    place: Place,
    value: &Expr,
) -> Result<CoreStmt, Unresolved>
    ensures { Gives (λ s. counting (stmt_of s) (counted_seen body.now)) result
        (stmt (tables_seen scope.now.table.now) (standing_seen scope.now) (Print place (expr_of value.now)) [] body.now.locals
        (counted_seen body.now)) }
{
    let value = resolve_expr(scope, &body.locals, value)?;
    Ok(stmt_at(place, CoreStmtKind::Print(value.expr)))
}

/// A call or `new`, whose value is dropped.
pub(crate) fn evaluated(
    scope: &Scope<'_, '_>,
    body: &Body<'_>,
    place: Place,
    value: &Expr,
) -> Result<CoreStmt, Unresolved>
    ensures { Gives (λ s. counting (stmt_of s) (counted_seen body.now)) result
        (stmt (tables_seen scope.now.table.now) (standing_seen scope.now) (Eval place (expr_of value.now)) [] body.now.locals
        (counted_seen body.now)) }
{
    let value = resolve_expr(scope, &body.locals, value)?;
    Ok(stmt_at(place, CoreStmtKind::Eval(value.expr)))
}

/// `break`
pub(crate) fn broken(
    scope: &Scope<'_, '_>,
    around: &Around<'_>,
    body: &Body<'_>,
    place: Place,
    label: &Option<Text>,
) -> Result<CoreStmt, Unresolved>
    ensures { Gives (λ s. counting (stmt_of s) (counted_seen body.now)) result
        (stmt (tables_seen scope.now.table.now) (standing_seen scope.now) (Break place label.now) (around_seen around.now) body.now.locals
        (counted_seen body.now)) }
{
    let number = left_by(around, label_of(label))?;
    Ok(stmt_at(place, CoreStmtKind::Break(number)))
}

/// `continue`
pub(crate) fn continued(
    scope: &Scope<'_, '_>,
    around: &Around<'_>,
    body: &Body<'_>,
    place: Place,
    label: &Option<Text>,
) -> Result<CoreStmt, Unresolved>
    ensures { Gives (λ s. counting (stmt_of s) (counted_seen body.now)) result
        (stmt (tables_seen scope.now.table.now) (standing_seen scope.now) (Continue place label.now) (around_seen around.now)
        body.now.locals (counted_seen body.now)) }
{
    let number = gone_on_by(around, label_of(label))?;
    Ok(stmt_at(place, CoreStmtKind::Continue(number)))
}

/// A label that is written, or none.
pub(crate) fn label_of(label: &Option<Text>) -> Option<&str>
    ensures { option_map (λ l. l.now) result ≡ label.now }
{
    match label {
        None => None,
        Some(label) => Some(label.as_str()),
    }
}
