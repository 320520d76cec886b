//! Statements with no statement inside: declarations, assignments and `return`.

ghost use Rattle.std.specs.Prelude.{◌≡◌, None as Missing, is_some, option_map, OnOk};
ghost use Rattle.jv_tree.specs.View.{expr_of, stmt_of};
ghost use Rattle.jv_tree.specs.Source.{Local, Assign, Return};
ghost use Rattle.jv_rules.specs.Scope.{declared_named, behind};
ghost use Rattle.jv_rules.specs.Taking.{result_of};
ghost use Rattle.jv_types.specs.inner.Locals.{locals_seen};
ghost use Rattle.jv_types.specs.inner.Scopes.{scope_seen};
ghost use Rattle.jv_types.specs.inner.Stating.{Answers, Extends, stmt_fault, wanted_seen, returned_wanted, written_in, written_seen};

use crate::exprs::check_expr;
use crate::judged::Wrong;
use crate::locals::Locals;
use crate::operands::misfit;
use crate::scope::Scope;
use crate::value_type::{ValueType, meant};
use crate::values::{Wanted, check_value};
use jv_rules::Condition;
use jv_tree::{Expr, Stmt, StmtKind};
use mg_text::{Memory, Place};
use ts_tree::TypeName;

/// Whether a local or a parameter of a name is in scope.
pub(crate) fn is_declared(locals: &Locals<'_>, name: &str) -> bool
    ensures { result ≡ is_some (declared_named (locals_seen locals.now) name.now) }
{
    locals.find(name).is_some()
}

/// Judges the declaration of a local, which is not in scope yet.
pub(crate) fn check_local<'a>(
    scope: &Scope<'_, 'a>,
    locals: &Locals<'a>,
    place: Place,
    ty: &TypeName,
    name: &'a str,
    value: &'a Expr,
) -> Result<(), Wrong<'a>>
    ensures { Answers (stmt_fault (scope_seen scope.now locals.now) (Local place ty.now name.now (expr_of value.now))) result }
{
    let checked = check_expr(scope, locals, value)?;
    if is_declared(locals, name) {
        return Err(Wrong::Fault(Condition::DuplicateLocal, place, name));
    }
    match misfit(meant(scope.table, ty), value, checked.ty) {
        Some(at) => Err(Wrong::Fault(Condition::TypeMismatch, at, "")),
        None => Ok(()),
    }
}

/// Judges an assignment.
pub(crate) fn check_assign<'a>(
    scope: &Scope<'_, 'a>,
    locals: &Locals<'a>,
    place: Place,
    target: &'a Expr,
    value: &'a Expr,
) -> Result<(), Wrong<'a>>
    ensures { Answers (stmt_fault (scope_seen scope.now locals.now) (Assign place (expr_of target.now) (expr_of value.now))) result }
{
    let assigned = check_expr(scope, locals, target)?;
    check_value(scope, locals, value, Wanted::Fitting(assigned.ty))
}

/// What `return` takes in a method.
pub(crate) fn wanted_result<'a>(scope: &Scope<'_, 'a>, locals: &Locals<'a>) -> Wanted<'a>
    ensures { wanted_seen result ≡ returned_wanted (result_of (scope_seen scope.now locals.now)) }
{
    match meant(scope.table, &scope.method.result) {
        ValueType::NoValue => Wanted::Nothing,
        ty => Wanted::Fitting(ty),
    }
}

/// Judges `return` without a value.
#[tactic(auto, using(crate::proofs::StmtSteps::returning))]
pub(crate) fn check_return<'a>(
    scope: &Scope<'_, 'a>,
    locals: &Locals<'a>,
    place: Place,
) -> Result<(), Wrong<'a>>
    ensures { Answers (stmt_fault (scope_seen scope.now locals.now) (Return place Missing)) result }
{
    match wanted_result(scope, locals) {
        Wanted::Nothing => Ok(()),
        Wanted::Fitting(_) => Err(Wrong::Fault(Condition::TypeMismatch, place, "")),
        Wanted::Writable => Err(Wrong::Fault(Condition::TypeMismatch, place, "")),
        Wanted::AnyEnum => Err(Wrong::Fault(Condition::TypeMismatch, place, "")),
    }
}

/// The local that a statement declares.
#[derive(Clone, Copy)]
struct Written<'s> {
    ty: &'s TypeName,
    name: &'s str,
}

// The local that a statement declares.
#[tactic(auto, using(jv_tree::proofs::ViewLaws::views))]
fn written_in(stmt: &Stmt) -> Option<Written<'_>>
    ensures { option_map written_seen result ≡ written_in (stmt_of stmt.now) }
{
    match stmt.kind {
        StmtKind::Local(ref ty, ref name, _) => Some(Written {
            ty,
            name: name.as_str(),
        }),
        StmtKind::Block(_, _) | StmtKind::Empty | StmtKind::Assign(_, _) => None,
        StmtKind::If(_, _, _) | StmtKind::While(_, _, _) | StmtKind::Do(_, _, _) => None,
        StmtKind::Switch(_, _, _) | StmtKind::Break(_) | StmtKind::Continue(_) => None,
        StmtKind::Return(_) | StmtKind::Print(_) | StmtKind::Eval(_) => None,
    }
}

/// Brings the local that a statement declares into scope, once nothing is wrong with the statement.
pub(crate) fn declare_local<'a>(
    scope: &Scope<'_, 'a>,
    locals: &mut Locals<'a>,
    stmt: &'a Stmt,
) -> Result<(), Memory>
    requires { stmt_fault (scope_seen scope.now locals.old) (stmt_of stmt.now) ≡ Missing }
    ensures scope { OnOk result (scope_seen scope.now locals.new ≡ behind (stmt_of stmt.now) (scope_seen scope.now locals.old)) }
    ensures locals { OnOk result (Extends locals.old locals.new) }
{
    match written_in(stmt) {
        Some(local) => locals.declare(local.name, meant(scope.table, local.ty)),
        None => Ok(()),
    }
}
