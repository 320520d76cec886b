//! Literals and constants, and what fields begin with.
//! Contracts see them as trees.

ghost use Rattle.std.specs.Prelude.{◌≡◌, IfOk};
ghost use Rattle.jv_tree.specs.Source.{Member};
ghost use Rattle.jv_tree.specs.View.{expr_of};
ghost use Rattle.jv_core.specs.Tree as Core;
ghost use Rattle.jv_core.specs.View.{expr_of as core_expr};
ghost use Rattle.jv_core.specs.declared.program.CoreType.TheVariants as types;
ghost use Rattle.jv_resolve_law.specs.Expressions.{OfNull, typed, constant, initial};
ghost use Rattle.jv_resolve.specs.inner.Gives.{Gives};
ghost use Rattle.jv_resolve.specs.inner.Seen.{tables_seen, resolved_seen};

use crate::given::{Given, Resolved, Unresolved, expr_at, typed};
use crate::heads::{Head, head_of};
use crate::lookup::enum_named;
use jv_core::{CoreExpr, CoreExprKind, CoreType};
use jv_tree::{Expr, ExprKind};
use jv_types::Table;
use mg_text::{Memory, Place, Text};

/// A number.
pub(crate) fn int(place: Place, value: i32) -> Resolved
    ensures { resolved_seen result ≡ typed (Core.Int place value) types.Int }
{
    typed(place, CoreExprKind::Int(value), CoreType::Int)
}

/// A truth value.
pub(crate) fn truth(place: Place, value: bool) -> Resolved
    ensures { resolved_seen result ≡ typed (Core.Truth place value) types.Boolean }
{
    typed(place, CoreExprKind::Truth(value), CoreType::Boolean)
}

/// A text.
pub(crate) fn quoted(place: Place, text: &Text) -> Result<Resolved, Memory>
    ensures { IfOk result (λ r. resolved_seen r ≡ typed (Core.Text place text.now) types.Text) }
{
    let text = text.copy()?;
    Ok(typed(place, CoreExprKind::Text(text), CoreType::Text))
}

/// `null`
pub(crate) fn null(place: Place) -> Resolved
    ensures { resolved_seen result ≡ record { expr = Core.Null place; given = OfNull } }
{
    Resolved {
        expr: expr_at(place, CoreExprKind::Null),
        given: Given::Null,
    }
}

/// A constant of an enum.
pub(crate) fn constant(
    table: &Table<'_>,
    place: Place,
    of: &str,
    name: &str,
) -> Result<Resolved, Unresolved>
    ensures { Gives resolved_seen result (constant (tables_seen table.now) place of.now name.now) }
{
    let Some(numbered) = enum_named(table, of) else {
        return Err(Unresolved::Fault);
    };
    let Some(position) = numbered.entry.constant_place(name) else {
        return Err(Unresolved::Fault);
    };
    let number = numbered.number;
    Ok(typed(
        place,
        CoreExprKind::Constant {
            of: number,
            position,
        },
        CoreType::Enum(number),
    ))
}

/// What a field begins with: a number, a truth value, a text, `null` or a constant of an enum.
#[tactic(auto, using(jv_tree::proofs::ViewLaws::views))]
pub(crate) fn resolve_initial(table: &Table<'_>, value: &Expr) -> Result<CoreExpr, Unresolved>
    ensures { Gives core_expr result (initial (tables_seen table.now) (expr_of value.now)) }
{
    let place = value.place;
    match value.kind {
        ExprKind::Int(value) => Ok(int(place, value).expr),
        ExprKind::Truth(value) => Ok(truth(place, value).expr),
        ExprKind::Text(ref text) => Ok(quoted(place, text)?.expr),
        ExprKind::Null => Ok(null(place).expr),
        ExprKind::Member(ref of, ref name) => initial_member(table, place, of, name.as_str()),
        ExprKind::This | ExprKind::Name(_) | ExprKind::Neg(_) => Err(Unresolved::Fault),
        ExprKind::Not(_) | ExprKind::Binary(_, _, _) | ExprKind::Call(_, _) => {
            Err(Unresolved::Fault)
        }
        ExprKind::MethodCall(_, _, _) | ExprKind::New(_) => Err(Unresolved::Fault),
    }
}

// `E.name`, a constant of an enum.
fn initial_member(
    table: &Table<'_>,
    place: Place,
    of: &Expr,
    name: &str,
) -> Result<CoreExpr, Unresolved>
    ensures { Gives core_expr result (initial (tables_seen table.now) (Member place (expr_of of.now) name.now)) }
{
    match head_of(of) {
        Head::Name(first) => {
            let resolved = constant(table, place, first, name)?;
            Ok(resolved.expr)
        }
        Head::This => Err(Unresolved::Fault),
        Head::Other => Err(Unresolved::Fault),
    }
}
