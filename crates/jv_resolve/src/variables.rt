//! Variables and members, and what calls on names are on.
//! Contracts see them as trees.

ghost use Rattle.std.specs.Prelude.{◌≡◌};
ghost use Rattle.jv_tree.specs.View.{expr_of};
ghost use Rattle.jv_resolve_law.specs.Expressions.{found_at, member};
ghost use Rattle.jv_resolve.specs.inner.Gives.{Gives};
ghost use Rattle.jv_resolve.specs.inner.Named.{variable_named, own_named, member_named, receiver_named};
ghost use Rattle.jv_resolve.specs.inner.Seen.{tables_seen, standing_seen, found_seen, resolved_seen};
ghost use Rattle.jv_resolve.specs.inner.Receivers.{receiver_seen};

use crate::calls::Receiver;
use crate::given::{Resolved, Unresolved, as_operand, typed};
use crate::heads::{Head, head_of};
use crate::literals::constant;
use crate::locals::Locals;
use crate::scope::{Found, Scope};
use jv_core::CoreExprKind;
use jv_tree::Expr;
use mg_text::Place;

// A variable that was found.
fn found_at(place: Place, found: Found) -> Resolved
    ensures { resolved_seen result ≡ found_at place (found_seen found) }
{
    typed(place, CoreExprKind::Var(found.var), found.ty)
}

/// A variable.
pub(crate) fn variable(
    scope: &Scope<'_, '_>,
    locals: &Locals<'_>,
    place: Place,
    name: &str,
) -> Result<Resolved, Unresolved>
    ensures { Gives resolved_seen result
        (variable_named (tables_seen scope.now.table.now) (standing_seen scope.now) locals.now place name.now) }
{
    match scope.variable(locals, name)? {
        Some(found) => Ok(found_at(place, found)),
        None => Err(Unresolved::Fault),
    }
}

/// `e.name`: an own field behind `this`, and a constant behind the name of an enum.
pub(crate) fn member(
    scope: &Scope<'_, '_>,
    locals: &Locals<'_>,
    place: Place,
    of: &Expr,
    name: &str,
) -> Result<Resolved, Unresolved>
    ensures { Gives resolved_seen result (member (tables_seen scope.now.table.now) (standing_seen scope.now) locals.now place
        (expr_of of.now) name.now) }
{
    match head_of(of) {
        Head::This => own_member(scope, locals, place, name),
        Head::Name(first) => named_member(scope, locals, place, first, name),
        Head::Other => Err(Unresolved::Fault),
    }
}

// `this.name`
fn own_member(
    scope: &Scope<'_, '_>,
    locals: &Locals<'_>,
    place: Place,
    name: &str,
) -> Result<Resolved, Unresolved>
    ensures { Gives resolved_seen result
        (own_named (tables_seen scope.now.table.now) (standing_seen scope.now) locals.now place name.now) }
{
    match scope.own_field(name)? {
        Some(found) => Ok(found_at(place, found)),
        None => Err(Unresolved::Fault),
    }
}

// `first.name`, where no variable has the first name.
fn named_member(
    scope: &Scope<'_, '_>,
    locals: &Locals<'_>,
    place: Place,
    first: &str,
    name: &str,
) -> Result<Resolved, Unresolved>
    ensures { Gives resolved_seen result
        (member_named (tables_seen scope.now.table.now) (standing_seen scope.now) locals.now place first.now name.now) }
{
    match scope.variable(locals, first)? {
        Some(_found) => Err(Unresolved::Fault),
        None => constant(scope.table, place, first, name),
    }
}

/// What a call on a name is on: a variable, or else a class.
pub(crate) fn named_receiver<'e>(
    scope: &Scope<'_, '_>,
    locals: &Locals<'_>,
    place: Place,
    name: &'e str,
) -> Result<Receiver<'e>, Unresolved>
    ensures { Gives receiver_seen result
        (receiver_named (tables_seen scope.now.table.now) (standing_seen scope.now) locals.now place name.now) }
{
    match scope.variable(locals, name)? {
        None => Ok(Receiver::Class(name)),
        Some(found) => {
            let value = as_operand(scope.alloc, found_at(place, found))?;
            Ok(Receiver::Value(value))
        }
    }
}
