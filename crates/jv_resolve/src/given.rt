//! What resolving answers: an expression of the core with its type, or why there is none.
//! Contracts see it as a tree.

ghost use Rattle.std.specs.Prelude.{◌≡◌, IfOk};
ghost use Rattle.jv_core.specs.View.{expr_of, stmt_of, kind_of, stmt_kind_of};
ghost use Rattle.jv_resolve_law.specs.Expressions.{typed};
ghost use Rattle.jv_resolve.specs.inner.Seen.{resolved_seen, operand_seen};

use jv_core::{CoreExpr, CoreExprKind, CoreStmt, CoreStmtKind, CoreType};
use mg_text::{Memory, Place};
use std::alloc::Global;

/// Why something isn't resolved.
#[derive(Clone, Copy)]
pub(crate) enum Unresolved {
    /// Want of memory, or a program past a bound.
    Memory,
    /// There is a type fault.
    Fault,
}

impl From<Memory> for Unresolved {
    ghost use Rattle.std.specs.Prelude.{◌≡◌};
    ghost use Rattle.jv_resolve.specs.declared.given.Unresolved.TheVariants as ends;

    ghost from_gives = { λ _ e. e ≡ ends.Memory };

    fn from(_memory: Memory) -> Unresolved {
        Unresolved::Memory
    }
}

/// The type of an expression.
#[derive(Clone, Copy)]
pub(crate) enum Given {
    /// The type of `null`.
    Null,
    /// Void, where it is a call of a method without a result.
    Of(CoreType),
}

/// An expression of the core, and its type.
#[derive(Drop)]
pub(crate) struct Resolved {
    pub expr: CoreExpr,
    pub given: Given,
}

/// An expression of the core in a box, and its type.
#[derive(Drop)]
pub(crate) struct Operand {
    pub expr: Box<CoreExpr>,
    pub given: Given,
}

/// An expression of this kind, at a place.
pub(crate) fn expr_at(place: Place, kind: CoreExprKind) -> CoreExpr
    ensures { expr_of result ≡ kind_of kind place }
{
    CoreExpr { place, kind }
}

/// An expression of this kind and type, at a place.
pub(crate) fn typed(place: Place, kind: CoreExprKind, ty: CoreType) -> Resolved
    ensures { resolved_seen result ≡ typed (kind_of kind place) ty }
{
    Resolved {
        expr: expr_at(place, kind),
        given: Given::Of(ty),
    }
}

/// A statement of this kind, at a place.
pub(crate) fn stmt_at(place: Place, kind: CoreStmtKind) -> CoreStmt
    ensures { stmt_of result ≡ stmt_kind_of kind place }
{
    CoreStmt { place, kind }
}

/// A value in a box.
pub(crate) fn boxed<T: Drop>(alloc: Global, value: T) -> Result<Box<T>, Memory>
    ensures { IfOk result (λ b. b.value ≡ value) }
{
    Ok(Box::new(alloc, value)?)
}

/// An expression in a box, with its type.
pub(crate) fn as_operand(alloc: Global, value: Resolved) -> Result<Operand, Memory>
    ensures { IfOk result (λ o. operand_seen o ≡ resolved_seen value) }
{
    let expr = boxed(alloc, value.expr)?;
    Ok(Operand {
        expr,
        given: value.given,
    })
}
