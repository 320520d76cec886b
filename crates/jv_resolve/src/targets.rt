//! What is assigned to.
//! Contracts see expressions as trees.

ghost use Rattle.jv_tree.specs.View.{expr_of};
ghost use Rattle.jv_resolve.specs.inner.Gives.{Gives};
ghost use Rattle.jv_resolve.specs.inner.Seen.{tables_seen, standing_seen};
ghost use Rattle.jv_resolve.specs.inner.Targets.{target_meant};

use crate::body::Body;
use crate::calls::variable_of;
use crate::exprs::resolve_expr;
use crate::given::Unresolved;
use crate::scope::Scope;
use jv_core::CoreVar;
use jv_tree::Expr;

/// The variable that is assigned to.
pub(crate) fn target_of(
    scope: &Scope<'_, '_>,
    body: &Body<'_>,
    target: &Expr,
) -> Result<CoreVar, Unresolved>
    ensures { Gives (λ x. x) result (target_meant (tables_seen scope.now.table.now) (standing_seen scope.now) body.now.locals
        (expr_of target.now)) }
{
    let target = resolve_expr(scope, &body.locals, target)?;
    let variable = variable_of(&target.expr);
    drop(target.expr);
    variable
}
