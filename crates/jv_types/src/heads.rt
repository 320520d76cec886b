//! The conditions and labels of loops.

ghost use Rattle.jv_tree.specs.View.{expr_of};
ghost use Rattle.jv_types.specs.inner.Scopes.{scope_seen};
ghost use Rattle.jv_types.specs.inner.Stating.{Answers, loop_told};

use crate::judged::Wrong;
use crate::jumps::check_label;
use crate::locals::Locals;
use crate::scope::Scope;
use crate::value_type::ValueType;
use crate::values::{Wanted, check_value};
use jv_tree::Expr;
use mg_text::{Place, Text};

/// Judges the condition of a loop, and its label.
pub(crate) fn check_loop<'a>(
    scope: &Scope<'_, 'a>,
    locals: &Locals<'a>,
    place: Place,
    label: &'a Option<Text>,
    condition: &'a Expr,
) -> Result<(), Wrong<'a>>
    ensures { Answers (loop_told (scope_seen scope.now locals.now) place label.now (expr_of condition.now)) result }
{
    check_value(
        scope,
        locals,
        condition,
        Wanted::Fitting(ValueType::Boolean),
    )?;
    check_label(scope, locals, place, label)
}
