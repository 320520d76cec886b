//! Parameters: each is in scope behind those before it.

ghost use Rattle.std.specs.Prelude.{◌≡◌, OnOk};
ghost use Rattle.jv_rules.specs.Scope.{with_params};
ghost use Rattle.jv_types.specs.inner.Scopes.{scope_seen};
ghost use Rattle.jv_types.specs.inner.Stating.{Answers, params_fault};

use crate::judged::Wrong;
use crate::locals::Locals;
use crate::scope::Scope;
use crate::simple::is_declared;
use crate::value_type::meant;
use jv_rules::Condition;
use jv_tree::Param;

/// Judges parameters and brings them into scope.
pub(crate) fn check_params<'a>(
    scope: &Scope<'_, 'a>,
    locals: &mut Locals<'a>,
    params: &'a [Param],
) -> Result<(), Wrong<'a>>
    ensures told { Answers (params_fault (scope_seen scope.now locals.old) params.now) result }
    ensures scope { OnOk result (scope_seen scope.now locals.new ≡ with_params params.now (scope_seen scope.now locals.old)) }
{
    for param in params {
        let name = param.name.as_str();
        if is_declared(locals, name) {
            return Err(Wrong::Fault(Condition::DuplicateLocal, param.place, name));
        }
        locals.declare(name, meant(scope.table, &param.ty))?;
    }
    Ok(())
}
