//! The parameters and locals in scope, each with its slot and its type.

ghost use Rattle.std.specs.Prelude.{◌≡◌, Some, OnOk, IfOk, IfErr, map, reverse};
ghost use Rattle.jv_scope.specs.Named.{under};
ghost use Rattle.jv_resolve_law.specs.Statements.{declared};
ghost use Rattle.jv_resolve.specs.inner.Gives.{Fails};

use crate::given::Unresolved;
use jv_scope::Local;
use mg_text::{List, Memory};
use std::alloc::Global;

/// The parameters and locals in scope, each with its slot and its type.
pub(crate) type Locals<'a> = jv_scope::Locals<'a, Local>;

/// One more in scope. A name that is in scope is a fault.
pub(crate) fn declare<'a>(
    locals: &mut Locals<'a>,
    name: &'a str,
    local: Local,
) -> Result<(), Unresolved>
    ensures ok { OnOk result (declared (under name.now local) locals.old ≡ Some locals.new) }
    ensures err { IfErr result (λ e. Fails e (declared (under name.now local) locals.old)) }
{
    if locals.find(name).is_some() {
        return Err(Unresolved::Fault);
    }
    locals.declare(name, local)?;
    Ok(())
}

/// The slots in scope, the first one first.
pub(crate) fn slots(alloc: Global, locals: &Locals<'_>) -> Result<List<u32>, Memory>
    ensures { IfOk result (λ slots. slots.items ≡ reverse (map (λ l. l.it.slot) locals.now)) }
{
    let mut slots = List::new(alloc);
    let stack = locals.as_slice();
    for declared in stack {
        slots.push(declared.it.slot)?;
    }
    Ok(slots)
}
