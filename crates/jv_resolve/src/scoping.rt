//! Declarations, whose locals are in scope from then on.
//! Contracts see them as trees.

ghost use Rattle.jv_core.specs.View.{stmt_of};
ghost use Rattle.jv_resolve.specs.inner.Counted.{counted_seen, itemed};
ghost use Rattle.jv_resolve.specs.inner.Declaring.{declaration_seen};
ghost use Rattle.jv_resolve.specs.inner.Gives.{Gives};
ghost use Rattle.jv_resolve.specs.inner.Scoping.{scope_item};

use crate::body::Body;
use crate::given::Unresolved;
use crate::locals::declare;
use crate::simple::{Declaration, local_stmt};
use jv_core::CoreStmt;

/// The statement of a declaration, whose local is in scope from then on.
pub(crate) fn in_scope<'a>(
    body: &mut Body<'a>,
    name: &'a str,
    declaration: Declaration,
) -> Result<CoreStmt, Unresolved>
    ensures { Gives (λ s. itemed (stmt_of s) body.new.locals (counted_seen body.new)) result
        (scope_item (declaration_seen name.now declaration (counted_seen body.old)) body.old.locals) }
{
    match declare(&mut body.locals, name, declaration.local) {
        Ok(()) => Ok(local_stmt(declaration)),
        Err(end) => {
            drop(declaration.value);
            Err(end)
        }
    }
}
