//! Declarations in blocks.
//! Contracts see them as trees, and what they are resolved to.

ghost use Rattle.std.specs.Prelude.{◌≡◌, option_map};
ghost use Rattle.jv_tree.specs.View.{stmt_of as source_stmt};
ghost use Rattle.jv_core.specs.View.{stmt_of};
ghost use Rattle.jv_resolve.specs.inner.Counted.{counted_seen, itemed};
ghost use Rattle.jv_resolve.specs.inner.Gives.{Gives};
ghost use Rattle.jv_resolve.specs.inner.Seen.{tables_seen, standing_seen};
ghost use Rattle.jv_resolve.specs.inner.Writing.{written_seen};
ghost use Rattle.jv_resolve.specs.inner.WrittenLocal.{written_in, local_item};

use crate::body::Body;
use crate::given::Unresolved;
use crate::scope::Scope;
use crate::scoping::in_scope;
use crate::simple::resolve_declaration;
use jv_core::CoreStmt;
use jv_tree::{Expr, Stmt, StmtKind};
use mg_text::Place;
use ts_tree::TypeName;

/// A declaration as it is written: its place, a type, a name and a first value.
#[derive(Clone, Copy)]
pub(crate) struct Written<'s> {
    pub place: Place,
    pub ty: &'s TypeName,
    pub name: &'s str,
    pub value: &'s Expr,
}

/// The declaration that a statement is.
#[tactic(auto, using(jv_tree::proofs::ViewLaws::views))]
pub(crate) fn written_in(stmt: &Stmt) -> Option<Written<'_>>
    ensures { option_map written_seen result ≡ written_in (source_stmt stmt.now) }
{
    match stmt.kind {
        StmtKind::Local(ref ty, ref name, ref value) => Some(Written {
            place: stmt.place,
            ty,
            name: name.as_str(),
            value,
        }),
        StmtKind::Block(_, _) | StmtKind::Empty | StmtKind::Assign(_, _) => None,
        StmtKind::If(_, _, _) | StmtKind::While(_, _, _) | StmtKind::Do(_, _, _) => None,
        StmtKind::Switch(_, _, _) | StmtKind::Break(_) | StmtKind::Continue(_) => None,
        StmtKind::Return(_) | StmtKind::Print(_) | StmtKind::Eval(_) => None,
    }
}

/// A declaration of a block, whose local is in scope from then on.
pub(crate) fn resolve_local<'a>(
    scope: &Scope<'_, 'a>,
    body: &mut Body<'a>,
    written: Written<'a>,
) -> Result<CoreStmt, Unresolved>
    ensures { Gives (λ s. itemed (stmt_of s) body.new.locals (counted_seen body.new)) result
        (local_item (tables_seen scope.now.table.now) (standing_seen scope.now) (written_seen written.entry) body.old.locals
        (counted_seen body.old)) }
{
    let declared = resolve_declaration(
        scope,
        body,
        written.place,
        written.ty,
        written.name,
        written.value,
    )?;
    in_scope(body, written.name, declared)
}
