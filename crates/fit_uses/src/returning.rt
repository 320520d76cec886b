//! Whether a `return` stands in statements, at any depth, reached or not.

ghost use Rattle.std.specs.Prelude.{◌≡◌, map};
ghost use Rattle.jv_core.specs.View.{stmt_of, stmts_of, group_of, groups_of};
ghost use Rattle.fit_uses.specs.Uses.{returns, returns_in, returns_in_groups};

use jv_core::{CoreGroup, CoreStmt, CoreStmtKind};

// Whether one stands in a statement.
#[tactic(auto, using(crate::proofs::Jumps::returning))]
#[cycle(returning)]
pub(crate) fn returns(stmt: &CoreStmt) -> bool
    ensures { result ≡ returns (stmt_of stmt.now) }
{
    match &stmt.kind {
        CoreStmtKind::Block(body, _) => returns_in(body.as_slice()),
        CoreStmtKind::If(_, then, otherwise) => match otherwise {
            Some(other) => {
                if returns(then) {
                    return true;
                }
                returns(other)
            }
            None => returns(then),
        },
        CoreStmtKind::While(_, _, body) => returns(body),
        CoreStmtKind::Do(_, body, _) => returns(body),
        CoreStmtKind::Switch(_, groups, _) => returns_in_groups(groups.as_slice()),
        CoreStmtKind::Return(_) => true,
        CoreStmtKind::Empty | CoreStmtKind::Local(_, _) | CoreStmtKind::Assign(_, _) => false,
        CoreStmtKind::Break(_) | CoreStmtKind::Continue(_) => false,
        CoreStmtKind::Print(_) | CoreStmtKind::Eval(_) => false,
    }
}

// Whether one stands in some statements.
#[tactic(auto, using(crate::proofs::Jumps::statements))]
#[cycle(returning)]
fn returns_in(body: &[CoreStmt]) -> bool
    ensures { result ≡ returns_in (stmts_of (map stmt_of body.now)) }
{
    for stmt in body {
        if returns(stmt) {
            return true;
        }
    }
    false
}

// Whether one stands in the groups of a switch.
#[tactic(auto, using(crate::proofs::Jumps::groups))]
#[cycle(returning)]
fn returns_in_groups(groups: &[CoreGroup]) -> bool
    ensures { result ≡ returns_in_groups (groups_of (map group_of groups.now)) }
{
    for group in groups {
        if returns_in(group.body.as_slice()) {
            return true;
        }
    }
    false
}
