//! Whether the body of a method can complete.
//! Each statement is visited once, and those behind one that can't complete are not.

ghost use Rattle.std.specs.Prelude.{◌≡◌, ◌&&◌, ◌||◌, not, map, IfOk, OnOk};
ghost use Rattle.std.specs.List.{list_any};
ghost use Rattle.jv_tree.specs.View.{expr_of, stmt_of, stmts_of, group_of, groups_of};
ghost use Rattle.jv_rules.specs.Completes.{Through};
ghost use Rattle.jv_rules.specs.inner.Leaving.{is_always_true, is_default, has_default, leaves, leaves_all, leaves_some, leaves_last};
ghost use Rattle.jv_types.specs.inner.Exits.{Adds, met_at};

use crate::ends::either;
use crate::exits::{Exits, Jumps};
use crate::jumps::label_text;
use jv_tree::{Expr, ExprKind, Group, Stmt, StmtKind};
use mg_text::{Memory, Text};
use std::alloc::Global;

// Whether a condition is the literal `true`.
#[tactic(auto, using(crate::proofs::Seen::seen))]
fn is_always_true(condition: &Expr) -> bool
    ensures { result ≡ is_always_true (expr_of condition.now) }
{
    match condition.kind {
        ExprKind::Truth(value) => value,
        ExprKind::Int(_) | ExprKind::Text(_) | ExprKind::Null | ExprKind::This => false,
        ExprKind::Name(_) | ExprKind::Member(_, _) | ExprKind::Neg(_) | ExprKind::Not(_) => false,
        ExprKind::Binary(_, _, _) | ExprKind::Call(_, _) => false,
        ExprKind::MethodCall(_, _, _) | ExprKind::New(_) => false,
    }
}

// Whether a default is among labels.
fn is_default_in(labels: &[Option<Text>]) -> bool
    ensures { result ≡ list_any is_default labels.now }
{
    for label in labels {
        if label.is_none() {
            return true;
        }
    }
    false
}

// Whether a switch has a default.
fn has_default(groups: &[Group]) -> bool
    ensures { result ≡ has_default (groups_of (map group_of groups.now)) }
{
    for group in groups {
        if is_default_in(group.labels.as_slice()) {
            return true;
        }
    }
    false
}

// Whether a `do` ends, where its statement completes or not.
fn ends_do(condition: &Expr, completes: bool, inner: Jumps) -> bool
    ensures { result ≡ ((not (is_always_true (expr_of condition.now)) && (completes || inner.continues)) || inner.breaks) }
{
    if is_always_true(condition) {
        return inner.breaks;
    }
    either(either(completes, inner.continues), inner.breaks)
}

// How a statement may be left: whether through its end, and which jumps there are.
#[cycle(leaving)]
fn leave_stmt(exits: &mut Exits, stmt: &Stmt) -> Result<bool, Memory>
    ensures through { IfOk result (λ b. b ≡ leaves (stmt_of stmt.now) Through) }
    ensures exits { OnOk result (Adds (leaves (stmt_of stmt.now)) (met_at exits.old) (met_at exits.new)) }
{
    match stmt.kind {
        StmtKind::Block(ref body, _) => leave_stmts(exits, body.as_slice()),
        StmtKind::If(_, ref inner, ref otherwise) => {
            let completes = leave_stmt(exits, inner)?;
            match otherwise {
                None => Ok(true),
                Some(otherwise) => {
                    let other = leave_stmt(exits, otherwise)?;
                    Ok(either(completes, other))
                }
            }
        }
        StmtKind::While(ref label, ref condition, ref inner) => {
            let label = label_text(label);
            let hidden = exits.enter_loop(label)?;
            leave_stmt(exits, inner)?;
            let jumps = exits.leave_loop(label, hidden)?;
            Ok(either(!is_always_true(condition), jumps.breaks))
        }
        StmtKind::Do(ref label, ref inner, ref condition) => {
            let label = label_text(label);
            let hidden = exits.enter_loop(label)?;
            let completes = leave_stmt(exits, inner)?;
            let jumps = exits.leave_loop(label, hidden)?;
            Ok(ends_do(condition, completes, jumps))
        }
        StmtKind::Switch(_, ref groups, _) => {
            let groups = groups.as_slice();
            let hidden = exits.enter_switch();
            let completes = leave_groups(exits, groups)?;
            let broken = exits.leave_switch(hidden);
            let ends = either(completes, broken);
            Ok(either(!has_default(groups), ends))
        }
        StmtKind::Break(ref label) => {
            exits.add(
                label_text(label),
                Jumps {
                    breaks: true,
                    continues: false,
                },
            )?;
            Ok(false)
        }
        StmtKind::Continue(ref label) => {
            exits.add(
                label_text(label),
                Jumps {
                    breaks: false,
                    continues: true,
                },
            )?;
            Ok(false)
        }
        StmtKind::Return(_) => Ok(false),
        StmtKind::Empty | StmtKind::Local(_, _, _) | StmtKind::Assign(_, _) => Ok(true),
        StmtKind::Print(_) | StmtKind::Eval(_) => Ok(true),
    }
}

// Statements one after another, each where the one before it completes.
#[cycle(leaving)]
fn leave_stmts(exits: &mut Exits, stmts: &[Stmt]) -> Result<bool, Memory>
    ensures through { IfOk result (λ b. b ≡ leaves_all (stmts_of (map stmt_of stmts.now)) Through) }
    ensures exits { OnOk result (Adds (leaves_all (stmts_of (map stmt_of stmts.now))) (met_at exits.old) (met_at exits.new)) }
{
    for stmt in stmts {
        let completes = leave_stmt(exits, stmt)?;
        if !completes {
            return Ok(false);
        }
    }
    Ok(true)
}

// The groups of a switch, each of which is reached: whether the last one completes.
#[cycle(leaving)]
fn leave_groups(exits: &mut Exits, groups: &[Group]) -> Result<bool, Memory>
    ensures last { IfOk result (λ b. b ≡ leaves_last (groups_of (map group_of groups.now))) }
    ensures exits { OnOk result (Adds (leaves_some (groups_of (map group_of groups.now))) (met_at exits.old) (met_at exits.new)) }
{
    let mut last = false;
    for group in groups {
        last = leave_stmts(exits, group.body.as_slice())?;
    }
    Ok(last)
}

/// Whether the body of a method can complete.
pub(crate) fn completes(alloc: Global, body: &[Stmt]) -> Result<bool, Memory>
    ensures { IfOk result (λ b. b ≡ leaves_all (stmts_of (map stmt_of body.now)) Through) }
{
    let mut exits = Exits::new(alloc);
    leave_stmts(&mut exits, body)
}
