//! Where the bodies of methods call protocol methods, in the order of the text.
//! Each call is found, whether it is reached or not.

ghost use Rattle.std.specs.Prelude.{◌≡◌, ◌++◌, map, IfOk, OnOk};
ghost use Rattle.jv_core.specs.View.{expr_of, exprs_of, stmt_of, stmts_of, group_of, groups_of};
ghost use Rattle.use_sights.specs.Calls.{all_sites};
ghost use Rattle.mg_shown.specs.inner.Walking.{sites_in, sites_in_args, sites_of, sites_of_all, sites_of_groups};

use jv_core::{Core, CoreExpr, CoreExprKind, CoreGroup, CoreStmt, CoreStmtKind};
use mg_text::Memory;
use std::alloc::Global;
use use_flow::number;
use use_sights::Site;

// Appends the calls in an expression of the method of a number.
#[tactic(auto, using(crate::proofs::Walking::naming))]
#[cycle(calls)]
fn sites_in(sites: &mut Vec<Site>, within: u32, expr: &CoreExpr) -> Result<(), Memory>
    ensures { OnOk result (sites.new.items ≡ sites.old.items ++ sites_in within (expr_of expr.now)) }
{
    match &expr.kind {
        CoreExprKind::Int(_) | CoreExprKind::Truth(_) | CoreExprKind::Text(_) => Ok(()),
        CoreExprKind::Null | CoreExprKind::Var(_) | CoreExprKind::New(_) => Ok(()),
        CoreExprKind::Constant { .. } => Ok(()),
        CoreExprKind::Neg(inner) | CoreExprKind::Not(inner) => sites_in(sites, within, inner),
        CoreExprKind::Binary(_, left, right)
        | CoreExprKind::Equals(left, right)
        | CoreExprKind::Concat(left, right) => sites_in_two(sites, within, left, right),
        CoreExprKind::Protocol {
            receiver,
            method,
            args,
        } => {
            sites.push(Site {
                place: receiver.place,
                within,
                variable: receiver.var,
                method: *method,
            })?;
            sites_in_args(sites, within, args.as_slice())
        }
        CoreExprKind::Helper { args, .. }
        | CoreExprKind::Static { args, .. }
        | CoreExprKind::Session { args, .. } => sites_in_args(sites, within, args.as_slice()),
    }
}

// Appends those in two expressions.
#[tactic(auto, using(crate::proofs::Walking::naming))]
#[cycle(calls)]
fn sites_in_two(
    sites: &mut Vec<Site>,
    within: u32,
    left: &CoreExpr,
    right: &CoreExpr,
) -> Result<(), Memory>
    ensures { OnOk result (sites.new.items ≡ sites.old.items
        ++ (sites_in within (expr_of left.now) ++ sites_in within (expr_of right.now))) }
{
    sites_in(sites, within, left)?;
    sites_in(sites, within, right)
}

// Appends those in arguments.
#[tactic(auto, using(crate::proofs::Walking::arguments))]
#[cycle(calls)]
fn sites_in_args(sites: &mut Vec<Site>, within: u32, args: &[CoreExpr]) -> Result<(), Memory>
    ensures { OnOk result (sites.new.items ≡ sites.old.items
        ++ sites_in_args within (exprs_of (map expr_of args.now))) }
{
    for arg in args {
        sites_in(sites, within, arg)?;
    }
    Ok(())
}

// Appends the calls in a statement.
#[tactic(auto, using(crate::proofs::Walking::naming))]
#[cycle(statements)]
fn sites_of(sites: &mut Vec<Site>, within: u32, stmt: &CoreStmt) -> Result<(), Memory>
    ensures { OnOk result (sites.new.items ≡ sites.old.items ++ sites_of within (stmt_of stmt.now)) }
{
    match &stmt.kind {
        CoreStmtKind::Block(body, _) => sites_of_all(sites, within, body.as_slice()),
        CoreStmtKind::Empty => Ok(()),
        CoreStmtKind::Local(_, value) => sites_in(sites, within, value),
        CoreStmtKind::Assign(_, value) => sites_in(sites, within, value),
        CoreStmtKind::If(condition, then, otherwise) => {
            sites_in(sites, within, condition)?;
            sites_of(sites, within, then)?;
            match otherwise {
                Some(other) => sites_of(sites, within, other),
                None => Ok(()),
            }
        }
        CoreStmtKind::While(_, condition, body) => {
            sites_in(sites, within, condition)?;
            sites_of(sites, within, body)
        }
        CoreStmtKind::Do(_, body, condition) => {
            sites_of(sites, within, body)?;
            sites_in(sites, within, condition)
        }
        CoreStmtKind::Switch(value, groups, _) => {
            sites_in(sites, within, value)?;
            sites_of_groups(sites, within, groups.as_slice())
        }
        CoreStmtKind::Break(_) | CoreStmtKind::Continue(_) => Ok(()),
        CoreStmtKind::Return(value) => match value {
            Some(value) => sites_in(sites, within, value),
            None => Ok(()),
        },
        CoreStmtKind::Print(value) => sites_in(sites, within, value),
        CoreStmtKind::Eval(value) => sites_in(sites, within, value),
    }
}

// Appends those in statements.
#[tactic(auto, using(crate::proofs::Walking::statements))]
#[cycle(statements)]
fn sites_of_all(sites: &mut Vec<Site>, within: u32, body: &[CoreStmt]) -> Result<(), Memory>
    ensures { OnOk result (sites.new.items ≡ sites.old.items
        ++ sites_of_all within (stmts_of (map stmt_of body.now))) }
{
    for stmt in body {
        sites_of(sites, within, stmt)?;
    }
    Ok(())
}

// Appends those in the groups of a switch.
#[tactic(auto, using(crate::proofs::Walking::groups))]
#[cycle(statements)]
fn sites_of_groups(sites: &mut Vec<Site>, within: u32, groups: &[CoreGroup]) -> Result<(), Memory>
    ensures { OnOk result (sites.new.items ≡ sites.old.items
        ++ sites_of_groups within (groups_of (map group_of groups.now))) }
{
    for group in groups {
        sites_of_all(sites, within, group.body.as_slice())?;
    }
    Ok(())
}

/// The calls of protocol methods in the bodies of a program, in the order of the text.
#[tactic(auto, using(crate::proofs::Walking::methods))]
pub(crate) fn all_sites(alloc: Global, core: &Core) -> Result<Vec<Site>, Memory>
    ensures { IfOk result (λ v. v.items ≡ all_sites core.now) }
{
    let methods = core.methods();
    let mut sites = Vec::new(alloc);
    for place in 0..methods.len() {
        let within = number(place)?;
        sites_of_all(&mut sites, within, methods[place].body.as_slice())?;
    }
    Ok(sites)
}
