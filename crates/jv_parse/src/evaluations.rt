//! Reads expressions as statements: calls, `new`, and what is printed.

ghost use Rattle.std.specs.Prelude.{◌≡◌, ◌≤◌, ◌+◌, ◌&&◌, Some, codes, leb, length, map, max, nat_eq, option_map, suc};
ghost use Rattle.std.specs.Str.{bytes_eq};
ghost use Rattle.jv_tree.specs.Sugar.{is_out};
ghost use Rattle.jv_tree.specs.Depth.{depth};
ghost use Rattle.jv_tree.specs.Source.{MethodCall};
ghost use Rattle.jv_tree.specs.View.{expr_of, exprs_of, stmt_of};
ghost use Rattle.jv_parse.specs.inner.Gives.{Gives};
ghost use Rattle.jv_grammar.specs.Stmts.{evaluated, evaluation_at};
ghost use Rattle.jv_parse.specs.inner.Evaluations.{is_variable, is_leaf, eval_if, print_if};

use crate::assigns::{MOST_OPEN, ReadStmt};
use crate::exprs::post_of;
use crate::halt::Halt;
use crate::tokens::sign_of;
use jv_tree::{Expr, ExprKind, Sign, Stmt, StmtKind, Token};
use mg_text::{List, Place, Text};
use std::alloc::Global;

// Whether an expression is a name, and this one.
#[tactic(auto, using(crate::proofs::Evaluating::kinds))]
fn is_variable(expr: &Expr, name: &str) -> bool
    ensures { result ≡ is_variable name.now (expr_of expr.now) }
{
    match expr.kind {
        ExprKind::Name(ref found) => found.as_str() == name,
        ExprKind::Int(_)
        | ExprKind::Truth(_)
        | ExprKind::Text(_)
        | ExprKind::Null
        | ExprKind::This
        | ExprKind::Member(_, _)
        | ExprKind::Neg(_)
        | ExprKind::Not(_)
        | ExprKind::Binary(_, _, _)
        | ExprKind::Call(_, _)
        | ExprKind::MethodCall(_, _, _)
        | ExprKind::New(_) => false,
    }
}

// `System.out`
#[tactic(auto, using(crate::proofs::Evaluating::kinds))]
fn is_out(expr: &Expr) -> bool
    ensures { result ≡ is_out (expr_of expr.now) }
{
    match expr.kind {
        ExprKind::Member(ref inner, ref member) => {
            is_variable(inner, "System") && member.as_str() == "out"
        }
        ExprKind::Int(_)
        | ExprKind::Truth(_)
        | ExprKind::Text(_)
        | ExprKind::Null
        | ExprKind::This
        | ExprKind::Name(_)
        | ExprKind::Neg(_)
        | ExprKind::Not(_)
        | ExprKind::Binary(_, _, _)
        | ExprKind::Call(_, _)
        | ExprKind::MethodCall(_, _, _)
        | ExprKind::New(_) => false,
    }
}

// Whether an expression holds no other one.
#[tactic(auto, using(crate::proofs::Evaluating::kinds))]
fn is_leaf(expr: &Expr) -> bool
    ensures { result ≡ is_leaf (expr_of expr.now) }
{
    match expr.kind {
        ExprKind::Call(_, ref args) => args.len() == 0,
        ExprKind::Int(_)
        | ExprKind::Truth(_)
        | ExprKind::Text(_)
        | ExprKind::Null
        | ExprKind::This
        | ExprKind::Name(_)
        | ExprKind::New(_) => true,
        ExprKind::Member(_, _)
        | ExprKind::Neg(_)
        | ExprKind::Not(_)
        | ExprKind::Binary(_, _, _)
        | ExprKind::MethodCall(_, _, _) => false,
    }
}

// A statement that evaluates a call, where it is at most so deep.
#[tactic(auto, using(crate::proofs::Evaluating::kinds))]
fn eval(place: Place, expr: Expr, deep: u8, levels: u8) -> Option<Stmt>
    requires { deep ≡ depth (expr_of expr) }
    ensures { option_map stmt_of result ≡ eval_if levels place (expr_of expr) }
{
    if deep > levels {
        drop(expr);
        return None;
    }
    let kind = StmtKind::Eval(expr);
    Some(Stmt { place, kind })
}

// Whether what is printed is at most so deep. Its call is one deeper, or three deep where it holds
// no other expression.
#[tactic(auto, using(crate::proofs::Evaluating::printing))]
fn is_within(value: &Expr, call: u8, levels: u8) -> bool
    requires { call ≡ suc (max 2 (max (depth (expr_of value.now)) 0)) }
    ensures { result ≡ leb (depth (expr_of value.now)) levels }
{
    if is_leaf(value) {
        return levels >= 1;
    }
    call - 1 <= levels
}

// A statement that prints, where it is at most so deep.
#[tactic(auto, using(crate::proofs::Evaluating::printing))]
fn print(place: Place, value: Expr, call: u8, levels: u8) -> Option<Stmt>
    requires { call ≡ suc (max 2 (max (depth (expr_of value)) 0)) }
    ensures { option_map stmt_of result ≡ print_if levels place (expr_of value) }
{
    if !is_within(&value, call, levels) {
        drop(value);
        return None;
    }
    let kind = StmtKind::Print(value);
    Some(Stmt { place, kind })
}

// Whether a call of this method prints one thing.
fn prints(receiver: &Expr, name: &str, args: &[Expr]) -> bool
    ensures { result ≡ (is_out (expr_of receiver.now) && (bytes_eq name.now (codes "println") && nat_eq (length args.now) 1)) }
{
    is_out(receiver) && name == "println" && args.len() == 1
}

// A method's call as a statement.
#[tactic(auto, using(crate::proofs::Evaluating::kinds))]
fn method_call(
    place: Place,
    at: Place,
    receiver: Box<Expr>,
    name: Text,
    args: List<Expr>,
    deep: u8,
    levels: u8,
) -> Option<Stmt>
    requires { deep ≡ depth (MethodCall at (expr_of receiver.value) name (exprs_of (map expr_of args.items))) }
    ensures { option_map stmt_of result ≡ evaluated levels place
        (MethodCall at (expr_of receiver.value) name (exprs_of (map expr_of args.items))) }
{
    if prints(&receiver, name.as_str(), args.as_slice()) {
        let mut items = args.into_vec();
        let value = items.pop()?;
        return print(place, value, deep, levels);
    }
    let kind = ExprKind::MethodCall(receiver, name, args);
    eval(place, Expr { place: at, kind }, deep, levels)
}

// What the statement of an expression is, which begins at a place.
#[tactic(auto, using(crate::proofs::Evaluating::kinds))]
fn evaluated(place: Place, expr: Box<Expr>, deep: u8, levels: u8) -> Option<Stmt>
    requires { deep ≡ depth (expr_of expr.value) }
    ensures { option_map stmt_of result ≡ evaluated levels place (expr_of expr.value) }
{
    let Expr { place: at, kind } = Box::into_inner(expr);
    match kind {
        ExprKind::MethodCall(receiver, name, args) => {
            method_call(place, at, receiver, name, args, deep, levels)
        }
        ExprKind::Call(name, args) => {
            let kind = ExprKind::Call(name, args);
            eval(place, Expr { place: at, kind }, deep, levels)
        }
        ExprKind::New(name) => {
            let kind = ExprKind::New(name);
            eval(place, Expr { place: at, kind }, deep, levels)
        }
        ExprKind::Int(_)
        | ExprKind::Truth(_)
        | ExprKind::Text(_)
        | ExprKind::Null
        | ExprKind::This
        | ExprKind::Name(_)
        | ExprKind::Member(_, _)
        | ExprKind::Neg(_)
        | ExprKind::Not(_)
        | ExprKind::Binary(_, _, _) => {
            drop(kind);
            None
        }
    }
}

// expr ";"
#[tactic(auto, unfolding(jv_grammar::specs::Stmts::evaluation_at))]
pub(crate) fn evaluation_of(alloc: Global, tokens: &[Token], levels: u8) -> ReadStmt<'_>
    requires { levels ≤ 200 }
    ensures { Gives (λ x. (stmt_of x.0, x.1.now)) result (evaluation_at levels tokens.now) }
{
    let Some((first, _)) = tokens.split_first() else {
        return Err(Halt::Syntax { left: 0 });
    };
    let place = first.place;
    let (expr, deep, rest) = post_of(alloc, tokens, MOST_OPEN, levels + 2)?;
    let (_, after) = sign_of(rest, Sign::Semicolon)?;
    match evaluated(place, expr, deep, levels) {
        Some(stmt) => Ok((stmt, after)),
        None => Err(Halt::Syntax { left: rest.len() }),
    }
}
