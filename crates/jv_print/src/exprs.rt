//! Expressions. An operand with an operator of its own stands in parentheses.

ghost use Rattle.std.specs.Prelude.{◌≡◌, ◌++◌, [], OnOk, string_bytes, map};
ghost use Rattle.jv_tree.specs.View.{expr_of, exprs_of};
ghost use Rattle.std.specs.Fmt.{signed_decimal};
ghost use Rattle.jv_print.specs.Layout.{expr_text, args_text, call_text, within, has_operator, is_apart};

use crate::words::{op_text, put_quoted, truth_word};
use crate::writing::put;
use jv_tree::{Expr, ExprKind};
use mg_text::Memory;

/// Writes an expression.
#[tactic(auto, using(crate::proofs::Laid::laid))]
#[cycle(exprs)]
pub fn put_expr(out: &mut String, expr: &Expr) -> Result<(), Memory>
    ensures { OnOk result (string_bytes out.new ≡ string_bytes out.old ++ expr_text (expr_of expr.now)) }
{
    match &expr.kind {
        ExprKind::Int(number) => put_number(out, *number),
        ExprKind::Truth(truth) => put(out, &[truth_word(*truth)]),
        ExprKind::Text(text) => put_quoted(out, text.as_str()),
        ExprKind::Null => put(out, &["null"]),
        ExprKind::This => put(out, &["this"]),
        ExprKind::Name(name) => put(out, &[name.as_str()]),
        ExprKind::Member(of, name) => {
            put_within(out, is_apart(of), of)?;
            put(out, &[".", name.as_str()])
        }
        ExprKind::Neg(of) => {
            put(out, &["-"])?;
            put_within(out, is_apart(of), of)
        }
        ExprKind::Not(of) => {
            put(out, &["!"])?;
            put_within(out, has_operator(of), of)
        }
        ExprKind::Binary(op, left, right) => {
            put_within(out, has_operator(left), left)?;
            put(out, &[" ", op_text(*op), " "])?;
            put_within(out, has_operator(right), right)
        }
        ExprKind::Call(name, args) => put_call(out, name.as_str(), args.as_slice()),
        ExprKind::MethodCall(of, name, args) => {
            put_within(out, is_apart(of), of)?;
            put(out, &["."])?;
            put_call(out, name.as_str(), args.as_slice())
        }
        ExprKind::New(name) => put(out, &["new ", name.as_str(), "()"]),
    }
}

// Writes an expression, in parentheses or not.
#[tactic(auto, using(crate::proofs::Laid::laid))]
#[cycle(exprs)]
fn put_within(out: &mut String, is_within: bool, expr: &Expr) -> Result<(), Memory>
    ensures { OnOk result (string_bytes out.new ≡ string_bytes out.old ++ within is_within (expr_text (expr_of expr.now))) }
{
    if !is_within {
        return put_expr(out, expr);
    }
    put(out, &["("])?;
    put_expr(out, expr)?;
    put(out, &[")"])
}

// Writes a name, and arguments in parentheses.
#[tactic(auto, using(crate::proofs::Laid::laid))]
#[cycle(exprs)]
fn put_call(out: &mut String, name: &str, args: &[Expr]) -> Result<(), Memory>
    ensures { OnOk result (string_bytes out.new ≡ string_bytes out.old ++ call_text name.now
        (args_text [] (exprs_of (map expr_of args.now)))) }
{
    put(out, &[name, "("])?;
    put_args(out, args)?;
    put(out, &[")"])
}

// Writes arguments, with commas between them.
#[tactic(auto, using(crate::proofs::Laid::arg_steps))]
#[cycle(exprs)]
fn put_args(out: &mut String, args: &[Expr]) -> Result<(), Memory>
    ensures { OnOk result (string_bytes out.new ≡ string_bytes out.old ++ args_text [] (exprs_of (map expr_of args.now))) }
{
    let mut before = "";
    for arg in args {
        put(out, &[before])?;
        put_expr(out, arg)?;
        before = ", ";
    }
    Ok(())
}

// Writes a number, with its sign if it is below 0.
fn put_number(out: &mut String, number: i32) -> Result<(), Memory>
    ensures { OnOk result (string_bytes out.new ≡ string_bytes out.old ++ signed_decimal number) }
{
    write!(out, "{number}")?;
    Ok(())
}

// Whether an expression has an operator of its own.
#[tactic(auto, using(crate::proofs::Laid::laid))]
fn has_operator(expr: &Expr) -> bool
    ensures { result ≡ has_operator (expr_of expr.now) }
{
    match expr.kind {
        ExprKind::Neg(_) | ExprKind::Not(_) | ExprKind::Binary(_, _, _) => true,
        ExprKind::Int(_) | ExprKind::Truth(_) | ExprKind::Text(_) | ExprKind::Null => false,
        ExprKind::This | ExprKind::Name(_) | ExprKind::Member(_, _) => false,
        ExprKind::Call(_, _) | ExprKind::MethodCall(_, _, _) | ExprKind::New(_) => false,
    }
}

// Whether an expression stands in parentheses under a minus and before a name.
#[tactic(auto, using(crate::proofs::Laid::laid))]
fn is_apart(expr: &Expr) -> bool
    ensures { result ≡ is_apart (expr_of expr.now) }
{
    match expr.kind {
        ExprKind::Int(_) | ExprKind::Neg(_) | ExprKind::Not(_) => true,
        ExprKind::Binary(_, _, _) => true,
        ExprKind::Truth(_) | ExprKind::Text(_) | ExprKind::Null | ExprKind::This => false,
        ExprKind::Name(_) | ExprKind::Member(_, _) | ExprKind::Call(_, _) => false,
        ExprKind::MethodCall(_, _, _) | ExprKind::New(_) => false,
    }
}
