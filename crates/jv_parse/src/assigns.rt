//! Reads assignments and declarations of locals.
//! What `op=`, `++` and `--` add to the tree stands where their target stands.

ghost use Rattle.std.specs.Prelude.{◌≡◌, ◌≤◌, Some, IfOk, option_map};
ghost use Rattle.jv_tree.specs.Sugar.{compound, counter, changed};
ghost use Rattle.jv_tree.specs.Depth.{depth};
ghost use Rattle.jv_tree.specs.View.{expr_of, stmt_of};
ghost use Rattle.jv_parse.specs.inner.Changes.{plain_at, counted_at, compounded_at};
ghost use Rattle.jv_parse.specs.inner.Gives.{Gives};
ghost use Rattle.jv_grammar.specs.Stmts.{cond_at, ended_at, after_final, type_at, local_at, target_at, compound_at, counter_at};
ghost use Rattle.jv_grammar.specs.Stmts.{is_compound, is_counter, is_change, is_name_change, is_field_change, is_assign, assigned};
ghost use Rattle.jv_grammar.specs.Stmts.{change_at, assign_at};

use crate::exprs::{LOOSEST, Read, chain_of, closed_of, leaf};
use crate::halt::Halt;
use crate::tokens::{is_name, is_named, is_sign, is_word, name_of, past_sign, past_word, sign_of};
use jv_tree::{Expr, ExprKind, Op, Sign, Stmt, StmtKind, Token, TokenKind};
use mg_text::Place;
use std::alloc::Global;
use ts_tree::TypeName;

// A statement, and the tokens after it.
pub(crate) type ReadStmt<'a> = Result<(Stmt, &'a [Token]), Halt>;

// How many parentheses may be open at once.
pub(crate) const MOST_OPEN: u16 = 400;

// "(" expr ")"
#[tactic(auto, unfolding(jv_grammar::specs::Stmts::cond_at))]
pub(crate) fn cond_of(
    alloc: Global,
    tokens: &[Token],
    levels: u8,
) -> Result<(Box<Expr>, &[Token]), Halt>
    ensures { Gives (λ x. (expr_of x.0.value, x.1.now)) result (cond_at levels tokens.now) }
{
    let (_, rest) = sign_of(tokens, Sign::OpenParen)?;
    let (expr, _, rest) = closed_of(alloc, rest, MOST_OPEN, levels)?;
    Ok((expr, rest))
}

// expr ";"
#[tactic(auto, unfolding(jv_grammar::specs::Stmts::ended_at, jv_grammar::specs::Exprs::expr_at))]
pub(crate) fn ended_of(alloc: Global, tokens: &[Token], levels: u8) -> Read<'_>
    ensures read { Gives (λ x. (expr_of x.0.value, x.2.now)) result (ended_at levels tokens.now) }
    ensures deep { IfOk result (λ x. x.1 ≡ depth (expr_of x.0.value)) }
{
    let (expr, deep, rest) = chain_of(alloc, tokens, MOST_OPEN, levels, LOOSEST)?;
    let (_, rest) = sign_of(rest, Sign::Semicolon)?;
    Ok((expr, deep, rest))
}

// What comes behind "final", where it comes.
pub(crate) fn after_final(tokens: &[Token]) -> &[Token]
    ensures { result.now ≡ after_final tokens.now }
{
    let Some((_, rest)) = tokens.split_first() else {
        return tokens;
    };
    if is_word(tokens, "final") {
        rest
    } else {
        tokens
    }
}

// The type that a word names.
#[tactic(auto, unfolding(jv_grammar::specs::Stmts::type_in))]
pub(crate) fn type_of(tokens: &[Token]) -> Result<(TypeName, &[Token]), Halt>
    ensures { Gives (λ x. (x.0, x.1.now)) result (type_at tokens.now) }
{
    let Some((first, rest)) = tokens.split_first() else {
        return Err(Halt::Syntax { left: 0 });
    };
    let TokenKind::Word(word) = &first.kind else {
        return Err(Halt::Syntax { left: tokens.len() });
    };
    if is_name(word.as_str()) {
        if word.as_str() == "String" {
            return Ok((TypeName::Text, rest));
        }
        return Ok((TypeName::Named(word.copy()?), rest));
    }
    if word.as_str() == "int" {
        return Ok((TypeName::Int, rest));
    }
    if word.as_str() == "boolean" {
        return Ok((TypeName::Boolean, rest));
    }
    Err(Halt::Syntax { left: tokens.len() })
}

// [ "final" ] type name "=" expr ";"
#[tactic(auto, using(jv_tree::proofs::ViewLaws::views), unfolding(jv_grammar::specs::Stmts::local_at, jv_grammar::specs::Stmts::declared_at))]
pub(crate) fn local_of(alloc: Global, tokens: &[Token], levels: u8) -> ReadStmt<'_>
    ensures { Gives (λ x. (stmt_of x.0, x.1.now)) result (local_at levels tokens.now) }
{
    let (ty, rest) = type_of(after_final(tokens))?;
    let (place, name, rest) = name_of(rest)?;
    let (_, rest) = sign_of(rest, Sign::Assign)?;
    let (value, _, rest) = ended_of(alloc, rest, levels)?;
    let kind = StmtKind::Local(ty, name, Box::into_inner(value));
    Ok((Stmt { place, kind }, rest))
}

// The operator of `t op= e`.
fn compound(sign: Sign) -> Option<Op>
    ensures { result ≡ compound sign }
{
    match sign {
        Sign::PlusAssign => Some(Op::Add),
        Sign::MinusAssign => Some(Op::Sub),
        Sign::StarAssign => Some(Op::Mul),
        Sign::SlashAssign => Some(Op::Div),
        Sign::PercentAssign => Some(Op::Rem),
        _ => None,
    }
}

// The operator of `t++`, `++t`, `t--` and `--t`.
fn counter(sign: Sign) -> Option<Op>
    ensures { result ≡ counter sign }
{
    match sign {
        Sign::PlusPlus => Some(Op::Add),
        Sign::MinusMinus => Some(Op::Sub),
        _ => None,
    }
}

// The operator of `op=` and the tokens after it, where it comes next.
fn compound_of(tokens: &[Token]) -> Option<(Op, &[Token])>
    ensures { option_map (λ x. (x.0, x.1.now)) result ≡ compound_at tokens.now }
{
    let (first, rest) = tokens.split_first()?;
    let TokenKind::Sign(sign) = &first.kind else {
        return None;
    };
    let op = compound(*sign)?;
    Some((op, rest))
}

// The operator of `++` or `--`, its place and the tokens after it, where it comes next.
fn counter_of(tokens: &[Token]) -> Option<(Place, Op, &[Token])>
    ensures { option_map (λ x. ((x.0, x.1), x.2.now)) result ≡ counter_at tokens.now }
{
    let (first, rest) = tokens.split_first()?;
    let TokenKind::Sign(sign) = &first.kind else {
        return None;
    };
    let op = counter(*sign)?;
    Some((first.place, op, rest))
}

// Whether `++` or `--` comes next.
fn is_counter(tokens: &[Token]) -> bool
    ensures { result ≡ is_counter tokens.now }
{
    counter_of(tokens).is_some()
}

// Whether `op=` comes next.
fn is_compound(tokens: &[Token]) -> bool
    ensures { result ≡ is_compound tokens.now }
{
    compound_of(tokens).is_some()
}

// Whether what stands behind a target comes next.
fn is_change(tokens: &[Token]) -> bool
    ensures { result ≡ is_change tokens.now }
{
    is_sign(tokens, Sign::Assign) || is_counter(tokens) || is_compound(tokens)
}

// Whether a name and what stands behind a target come next.
fn is_name_change(tokens: &[Token]) -> bool
    ensures { result ≡ is_name_change tokens.now }
{
    let Some((_, rest)) = tokens.split_first() else {
        return false;
    };
    is_named(tokens) && is_change(rest)
}

// Whether an own field and what stands behind a target come next.
fn is_field_change(tokens: &[Token]) -> bool
    ensures { result ≡ is_field_change tokens.now }
{
    let Some((_, after_this)) = tokens.split_first() else {
        return false;
    };
    let Some((_, after_dot)) = after_this.split_first() else {
        return false;
    };
    let Some((_, rest)) = after_dot.split_first() else {
        return false;
    };
    is_word(tokens, "this")
        && is_sign(after_this, Sign::Dot)
        && is_named(after_dot)
        && is_change(rest)
}

// Whether an assignment comes next.
pub(crate) fn is_assign(tokens: &[Token]) -> bool
    ensures { result ≡ is_assign tokens.now }
{
    is_counter(tokens) || is_name_change(tokens) || is_field_change(tokens)
}

// target = name | "this" "." name
#[tactic(auto, using(jv_tree::proofs::ViewLaws::views), unfolding(jv_grammar::specs::Stmts::target_at))]
fn target_of(alloc: Global, tokens: &[Token]) -> Read<'_>
    ensures read { Gives (λ x. (expr_of x.0.value, x.2.now)) result (target_at tokens.now) }
    ensures deep { IfOk result (λ x. x.1 ≡ depth (expr_of x.0.value)) }
{
    if let Some((place, rest)) = past_word(tokens, "this") {
        let (_, rest) = sign_of(rest, Sign::Dot)?;
        let (_, name, rest) = name_of(rest)?;
        let kind = ExprKind::This;
        let this = Box::new(alloc, Expr { place, kind })?;
        let kind = ExprKind::Member(this, name);
        let target = Box::new(alloc, Expr { place, kind })?;
        return Ok((target, 2, rest));
    }
    let (place, name, rest) = name_of(tokens)?;
    leaf(alloc, place, ExprKind::Name(name), rest)
}

// An assignment, where its parts are at most so deep.
#[tactic(auto, using(jv_tree::proofs::ViewLaws::views))]
fn assigned(
    place: Place,
    target: (Box<Expr>, u8),
    value: (Box<Expr>, u8),
    rest: &[Token],
    levels: u8,
) -> ReadStmt<'_>
    requires target_deep { target.1 ≡ depth (expr_of target.0.value) }
    requires value_deep { value.1 ≡ depth (expr_of value.0.value) }
    ensures { Gives (λ x. (stmt_of x.0, x.1.now)) result (assigned levels place (expr_of target.0.value) (expr_of value.0.value) rest.now) }
{
    if target.1 > levels || value.1 > levels {
        return Err(Halt::Syntax { left: rest.len() });
    }
    let kind = StmtKind::Assign(Box::into_inner(target.0), Box::into_inner(value.0));
    Ok((Stmt { place, kind }, rest))
}

// A target that an operator changes. It is read once more, as the operator's operand.
#[tactic(auto, using(jv_tree::proofs::ViewLaws::views))]
fn changed<'a>(
    alloc: Global,
    place: Place,
    op: Op,
    target: (Box<Expr>, u8),
    from: &[Token],
    value: (Box<Expr>, u8),
    rest: &'a [Token],
    levels: u8,
) -> ReadStmt<'a>
    requires target_deep { target.1 ≡ depth (expr_of target.0.value) }
    requires read { option_map (λ x. x.0) (target_at from.now) ≡ Some (expr_of target.0.value) }
    requires value_deep { value.1 ≡ depth (expr_of value.0.value) }
    ensures { Gives (λ x. (stmt_of x.0, x.1.now)) result
        (assigned levels place (expr_of target.0.value) (changed op (expr_of target.0.value) (expr_of value.0.value)) rest.now) }
{
    let parts = target.1.max(value.1);
    if parts >= levels {
        return Err(Halt::Syntax { left: rest.len() });
    }
    let (operand, _, _) = target_of(alloc, from)?;
    let made = Expr {
        place: target.0.place,
        kind: ExprKind::Binary(op, operand, value.0),
    };
    let made = Box::new(alloc, made)?;
    assigned(place, target, (made, parts + 1), rest, levels)
}

// expr ";" behind a target and "=".
#[tactic(auto, using(jv_tree::proofs::ViewLaws::views))]
fn plain_of(alloc: Global, target: (Box<Expr>, u8), tokens: &[Token], levels: u8) -> ReadStmt<'_>
    requires { target.1 ≡ depth (expr_of target.0.value) }
    ensures { Gives (λ x. (stmt_of x.0, x.1.now)) result (plain_at levels (expr_of target.0.value) tokens.now) }
{
    let place = target.0.place;
    let (value, deep, rest) = ended_of(alloc, tokens, levels)?;
    assigned(place, target, (value, deep), rest, levels)
}

// ";" behind a target and `++` or `--`, or behind both in the other order.
#[tactic(auto, using(jv_tree::proofs::ViewLaws::views))]
fn counted_of<'a>(
    alloc: Global,
    place: Place,
    op: Op,
    target: (Box<Expr>, u8),
    from: &[Token],
    tokens: &'a [Token],
    levels: u8,
) -> ReadStmt<'a>
    requires target_deep { target.1 ≡ depth (expr_of target.0.value) }
    requires read { option_map (λ x. x.0) (target_at from.now) ≡ Some (expr_of target.0.value) }
    ensures { Gives (λ x. (stmt_of x.0, x.1.now)) result (counted_at levels place op (expr_of target.0.value) tokens.now) }
{
    let (_, rest) = sign_of(tokens, Sign::Semicolon)?;
    let one = Expr {
        place: target.0.place,
        kind: ExprKind::Int(1),
    };
    let one = Box::new(alloc, one)?;
    changed(alloc, place, op, target, from, (one, 1), rest, levels)
}

// expr ";" behind a target and `op=`.
#[tactic(auto, using(jv_tree::proofs::ViewLaws::views))]
fn compounded_of<'a>(
    alloc: Global,
    op: Op,
    target: (Box<Expr>, u8),
    from: &[Token],
    tokens: &'a [Token],
    levels: u8,
) -> ReadStmt<'a>
    requires target_deep { target.1 ≡ depth (expr_of target.0.value) }
    requires read { option_map (λ x. x.0) (target_at from.now) ≡ Some (expr_of target.0.value) }
    ensures { Gives (λ x. (stmt_of x.0, x.1.now)) result (compounded_at levels op (expr_of target.0.value) tokens.now) }
{
    let place = target.0.place;
    let (value, deep, rest) = ended_of(alloc, tokens, levels)?;
    changed(alloc, place, op, target, from, (value, deep), rest, levels)
}

// What stands behind a target, which begins these tokens.
#[tactic(auto, using(jv_tree::proofs::ViewLaws::views), unfolding(jv_grammar::specs::Stmts::change_at))]
fn change_of<'a>(
    alloc: Global,
    target: (Box<Expr>, u8),
    from: &[Token],
    tokens: &'a [Token],
    levels: u8,
) -> ReadStmt<'a>
    requires target_deep { target.1 ≡ depth (expr_of target.0.value) }
    requires read { option_map (λ x. x.0) (target_at from.now) ≡ Some (expr_of target.0.value) }
    ensures { Gives (λ x. (stmt_of x.0, x.1.now)) result (change_at levels (expr_of target.0.value) tokens.now) }
{
    if let Some((_, rest)) = past_sign(tokens, Sign::Assign) {
        return plain_of(alloc, target, rest, levels);
    }
    if let Some((_, op, rest)) = counter_of(tokens) {
        let place = target.0.place;
        return counted_of(alloc, place, op, target, from, rest, levels);
    }
    match compound_of(tokens) {
        Some((op, rest)) => compounded_of(alloc, op, target, from, rest, levels),
        None => Err(Halt::Syntax { left: tokens.len() }),
    }
}

// An assignment. Its target is read twice where an operator changes it.
#[tactic(auto, unfolding(jv_grammar::specs::Stmts::assign_at))]
pub(crate) fn assign_of(alloc: Global, tokens: &[Token], levels: u8) -> ReadStmt<'_>
    ensures { Gives (λ x. (stmt_of x.0, x.1.now)) result (assign_at levels tokens.now) }
{
    if let Some((place, op, rest)) = counter_of(tokens) {
        let (target, deep, after) = target_of(alloc, rest)?;
        return counted_of(alloc, place, op, (target, deep), rest, after, levels);
    }
    let (target, deep, rest) = target_of(alloc, tokens)?;
    change_of(alloc, (target, deep), tokens, rest, levels)
}
