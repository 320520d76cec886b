//! Reads an expression, one function for each production.
//! `room` is how many parentheses may be open, and `levels` how deep the tree may be.

ghost use Rattle.std.specs.Prelude.{◌≡◌, ◌-◌, ◌<◌, Some, IfOk, IfSome, is_some, map, option_map, max, suc};
ghost use Rattle.jv_tree.specs.declared.token.Sign.TheVariants as signs;
ghost use Rattle.jv_tree.specs.Expressions.{looseness};
ghost use Rattle.jv_tree.specs.Source.{Binary, place_of};
ghost use Rattle.jv_tree.specs.Depth.{depth, depth_of_args};
ghost use Rattle.jv_tree.specs.View.{expr_of, kind_of, exprs_of};
ghost use Rattle.jv_parse.specs.inner.Found.{found};
ghost use Rattle.jv_parse.specs.inner.Gives.{Gives};
ghost use Rattle.jv_grammar.specs.Base.{sign_at, fits};
ghost use Rattle.jv_grammar.specs.Exprs.{args_with, arguments_at, closed_at, negative_at, named_at, word_primary_at};
ghost use Rattle.jv_grammar.specs.Exprs.{new_with, literal, primary_at, tail_at, post_at, is_negation, unary_at, operator, op_at, op_found};
ghost use Rattle.jv_grammar.specs.Exprs.{is_op, joined_at, binary_at, expr_at};

use crate::halt::Halt;
use crate::tokens::{is_name, is_sign, name_of, past_sign, sign_of, starts_number};
use jv_tree::{Expr, ExprKind, Op, Sign, Token, TokenKind};
use mg_text::{List, Place, Text};
use std::alloc::Global;

// An expression, its depth, and the tokens after it.
pub(crate) type Read<'a> = Result<(Box<Expr>, u8, &'a [Token]), Halt>;

// Arguments, the depth of the deepest, and the tokens after them.
type ReadArgs<'a> = Result<(List<Expr>, u8, &'a [Token]), Halt>;

// The loosest operators, those of `||`, bind one less than this.
pub(crate) const LOOSEST: u8 = 6;

// An expression whose parts are so deep, in front of tokens that are left, where it fits.
#[tactic(auto, using(jv_tree::proofs::ViewLaws::views))]
fn fit(
    alloc: Global,
    place: Place,
    kind: ExprKind,
    parts: u8,
    levels: u8,
    rest: &[Token],
) -> Read<'_>
    requires { suc parts ≡ depth (kind_of kind place) }
    ensures read { Gives (λ x. (expr_of x.0.value, x.2.now)) result (fits levels (kind_of kind place) rest.now) }
    ensures deep { IfOk result (λ x. x.1 ≡ depth (expr_of x.0.value)) }
{
    let expr = Box::new(alloc, Expr { place, kind })?;
    if parts >= levels {
        return Err(Halt::Syntax { left: rest.len() });
    }
    Ok((expr, parts + 1, rest))
}

// An expression that holds no other one, in front of tokens that are left.
#[tactic(auto, using(jv_tree::proofs::ViewLaws::views))]
pub(crate) fn leaf(alloc: Global, place: Place, kind: ExprKind, rest: &[Token]) -> Read<'_>
    requires { 1 ≡ depth (kind_of kind place) }
    ensures read { Gives (λ x. (expr_of x.0.value, x.2.now)) result (found (kind_of kind place) rest.now) }
    ensures deep { IfOk result (λ x. x.1 ≡ depth (expr_of x.0.value)) }
{
    let expr = Box::new(alloc, Expr { place, kind })?;
    Ok((expr, 1, rest))
}

// The operator that a sign is.
fn operator(sign: Sign) -> Option<Op>
    ensures { result ≡ operator sign }
{
    match sign {
        Sign::OrOr => Some(Op::Or),
        Sign::AndAnd => Some(Op::And),
        Sign::Equal => Some(Op::Eq),
        Sign::NotEqual => Some(Op::Ne),
        Sign::Less => Some(Op::Lt),
        Sign::LessEqual => Some(Op::Le),
        Sign::Greater => Some(Op::Gt),
        Sign::GreaterEqual => Some(Op::Ge),
        Sign::Plus => Some(Op::Add),
        Sign::Minus => Some(Op::Sub),
        Sign::Star => Some(Op::Mul),
        Sign::Slash => Some(Op::Div),
        Sign::Percent => Some(Op::Rem),
        _ => None,
    }
}

// How loosely an operator binds.
fn looseness(op: Op) -> u8
    ensures { result ≡ looseness op }
{
    match op {
        Op::Mul | Op::Div | Op::Rem => 0,
        Op::Add | Op::Sub => 1,
        Op::Lt | Op::Le | Op::Gt | Op::Ge => 2,
        Op::Eq | Op::Ne => 3,
        Op::And => 4,
        Op::Or => 5,
    }
}

// An operator that binds so loosely, and the tokens after it.
fn op_of(tokens: &[Token], strength: u8) -> Option<(Op, &[Token])>
    ensures { op_found result ≡ op_at strength tokens.now }
{
    let (first, rest) = tokens.split_first()?;
    let TokenKind::Sign(sign) = &first.kind else {
        return None;
    };
    let op = operator(*sign)?;
    if looseness(op) == strength {
        Some((op, rest))
    } else {
        None
    }
}

// Whether such an operator comes next.
fn is_op(tokens: &[Token], strength: u8) -> bool
    ensures { result ≡ is_op strength tokens.now }
{
    op_of(tokens, strength).is_some()
}

// The place of a "-" that no number follows and the tokens after it, where it comes next.
fn past_negation(tokens: &[Token]) -> Option<(Place, &[Token])>
    ensures it { IfSome result (λ x. sign_at signs.Minus tokens.now ≡ Some (x.0, x.1.now)) }
    ensures comes { is_some result ≡ is_negation tokens.now }
{
    let (_, rest) = tokens.split_first()?;
    let found = past_sign(tokens, Sign::Minus)?;
    if starts_number(rest) {
        return None;
    }
    Some(found)
}

// The number behind a "-" at this place.
#[tactic(auto, using(jv_tree::proofs::ViewLaws::views))]
fn negative_of(alloc: Global, place: Place, tokens: &[Token]) -> Read<'_>
    ensures read { Gives (λ x. (expr_of x.0.value, x.2.now)) result (negative_at place tokens.now) }
    ensures deep { IfOk result (λ x. x.1 ≡ depth (expr_of x.0.value)) }
{
    let Some((first, rest)) = tokens.split_first() else {
        return Err(Halt::Syntax { left: 0 });
    };
    let TokenKind::Number(number) = &first.kind else {
        return Err(Halt::Syntax { left: tokens.len() });
    };
    if *number > 2_147_483_648 {
        return Err(Halt::Syntax { left: tokens.len() });
    }
    let value = (-i64::from(*number)) as i32;
    leaf(alloc, place, ExprKind::Int(value), rest)
}

// What "new" at this place begins.
#[tactic(auto, using(jv_tree::proofs::ViewLaws::views), unfolding(jv_grammar::specs::Exprs::new_with))]
fn new_of(alloc: Global, place: Place, tokens: &[Token], room: u16) -> Read<'_>
    ensures read { Gives (λ x. (expr_of x.0.value, x.2.now)) result (new_with room place tokens.now) }
    ensures deep { IfOk result (λ x. x.1 ≡ depth (expr_of x.0.value)) }
{
    let (_, name, rest) = name_of(tokens)?;
    if room == 0 {
        return Err(Halt::Syntax { left: rest.len() });
    }
    let (_, rest) = sign_of(rest, Sign::OpenParen)?;
    let (_, rest) = sign_of(rest, Sign::CloseParen)?;
    leaf(alloc, place, ExprKind::New(name), rest)
}

// A word that is an expression.
#[tactic(auto, using(jv_tree::proofs::ViewLaws::views), unfolding(jv_grammar::specs::Exprs::literal))]
fn literal(place: Place, word: &str) -> Option<Expr>
    ensures read { option_map expr_of result ≡ literal place word.now }
    ensures deep { IfSome result (λ x. 1 ≡ depth (expr_of x)) }
{
    if word == "true" {
        let kind = ExprKind::Truth(true);
        return Some(Expr { place, kind });
    }
    if word == "false" {
        let kind = ExprKind::Truth(false);
        return Some(Expr { place, kind });
    }
    if word == "null" {
        let kind = ExprKind::Null;
        return Some(Expr { place, kind });
    }
    if word == "this" {
        let kind = ExprKind::This;
        return Some(Expr { place, kind });
    }
    None
}

// { "," expr } behind the first argument.
#[cycle(nest)]
fn args_of(alloc: Global, tokens: &[Token], room: u16, levels: u8) -> ReadArgs<'_>
    ensures read { Gives (λ x. (map expr_of x.0.items, x.2.now)) result (args_with (expr_at room levels) tokens.now) }
    ensures deep { IfOk result (λ x. x.1 ≡ depth_of_args (exprs_of (map expr_of x.0.items))) }
{
    let (first, mut deepest, mut rest) = chain_of(alloc, tokens, room, levels, LOOSEST)?;
    let mut args = List::new(alloc);
    args.push(Box::into_inner(first))?;
    'more: while let Some((_, next)) = past_sign(rest, Sign::Comma) {
        let (arg, deep, after) = chain_of(alloc, next, room, levels, LOOSEST)?;
        args.push(Box::into_inner(arg))?;
        deepest = deepest.max(deep);
        rest = after;
    }
    Ok((args, deepest, rest))
}

// "(" [args] ")"
#[cycle(nest)]
fn arguments_of(alloc: Global, tokens: &[Token], room: u16, levels: u8) -> ReadArgs<'_>
    ensures read { Gives (λ x. (map expr_of x.0.items, x.2.now)) result (arguments_at room levels tokens.now) }
    ensures deep { IfOk result (λ x. x.1 ≡ depth_of_args (exprs_of (map expr_of x.0.items))) }
{
    if room == 0 {
        return Err(Halt::Syntax { left: tokens.len() });
    }
    let (_, rest) = sign_of(tokens, Sign::OpenParen)?;
    if let Some((_, rest)) = past_sign(rest, Sign::CloseParen) {
        return Ok((List::new(alloc), 0, rest));
    }
    let (args, deepest, rest) = args_of(alloc, rest, room - 1, levels)?;
    let (_, rest) = sign_of(rest, Sign::CloseParen)?;
    Ok((args, deepest, rest))
}

// expr ")" behind the "("
#[cycle(nest)]
pub(crate) fn closed_of(alloc: Global, tokens: &[Token], room: u16, levels: u8) -> Read<'_>
    ensures read { Gives (λ x. (expr_of x.0.value, x.2.now)) result (closed_at room levels tokens.now) }
    ensures deep { IfOk result (λ x. x.1 ≡ depth (expr_of x.0.value)) }
{
    if room == 0 {
        return Err(Halt::Syntax {
            left: tokens.len() + 1,
        });
    }
    let (inner, deep, rest) = chain_of(alloc, tokens, room - 1, levels, LOOSEST)?;
    let (_, rest) = sign_of(rest, Sign::CloseParen)?;
    Ok((inner, deep, rest))
}

// What a name in front begins: a variable, or a call.
#[cycle(nest)]
#[tactic(auto, using(jv_tree::proofs::ViewLaws::views), unfolding(jv_grammar::specs::Exprs::named_at, jv_grammar::specs::Exprs::arguments_at, jv_grammar::specs::Exprs::named_with))]
fn named_of(
    alloc: Global,
    place: Place,
    name: Text,
    tokens: &[Token],
    room: u16,
    levels: u8,
) -> Read<'_>
    ensures read { Gives (λ x. (expr_of x.0.value, x.2.now)) result (named_at room levels place name tokens.now) }
    ensures deep { IfOk result (λ x. x.1 ≡ depth (expr_of x.0.value)) }
{
    if is_sign(tokens, Sign::OpenParen) {
        let (args, deepest, rest) = arguments_of(alloc, tokens, room, levels.saturating_sub(1))?;
        return fit(
            alloc,
            place,
            ExprKind::Call(name, args),
            deepest,
            levels,
            rest,
        );
    }
    leaf(alloc, place, ExprKind::Name(name), tokens)
}

// What a word in front begins.
#[cycle(nest)]
#[tactic(auto, using(jv_tree::proofs::ViewLaws::views), unfolding(jv_grammar::specs::Exprs::word_primary_at, jv_grammar::specs::Exprs::named_at, jv_grammar::specs::Exprs::word_with))]
fn word_primary_of<'a>(
    alloc: Global,
    place: Place,
    word: &str,
    tokens: &'a [Token],
    room: u16,
    levels: u8,
) -> Read<'a>
    ensures read { Gives (λ x. (expr_of x.0.value, x.2.now)) result (word_primary_at room levels place word.now tokens.now) }
    ensures deep { IfOk result (λ x. x.1 ≡ depth (expr_of x.0.value)) }
{
    if is_name(word) {
        let name = Text::of(alloc, word)?;
        return named_of(alloc, place, name, tokens, room, levels);
    }
    if word == "new" {
        return new_of(alloc, place, tokens, room);
    }
    match literal(place, word) {
        Some(expr) => Ok((Box::new(alloc, expr)?, 1, tokens)),
        None => Err(Halt::Syntax {
            left: tokens.len() + 1,
        }),
    }
}

#[cycle(nest)]
#[tactic(auto, using(jv_tree::proofs::ViewLaws::views), unfolding(jv_grammar::specs::Exprs::primary_at, jv_grammar::specs::Exprs::primary_with, jv_grammar::specs::Exprs::signed_with, jv_grammar::specs::Exprs::closed_at, jv_grammar::specs::Exprs::word_primary_at))]
fn primary_of(alloc: Global, tokens: &[Token], room: u16, levels: u8) -> Read<'_>
    ensures read { Gives (λ x. (expr_of x.0.value, x.2.now)) result (primary_at room levels tokens.now) }
    ensures deep { IfOk result (λ x. x.1 ≡ depth (expr_of x.0.value)) }
{
    let left = tokens.len();
    if levels == 0 {
        return Err(Halt::Syntax { left });
    }
    let Some((first, rest)) = tokens.split_first() else {
        return Err(Halt::Syntax { left });
    };
    let place = first.place;
    match &first.kind {
        TokenKind::Word(word) => {
            word_primary_of(alloc, place, word.as_str(), rest, room, levels)
        }
        TokenKind::Number(number) => {
            if *number > 2_147_483_647 {
                return Err(Halt::Syntax { left });
            }
            leaf(alloc, place, ExprKind::Int(*number as i32), rest)
        }
        TokenKind::Text(text) => { leaf(alloc, place, ExprKind::Text(text.copy()?), rest) }
        TokenKind::Sign(sign) => {
            if *sign == Sign::OpenParen {
                closed_of(alloc, rest, room, levels)
            } else if *sign == Sign::Minus {
                negative_of(alloc, place, rest)
            } else {
                Err(Halt::Syntax { left })
            }
        }
    }
}

// "." name [ "(" [args] ")" ] behind an expression.
#[cycle(nest)]
#[tactic(auto, using(jv_tree::proofs::ViewLaws::views), unfolding(jv_grammar::specs::Exprs::tail_at, jv_grammar::specs::Exprs::arguments_at, jv_grammar::specs::Exprs::tail_with, jv_grammar::specs::Exprs::member_with))]
fn tail_of(
    alloc: Global,
    left: Box<Expr>,
    deep: u8,
    tokens: &[Token],
    room: u16,
    levels: u8,
) -> Read<'_>
    requires { deep ≡ depth (expr_of left.value) }
    ensures read { Gives (λ x. (expr_of x.0.value, x.2.now)) result (tail_at room levels (expr_of left.value) tokens.now) }
    ensures deep { IfOk result (λ x. x.1 ≡ depth (expr_of x.0.value)) }
{
    let place = left.place;
    let (_, rest) = sign_of(tokens, Sign::Dot)?;
    let (_, name, rest) = name_of(rest)?;
    if is_sign(rest, Sign::OpenParen) {
        let (args, deepest, rest) = arguments_of(alloc, rest, room, levels.saturating_sub(1))?;
        let kind = ExprKind::MethodCall(left, name, args);
        return fit(alloc, place, kind, deep.max(deepest), levels, rest);
    }
    fit(
        alloc,
        place,
        ExprKind::Member(left, name),
        deep,
        levels,
        rest,
    )
}

#[cycle(nest)]
pub(crate) fn post_of(alloc: Global, tokens: &[Token], room: u16, levels: u8) -> Read<'_>
    ensures read { Gives (λ x. (expr_of x.0.value, x.2.now)) result (post_at room levels tokens.now) }
    ensures deep { IfOk result (λ x. x.1 ≡ depth (expr_of x.0.value)) }
{
    let (mut left, mut deep, mut rest) = primary_of(alloc, tokens, room, levels)?;
    'tails: while is_sign(rest, Sign::Dot) {
        let (longer, height, after) = tail_of(alloc, left, deep, rest, room, levels)?;
        left = longer;
        deep = height;
        rest = after;
    }
    Ok((left, deep, rest))
}

#[cycle(nest)]
#[tactic(auto, using(jv_tree::proofs::ViewLaws::views), unfolding(jv_grammar::specs::Exprs::unary_at, jv_grammar::specs::Exprs::post_at, jv_grammar::specs::Exprs::unary_with))]
fn unary_of(alloc: Global, tokens: &[Token], room: u16, levels: u8) -> Read<'_>
    ensures read { Gives (λ x. (expr_of x.0.value, x.2.now)) result (unary_at room levels tokens.now) }
    ensures deep { IfOk result (λ x. x.1 ≡ depth (expr_of x.0.value)) }
{
    if levels == 0 {
        return Err(Halt::Syntax { left: tokens.len() });
    }
    if let Some((place, rest)) = past_negation(tokens) {
        let (inner, deep, rest) = unary_of(alloc, rest, room, levels - 1)?;
        return fit(alloc, place, ExprKind::Neg(inner), deep, levels, rest);
    }
    if let Some((place, rest)) = past_sign(tokens, Sign::Bang) {
        let (inner, deep, rest) = unary_of(alloc, rest, room, levels - 1)?;
        return fit(alloc, place, ExprKind::Not(inner), deep, levels, rest);
    }
    post_of(alloc, tokens, room, levels)
}

// An operator and the part after it, behind the part before it.
#[cycle(nest)]
#[tactic(auto, using(jv_tree::proofs::ViewLaws::views), unfolding(jv_grammar::specs::Exprs::joined_at, jv_grammar::specs::Exprs::binary_at, jv_grammar::specs::Exprs::joined_with))]
fn joined_of(
    alloc: Global,
    left: Box<Expr>,
    deep: u8,
    tokens: &[Token],
    room: u16,
    levels: u8,
    strength: u8,
) -> Read<'_>
    requires { deep ≡ depth (expr_of left.value) }
    ensures read { Gives (λ x. (expr_of x.0.value, x.2.now)) result (joined_at room strength levels (expr_of left.value) tokens.now) }
    ensures deep { IfOk result (λ x. x.1 ≡ depth (expr_of x.0.value)) }
{
    let place = left.place;
    let Some((op, rest)) = op_of(tokens, strength) else {
        return Err(Halt::Syntax { left: tokens.len() });
    };
    let (right, height, rest) = chain_of(alloc, rest, room, levels.saturating_sub(1), strength)?;
    let kind = ExprKind::Binary(op, left, right);
    fit(alloc, place, kind, deep.max(height), levels, rest)
}

// Parts with operators between them that all bind less loosely than this: of the loosest, an
// expression. So many parentheses may be open in it, and it is at most so deep.
#[cycle(nest)]
pub(crate) fn chain_of(
    alloc: Global,
    tokens: &[Token],
    room: u16,
    levels: u8,
    looseness: u8,
) -> Read<'_>
    ensures read { Gives (λ x. (expr_of x.0.value, x.2.now)) result (binary_at room looseness levels tokens.now) }
    ensures deep { IfOk result (λ x. x.1 ≡ depth (expr_of x.0.value)) }
{
    if looseness == 0 {
        return unary_of(alloc, tokens, room, levels);
    }
    let strength = looseness - 1;
    let (mut left, mut deep, mut rest) = chain_of(alloc, tokens, room, levels, strength)?;
    'parts: while is_op(rest, strength) {
        let (longer, height, after) = joined_of(alloc, left, deep, rest, room, levels, strength)?;
        left = longer;
        deep = height;
        rest = after;
    }
    Ok((left, deep, rest))
}
