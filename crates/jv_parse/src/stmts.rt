//! Reads statements, one function for each production.
//! Statements and expressions inside are at most `levels` deep.

ghost use Rattle.std.specs.Prelude.{◌≡◌, ◌≤◌, Some, map};
ghost use Rattle.jv_tree.specs.View.{expr_of, stmt_of, group_of};
ghost use Rattle.jv_parse.specs.inner.Behind.{break_behind, continue_behind, return_behind};
ghost use Rattle.jv_parse.specs.inner.Gives.{Gives};
ghost use Rattle.jv_parse.specs.inner.Loops.{while_at, do_at};
ghost use Rattle.jv_grammar.specs.Stmts.{is_typed, is_decl, is_case, goes_on, case_at, cases_at, jump_at};
ghost use Rattle.jv_grammar.specs.Stmts.{empty_at, is_label, loop_place, loop_label, stmt_at, item_with, items_with, block_with, if_with};
ghost use Rattle.jv_grammar.specs.Stmts.{loop_with, labelled_with, group_with, groups_with, switch_with, simple_with};

use crate::assigns::{ReadStmt, assign_of, cond_of, ended_of, is_assign, local_of};
use crate::evaluations::evaluation_of;
use crate::halt::Halt;
use crate::tokens::{is_named, is_sign, is_word, name_of, past_sign, past_word, sign_of, word_of};
use jv_tree::{Expr, Group, Sign, Stmt, StmtKind, Token};
use mg_text::{List, Place, Text};
use std::alloc::Global;

// Whether two names come next.
fn is_typed(tokens: &[Token]) -> bool
    ensures { result ≡ is_typed tokens.now }
{
    let Some((_, rest)) = tokens.split_first() else {
        return false;
    };
    is_named(tokens) && is_named(rest)
}

// Whether a declaration comes next.
fn is_decl(tokens: &[Token]) -> bool
    ensures { result ≡ is_decl tokens.now }
{
    is_word(tokens, "final")
        || is_word(tokens, "int")
        || is_word(tokens, "boolean")
        || is_typed(tokens)
}

// Whether a label of a `switch` comes next.
fn is_case(tokens: &[Token]) -> bool
    ensures { result ≡ is_case tokens.now }
{
    is_word(tokens, "case") || is_word(tokens, "default")
}

// Whether the statements of a block or a group go on.
fn goes_on(tokens: &[Token]) -> bool
    ensures { result ≡ goes_on tokens.now }
{
    let ends = is_sign(tokens, Sign::CloseBrace) || is_case(tokens);
    !ends
}

// Whether a label comes next.
fn is_label(tokens: &[Token]) -> bool
    ensures { result ≡ is_label tokens.now }
{
    let Some((_, rest)) = tokens.split_first() else {
        return false;
    };
    is_named(tokens) && is_sign(rest, Sign::Colon)
}

// "case" name ":" | "default" ":"
#[tactic(auto, unfolding(jv_grammar::specs::Stmts::case_at))]
fn case_of(tokens: &[Token]) -> Result<(Option<Text>, &[Token]), Halt>
    ensures { Gives (λ x. (x.0, x.1.now)) result (case_at tokens.now) }
{
    if let Some((_, rest)) = past_word(tokens, "default") {
        let (_, rest) = sign_of(rest, Sign::Colon)?;
        return Ok((None, rest));
    }
    let (_, rest) = word_of(tokens, "case")?;
    let (_, name, rest) = name_of(rest)?;
    let (_, rest) = sign_of(rest, Sign::Colon)?;
    Ok((Some(name), rest))
}

// case { case }
fn cases_of(alloc: Global, tokens: &[Token]) -> Result<(List<Option<Text>>, &[Token]), Halt>
    ensures { Gives (λ x. (x.0.items, x.1.now)) result (cases_at tokens.now) }
{
    let (first, mut rest) = case_of(tokens)?;
    let mut labels = List::new(alloc);
    labels.push(first)?;
    'more: while is_case(rest) {
        let (label, after) = case_of(rest)?;
        labels.push(label)?;
        rest = after;
    }
    Ok((labels, rest))
}

// [ name ] ";"
#[tactic(auto, unfolding(jv_grammar::specs::Stmts::jump_at))]
fn jump_of(tokens: &[Token]) -> Result<(Option<Text>, &[Token]), Halt>
    ensures { Gives (λ x. (x.0, x.1.now)) result (jump_at tokens.now) }
{
    if is_named(tokens) {
        let (_, name, rest) = name_of(tokens)?;
        let (_, rest) = sign_of(rest, Sign::Semicolon)?;
        return Ok((Some(name), rest));
    }
    let (_, rest) = sign_of(tokens, Sign::Semicolon)?;
    Ok((None, rest))
}

// What stands behind "break" at this place.
#[tactic(auto, using(jv_tree::proofs::ViewLaws::views))]
fn break_of(place: Place, tokens: &[Token]) -> ReadStmt<'_>
    ensures { Gives (λ x. (stmt_of x.0, x.1.now)) result (break_behind place tokens.now) }
{
    let (label, rest) = jump_of(tokens)?;
    let kind = StmtKind::Break(label);
    Ok((Stmt { place, kind }, rest))
}

// What stands behind "continue" at this place.
#[tactic(auto, using(jv_tree::proofs::ViewLaws::views))]
fn continue_of(place: Place, tokens: &[Token]) -> ReadStmt<'_>
    ensures { Gives (λ x. (stmt_of x.0, x.1.now)) result (continue_behind place tokens.now) }
{
    let (label, rest) = jump_of(tokens)?;
    let kind = StmtKind::Continue(label);
    Ok((Stmt { place, kind }, rest))
}

// What stands behind "return" at this place.
#[tactic(auto, using(jv_tree::proofs::ViewLaws::views))]
fn return_of(alloc: Global, place: Place, tokens: &[Token], levels: u8) -> ReadStmt<'_>
    ensures { Gives (λ x. (stmt_of x.0, x.1.now)) result (return_behind levels place tokens.now) }
{
    if let Some((_, rest)) = past_sign(tokens, Sign::Semicolon) {
        let kind = StmtKind::Return(None);
        return Ok((Stmt { place, kind }, rest));
    }
    let (value, _, rest) = ended_of(alloc, tokens, levels)?;
    let kind = StmtKind::Return(Some(Box::into_inner(value)));
    Ok((Stmt { place, kind }, rest))
}

#[tactic(auto, using(jv_tree::proofs::ViewLaws::views), unfolding(jv_grammar::specs::Stmts::empty_at))]
fn empty_of(tokens: &[Token]) -> ReadStmt<'_>
    ensures { Gives (λ x. (stmt_of x.0, x.1.now)) result (empty_at tokens.now) }
{
    let (place, rest) = sign_of(tokens, Sign::Semicolon)?;
    let kind = StmtKind::Empty;
    Ok((Stmt { place, kind }, rest))
}

// A statement that holds no other one.
#[tactic(auto, unfolding(jv_grammar::specs::Stmts::simple_with, jv_grammar::specs::Stmts::break_at, jv_grammar::specs::Stmts::continue_at, jv_grammar::specs::Stmts::return_at))]
fn simple_of(alloc: Global, tokens: &[Token], levels: u8) -> ReadStmt<'_>
    requires { levels ≤ 200 }
    ensures { Gives (λ x. (stmt_of x.0, x.1.now)) result (simple_with levels (stmt_at levels) tokens.now) }
{
    if let Some((place, rest)) = past_word(tokens, "break") {
        return break_of(place, rest);
    }
    if let Some((place, rest)) = past_word(tokens, "continue") {
        return continue_of(place, rest);
    }
    if let Some((place, rest)) = past_word(tokens, "return") {
        return return_of(alloc, place, rest, levels);
    }
    if is_assign(tokens) {
        return assign_of(alloc, tokens, levels);
    }
    evaluation_of(alloc, tokens, levels)
}

// A declaration or a statement.
#[cycle(nest_stmts)]
#[tactic(auto, unfolding(jv_grammar::specs::Stmts::item_with))]
fn item_of(alloc: Global, tokens: &[Token], levels: u8) -> ReadStmt<'_>
    requires { levels ≤ 200 }
    ensures { Gives (λ x. (stmt_of x.0, x.1.now)) result (item_with levels (stmt_at levels) tokens.now) }
{
    if is_decl(tokens) {
        return local_of(alloc, tokens, levels.saturating_sub(1));
    }
    stmt_of(alloc, tokens, levels)
}

// { item }
#[cycle(nest_stmts)]
pub(crate) fn items_of(
    alloc: Global,
    tokens: &[Token],
    levels: u8,
) -> Result<(List<Stmt>, &[Token]), Halt>
    requires { levels ≤ 200 }
    ensures { Gives (λ x. (map stmt_of x.0.items, x.1.now)) result (items_with levels (stmt_at levels) tokens.now) }
{
    let mut stmts = List::new(alloc);
    let mut rest = tokens;
    'items: while goes_on(rest) {
        let (stmt, after) = item_of(alloc, rest, levels)?;
        stmts.push(stmt)?;
        rest = after;
    }
    Ok((stmts, rest))
}

#[cycle(nest_stmts)]
#[tactic(auto, using(jv_tree::proofs::ViewLaws::views), unfolding(jv_grammar::specs::Stmts::block_with))]
fn block_of(alloc: Global, tokens: &[Token], levels: u8) -> ReadStmt<'_>
    requires { levels ≤ 200 }
    ensures { Gives (λ x. (stmt_of x.0, x.1.now)) result (block_with levels (stmt_at levels) tokens.now) }
{
    let (place, rest) = sign_of(tokens, Sign::OpenBrace)?;
    let (body, rest) = items_of(alloc, rest, levels)?;
    let (end, rest) = sign_of(rest, Sign::CloseBrace)?;
    let kind = StmtKind::Block(body, end);
    Ok((Stmt { place, kind }, rest))
}

// A statement that stands in another one.
#[cycle(nest_stmts)]
fn inner_of(alloc: Global, tokens: &[Token], levels: u8) -> Result<(Box<Stmt>, &[Token]), Halt>
    requires { levels ≤ 200 }
    ensures { Gives (λ x. (stmt_of x.0.value, x.1.now)) result (stmt_at levels tokens.now) }
{
    let (stmt, rest) = stmt_of(alloc, tokens, levels)?;
    let stmt = Box::new(alloc, stmt)?;
    Ok((stmt, rest))
}

#[cycle(nest_stmts)]
#[tactic(auto, using(jv_tree::proofs::ViewLaws::views), unfolding(jv_grammar::specs::Stmts::if_with, jv_grammar::specs::Stmts::else_with))]
fn if_of(alloc: Global, tokens: &[Token], levels: u8) -> ReadStmt<'_>
    requires { levels ≤ 200 }
    ensures { Gives (λ x. (stmt_of x.0, x.1.now)) result (if_with levels (stmt_at levels) tokens.now) }
{
    let (place, rest) = word_of(tokens, "if")?;
    let (test, rest) = cond_of(alloc, rest, levels)?;
    let (body, rest) = inner_of(alloc, rest, levels)?;
    if let Some((_, rest)) = past_word(rest, "else") {
        let (other, rest) = inner_of(alloc, rest, levels)?;
        let kind = StmtKind::If(Box::into_inner(test), body, Some(other));
        return Ok((Stmt { place, kind }, rest));
    }
    let kind = StmtKind::If(Box::into_inner(test), body, None);
    Ok((Stmt { place, kind }, rest))
}

// A loop without its label: the place of its first token, its test and its body, and the tokens
// after it.
type ReadLoop<'a> = Result<(Place, Box<Expr>, Box<Stmt>, &'a [Token]), Halt>;

// Where a loop with this first token begins, and its label.
fn labelled(start: Place, label: Option<(Place, Text)>) -> (Place, Option<Text>)
    ensures place { result.0 ≡ loop_place start label }
    ensures name { result.1 ≡ loop_label label }
{
    match label {
        Some((place, name)) => (place, Some(name)),
        None => (start, None),
    }
}

#[cycle(nest_stmts)]
#[tactic(auto, unfolding(crate::specs::inner::Loops::while_at))]
fn while_of(alloc: Global, tokens: &[Token], levels: u8) -> ReadLoop<'_>
    requires { levels ≤ 200 }
    ensures { Gives (λ x. ((x.0, (expr_of x.1.value, stmt_of x.2.value)), x.3.now)) result (while_at levels (stmt_at levels) tokens.now) }
{
    let (start, rest) = word_of(tokens, "while")?;
    let (test, rest) = cond_of(alloc, rest, levels)?;
    let (body, rest) = inner_of(alloc, rest, levels)?;
    Ok((start, test, body, rest))
}

#[cycle(nest_stmts)]
#[tactic(auto, unfolding(crate::specs::inner::Loops::do_at))]
fn do_of(alloc: Global, tokens: &[Token], levels: u8) -> ReadLoop<'_>
    requires { levels ≤ 200 }
    ensures { Gives (λ x. ((x.0, (expr_of x.1.value, stmt_of x.2.value)), x.3.now)) result (do_at levels (stmt_at levels) tokens.now) }
{
    let (start, rest) = word_of(tokens, "do")?;
    let (body, rest) = inner_of(alloc, rest, levels)?;
    let (_, rest) = word_of(rest, "while")?;
    let (test, rest) = cond_of(alloc, rest, levels)?;
    let (_, rest) = sign_of(rest, Sign::Semicolon)?;
    Ok((start, test, body, rest))
}

// A loop behind its label, where it has one: the place of the label, and its name.
#[cycle(nest_stmts)]
#[tactic(auto, using(jv_tree::proofs::ViewLaws::views, crate::proofs::StmtTurns::while_is, crate::proofs::StmtTurns::do_is), unfolding(jv_grammar::specs::Stmts::loop_with))]
fn loop_of(
    alloc: Global,
    tokens: &[Token],
    label: Option<(Place, Text)>,
    levels: u8,
) -> ReadStmt<'_>
    requires { levels ≤ 200 }
    ensures { Gives (λ x. (stmt_of x.0, x.1.now)) result (loop_with levels (stmt_at levels) label tokens.now) }
{
    if is_word(tokens, "while") {
        let (start, test, body, rest) = while_of(alloc, tokens, levels)?;
        let (place, name) = labelled(start, label);
        let kind = StmtKind::While(name, Box::into_inner(test), body);
        return Ok((Stmt { place, kind }, rest));
    }
    let (start, test, body, rest) = do_of(alloc, tokens, levels)?;
    let (place, name) = labelled(start, label);
    let kind = StmtKind::Do(name, body, Box::into_inner(test));
    Ok((Stmt { place, kind }, rest))
}

#[cycle(nest_stmts)]
#[tactic(auto, using(jv_tree::proofs::ViewLaws::views), unfolding(jv_grammar::specs::Stmts::group_with))]
fn group_of(alloc: Global, tokens: &[Token], levels: u8) -> Result<(Group, &[Token]), Halt>
    requires { levels ≤ 200 }
    ensures { Gives (λ x. (group_of x.0, x.1.now)) result (group_with levels (stmt_at levels) tokens.now) }
{
    let (labels, rest) = cases_of(alloc, tokens)?;
    let (body, rest) = items_of(alloc, rest, levels)?;
    let Some((next, _)) = rest.split_first() else {
        return Err(Halt::Syntax { left: 0 });
    };
    let end = next.place;
    Ok((Group { labels, body, end }, rest))
}

// { case { case } { item } }
#[cycle(nest_stmts)]
fn groups_of(alloc: Global, tokens: &[Token], levels: u8) -> Result<(List<Group>, &[Token]), Halt>
    requires { levels ≤ 200 }
    ensures { Gives (λ x. (map group_of x.0.items, x.1.now)) result (groups_with levels (stmt_at levels) tokens.now) }
{
    let mut groups = List::new(alloc);
    let mut rest = tokens;
    'turns: while is_case(rest) {
        let (group, after) = group_of(alloc, rest, levels)?;
        groups.push(group)?;
        rest = after;
    }
    Ok((groups, rest))
}

#[cycle(nest_stmts)]
#[tactic(auto, using(jv_tree::proofs::ViewLaws::views), unfolding(jv_grammar::specs::Stmts::switch_with))]
fn switch_of(alloc: Global, tokens: &[Token], levels: u8) -> ReadStmt<'_>
    requires { levels ≤ 200 }
    ensures { Gives (λ x. (stmt_of x.0, x.1.now)) result (switch_with levels (stmt_at levels) tokens.now) }
{
    let (place, rest) = word_of(tokens, "switch")?;
    let (value, rest) = cond_of(alloc, rest, levels)?;
    let (_, rest) = sign_of(rest, Sign::OpenBrace)?;
    let (groups, rest) = groups_of(alloc, rest, levels)?;
    let (end, rest) = sign_of(rest, Sign::CloseBrace)?;
    let kind = StmtKind::Switch(Box::into_inner(value), groups, end);
    Ok((Stmt { place, kind }, rest))
}

// A statement that is at most so deep.
#[cycle(nest_stmts)]
#[tactic(auto, unfolding(jv_grammar::specs::Stmts::stmt_at, jv_grammar::specs::Stmts::stmt_with, jv_grammar::specs::Stmts::labelled_with))]
fn stmt_of(alloc: Global, tokens: &[Token], levels: u8) -> ReadStmt<'_>
    requires { levels ≤ 200 }
    ensures { Gives (λ x. (stmt_of x.0, x.1.now)) result (stmt_at levels tokens.now) }
{
    if levels == 0 {
        return Err(Halt::Syntax { left: tokens.len() });
    }
    let inside = levels - 1;
    if is_sign(tokens, Sign::OpenBrace) {
        return block_of(alloc, tokens, inside);
    }
    if is_sign(tokens, Sign::Semicolon) {
        return empty_of(tokens);
    }
    if is_word(tokens, "if") {
        return if_of(alloc, tokens, inside);
    }
    if is_word(tokens, "while") || is_word(tokens, "do") {
        return loop_of(alloc, tokens, None, inside);
    }
    if is_word(tokens, "switch") {
        return switch_of(alloc, tokens, inside);
    }
    if is_label(tokens) {
        let (place, name, rest) = name_of(tokens)?;
        let (_, rest) = sign_of(rest, Sign::Colon)?;
        return loop_of(alloc, rest, Some((place, name)), inside);
    }
    simple_of(alloc, tokens, inside)
}
