//! Statements one inside another: blocks, choices and loops, one function a production.
//! Local and global protocols have them alike; what their own statements are, a `Nest` says.

ghost use Rattle.std.specs.Prelude.{◌≡◌, map, List as Seq};
ghost use Rattle.mg_text.specs.Call.{Name};
ghost use Rattle.mg_text.specs.declared.place.Place.{Place};
ghost use Rattle.mg_read.specs.Reader.{Reader, all_of};
ghost use Rattle.mg_read.proofs.Loop.{with_front};
ghost use Rattle.scr_tree.specs.Tok.{Tok, toks};
ghost use Rattle.scr_tree.specs.declared.token.Mark.TheVariants as marks;
ghost use Rattle.scr_tree.specs.declared.written.Declaration.{Declaration};
ghost use Rattle.scr_parse.specs.Answer.{Gives};
ghost use Rattle.scr_parse.specs.inner.Kinds.{IsTable};
ghost use Rattle.scr_parse.specs.inner.Reading.{is_at, not_closed, block_with, other_with, branches_with, choice_with, rec_with};
ghost use Rattle.scr_parse.specs.inner.Reading.{statement_with, nested_at, Shortens};

use crate::fault::ParseFault;
use crate::front::{is_mark, mark_of, name_of};
use crate::types::Types;
use mg_text::{List, Place, Text};
use scr_tree::{Mark, Token};
use std::alloc::Global;

/// The statements of a protocol: how one is read in which no others stand, and what one is made of in which some do.
pub trait Nest {
    /// A statement.
    type Statement: Drop;

    // What a statement says.
    ghost Tree: { Type 0 };

    ghost tree_of: { Self.Statement → Tree };

    // A choice, and a loop, of its parts.
    ghost choice_tree: { Place → Name → Seq (Seq Tree) → Tree };

    ghost loop_tree: { Place → Name → Seq Tree → Tree };

    // How a statement is read in which no others stand, by the types that are declared.
    ghost plain_tree_at: { Seq Declaration → Reader Tok Tree };

    /// A choice.
    fn choice(place: Place, at: Text, branches: List<List<Self::Statement>>) -> Self::Statement
        ensures { tree_of result ≡ choice_tree place at (map (λ b. map tree_of b.items) branches.items) };

    /// A loop.
    fn rec(place: Place, name: Text, body: List<Self::Statement>) -> Self::Statement
        ensures { tree_of result ≡ loop_tree place name (map tree_of body.items) };

    /// Reads a statement in which no others stand.
    fn plain<'a>(
        alloc: Global,
        types: &Types,
        tokens: &'a [Token],
    ) -> Result<(Self::Statement, &'a [Token]), ParseFault>
        requires { IsTable types.now }
        ensures { Gives (λ x. (tree_of x.0, toks x.1.now)) result (plain_tree_at types.now.declared.items (toks tokens.now)) };
}

// Where the first token stands.
fn first_place(tokens: &[Token]) -> Option<Place> {
    let (first, _) = tokens.split_first()?;
    Some(first.place)
}

// { statement }
#[cycle(nest)]
fn statements_of<'a, N: Nest>(
    alloc: Global,
    types: &Types,
    tokens: &'a [Token],
    levels: u8,
) -> Result<(List<N::Statement>, &'a [Token]), ParseFault>
    requires table { IsTable types.now }
    requires shorter { Shortens (nested_at (N.plain_tree_at types.now.declared.items) N.choice_tree N.loop_tree) }
    ensures { Gives (λ x. (map N.tree_of x.0.items, toks x.1.now)) result (all_of not_closed
        (nested_at (N.plain_tree_at types.now.declared.items) N.choice_tree N.loop_tree levels) (toks tokens.now)) }
{
    let mut statements = List::new(alloc);
    let mut rest = tokens;
    'statements: while !is_mark(rest, Mark::CloseBrace) {
        let (statement, after) = statement_of::<N>(alloc, types, rest, levels)?;
        statements.push(statement)?;
        rest = after;
    }
    Ok((statements, rest))
}

/// "{" statements "}", with statements at most so deep one inside another
#[cycle(nest)]
#[tactic(auto, unfolding(crate::specs::inner::Reading::block_with))]
pub fn block_of<'a, N: Nest>(
    alloc: Global,
    types: &Types,
    tokens: &'a [Token],
    levels: u8,
) -> Result<(List<N::Statement>, &'a [Token]), ParseFault>
    requires table { IsTable types.now }
    requires shorter { Shortens (nested_at (N.plain_tree_at types.now.declared.items) N.choice_tree N.loop_tree) }
    ensures { Gives (λ x. (map N.tree_of x.0.items, toks x.1.now)) result (block_with
        (nested_at (N.plain_tree_at types.now.declared.items) N.choice_tree N.loop_tree levels) (toks tokens.now)) }
{
    let (_, rest) = mark_of(tokens, Mark::OpenBrace)?;
    let (statements, rest) = statements_of::<N>(alloc, types, rest, levels)?;
    let (_, rest) = mark_of(rest, Mark::CloseBrace)?;
    Ok((statements, rest))
}

// "or" block
#[cycle(nest)]
#[tactic(auto, unfolding(crate::specs::inner::Reading::other_with))]
fn other_of<'a, N: Nest>(
    alloc: Global,
    types: &Types,
    tokens: &'a [Token],
    levels: u8,
) -> Result<(List<N::Statement>, &'a [Token]), ParseFault>
    requires table { IsTable types.now }
    requires shorter { Shortens (nested_at (N.plain_tree_at types.now.declared.items) N.choice_tree N.loop_tree) }
    ensures { Gives (λ x. (map N.tree_of x.0.items, toks x.1.now)) result (other_with
        (nested_at (N.plain_tree_at types.now.declared.items) N.choice_tree N.loop_tree levels) (toks tokens.now)) }
{
    let (_, rest) = mark_of(tokens, Mark::Or)?;
    block_of::<N>(alloc, types, rest, levels)
}

// { "or" block }, behind blocks that were read.
#[cycle(nest)]
fn more_branches_of<'a, N: Nest>(
    alloc: Global,
    types: &Types,
    branches: List<List<N::Statement>>,
    tokens: &'a [Token],
    levels: u8,
) -> Result<(List<List<N::Statement>>, &'a [Token]), ParseFault>
    requires table { IsTable types.now }
    requires shorter { Shortens (nested_at (N.plain_tree_at types.now.declared.items) N.choice_tree N.loop_tree) }
    ensures { Gives (λ x. (map (λ b. map N.tree_of b.items) x.0.items, toks x.1.now)) result
        (with_front (map (λ b. map N.tree_of b.items) branches.items) (all_of (is_at marks.Or) (other_with
        (nested_at (N.plain_tree_at types.now.declared.items) N.choice_tree N.loop_tree levels)) (toks tokens.now))) }
{
    let mut branches = branches;
    let mut rest = tokens;
    'others: while is_mark(rest, Mark::Or) {
        let (other, after) = other_of::<N>(alloc, types, rest, levels)?;
        branches.push(other)?;
        rest = after;
    }
    Ok((branches, rest))
}

// block { "or" block }
#[cycle(nest)]
#[tactic(auto, unfolding(crate::specs::inner::Reading::branches_with))]
fn branches_of<'a, N: Nest>(
    alloc: Global,
    types: &Types,
    tokens: &'a [Token],
    levels: u8,
) -> Result<(List<List<N::Statement>>, &'a [Token]), ParseFault>
    requires table { IsTable types.now }
    requires shorter { Shortens (nested_at (N.plain_tree_at types.now.declared.items) N.choice_tree N.loop_tree) }
    ensures { Gives (λ x. (map (λ b. map N.tree_of b.items) x.0.items, toks x.1.now)) result (branches_with
        (nested_at (N.plain_tree_at types.now.declared.items) N.choice_tree N.loop_tree levels) (toks tokens.now)) }
{
    let (first, rest) = block_of::<N>(alloc, types, tokens, levels)?;
    let mut branches = List::new(alloc);
    branches.push(first)?;
    more_branches_of::<N>(alloc, types, branches, rest, levels)
}

// "choice" "at" name branches
#[cycle(nest)]
#[tactic(auto, unfolding(crate::specs::inner::Reading::choice_with))]
fn choice_of<'a, N: Nest>(
    alloc: Global,
    types: &Types,
    tokens: &'a [Token],
    levels: u8,
) -> Result<(N::Statement, &'a [Token]), ParseFault>
    requires table { IsTable types.now }
    requires shorter { Shortens (nested_at (N.plain_tree_at types.now.declared.items) N.choice_tree N.loop_tree) }
    ensures { Gives (λ x. (N.tree_of x.0, toks x.1.now)) result (choice_with N.choice_tree
        (nested_at (N.plain_tree_at types.now.declared.items) N.choice_tree N.loop_tree levels) (toks tokens.now)) }
{
    let (place, rest) = mark_of(tokens, Mark::Choice)?;
    let (_, rest) = mark_of(rest, Mark::At)?;
    let (_, at, rest) = name_of(rest)?;
    let (branches, rest) = branches_of::<N>(alloc, types, rest, levels)?;
    Ok((N::choice(place, at, branches), rest))
}

// "rec" name block
#[cycle(nest)]
#[tactic(auto, unfolding(crate::specs::inner::Reading::rec_with))]
fn rec_of<'a, N: Nest>(
    alloc: Global,
    types: &Types,
    tokens: &'a [Token],
    levels: u8,
) -> Result<(N::Statement, &'a [Token]), ParseFault>
    requires table { IsTable types.now }
    requires shorter { Shortens (nested_at (N.plain_tree_at types.now.declared.items) N.choice_tree N.loop_tree) }
    ensures { Gives (λ x. (N.tree_of x.0, toks x.1.now)) result (rec_with N.loop_tree
        (nested_at (N.plain_tree_at types.now.declared.items) N.choice_tree N.loop_tree levels) (toks tokens.now)) }
{
    let (place, rest) = mark_of(tokens, Mark::Rec)?;
    let (_, name, rest) = name_of(rest)?;
    let (body, rest) = block_of::<N>(alloc, types, rest, levels)?;
    Ok((N::rec(place, name, body), rest))
}

// A statement in which statements stand at most so deep, itself counted.
#[cycle(nest)]
#[tactic(auto, unfolding(crate::specs::inner::Reading::nested_at, crate::specs::inner::Reading::statement_with))]
fn statement_of<'a, N: Nest>(
    alloc: Global,
    types: &Types,
    tokens: &'a [Token],
    levels: u8,
) -> Result<(N::Statement, &'a [Token]), ParseFault>
    requires table { IsTable types.now }
    requires shorter { Shortens (nested_at (N.plain_tree_at types.now.declared.items) N.choice_tree N.loop_tree) }
    ensures { Gives (λ x. (N.tree_of x.0, toks x.1.now)) result
        (nested_at (N.plain_tree_at types.now.declared.items) N.choice_tree N.loop_tree levels (toks tokens.now)) }
{
    if levels == 0 {
        return Err(ParseFault::Syntax(first_place(tokens)));
    }
    if is_mark(tokens, Mark::Choice) {
        choice_of::<N>(alloc, types, tokens, levels - 1)
    } else if is_mark(tokens, Mark::Rec) {
        rec_of::<N>(alloc, types, tokens, levels - 1)
    } else {
        N::plain(alloc, types, tokens)
    }
}
