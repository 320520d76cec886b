//! Reads the tokens of a file of a global protocol.
//! What is read are the parts of the file as they are written, and `Syntax` says that the tokens spell none.
#![tactic(auto)]

ghost use Rattle.std.specs.Prelude.{◌≡◌, ℕ, IfOk, map, List as Seq};
ghost use Rattle.scr_tree.specs.Tok.{Tok, toks};
ghost use Rattle.scr_tree.specs.Written.{carries_of};
ghost use Rattle.scr_parse.specs.Answer.{Gives};
ghost use Rattle.scr_parse.specs.inner.Kinds.{IsTable};
ghost use Rattle.scr_global_tree.specs.View.{statements};
ghost use Rattle.scr_global_tree.specs.Written.{WrittenTree, written_of};
ghost use Rattle.scr_global_parse.specs.Grammar.{IsSpelled};
ghost use Rattle.scr_global_parse.specs.Answer.{IsReadOrMemory, SaysSyntax};
ghost use Rattle.scr_global_parse.specs.inner.View.{all_alone};
ghost use Rattle.scr_global_parse.specs.inner.Reading.{title_at, header_at, only_block_at, body_at, file_at};

mod body;

use crate::body::OfGlobal;
use mg_text::{List, Text};
use scr_global_tree::{GStatement, WrittenGlobal};
pub use scr_parse::ParseFault;
use scr_parse::{Types, after_module, block_of, carries_of, mark_of, name_of, roles_of, types_of};
use scr_tree::{Carries, Mark, Role, Token};
use std::alloc::Global;

/// Statements that may stand one inside another.
const MAX_DEPTH: u8 = 200;

// "global" "protocol" name
#[tactic(auto, unfolding(crate::specs::inner::Reading::title_at))]
fn title_of(tokens: &[Token]) -> Result<(Text, &[Token]), ParseFault>
    ensures { Gives (λ x. (x.0, toks x.1.now)) result (title_at (toks tokens.now)) }
{
    let (_, rest) = mark_of(tokens, Mark::Global)?;
    let (_, rest) = mark_of(rest, Mark::Protocol)?;
    let (_, name, rest) = name_of(rest)?;
    Ok((name, rest))
}

// "(" roles ")"
#[tactic(auto, unfolding(crate::specs::inner::Reading::header_at))]
fn header_of(alloc: Global, tokens: &[Token]) -> Result<(List<Role>, &[Token]), ParseFault>
    ensures { Gives (λ x. (x.0.items, toks x.1.now)) result (header_at (toks tokens.now)) }
{
    let (_, rest) = mark_of(tokens, Mark::OpenParen)?;
    let (roles, rest) = roles_of(alloc, rest)?;
    let (_, rest) = mark_of(rest, Mark::CloseParen)?;
    Ok((roles, rest))
}

// The statements of a body behind which nothing stands.
#[tactic(auto, unfolding(crate::specs::inner::Reading::only_block_at))]
fn only_block_of(
    alloc: Global,
    types: &Types,
    tokens: &[Token],
) -> Result<List<GStatement>, ParseFault>
    requires { IsTable types.now }
    ensures { Gives (λ x. all_alone x.items) result (only_block_at types.now.declared.items (toks tokens.now)) }
{
    let (statements, rest) = block_of::<OfGlobal>(alloc, types, tokens, MAX_DEPTH)?;
    match rest {
        [] => Ok(statements),
        [extra, ..] => Err(ParseFault::Syntax(Some(extra.place))),
    }
}

// The body of a protocol, and what its messages carry.
#[tactic(auto, using(crate::proofs::Views::statements_joined), unfolding(crate::specs::inner::Reading::body_at))]
fn body_of(
    alloc: Global,
    types: &Types,
    tokens: &[Token],
) -> Result<(List<GStatement>, List<Carries>), ParseFault>
    requires { IsTable types.now }
    ensures { Gives (λ x. (statements x.0.items, map carries_of x.1.items)) result (body_at types.now.declared.items (toks tokens.now)) }
{
    let statements = only_block_of(alloc, types, tokens)?;
    let carries = carries_of(alloc, tokens)?;
    Ok((statements, carries))
}

// A whole file.
#[tactic(auto, unfolding(crate::specs::inner::Reading::file_at))]
fn file_of(alloc: Global, tokens: &[Token]) -> Result<WrittenGlobal, ParseFault>
    ensures { Gives (written_of 0) result (file_at (toks tokens.now)) }
{
    let rest = after_module(alloc, tokens)?;
    let (declared, rest) = types_of(alloc, rest)?;
    let (name, rest) = title_of(rest)?;
    let (roles, rest) = header_of(alloc, rest)?;
    let types = Types::of(alloc, declared)?;
    let (body, carries) = body_of(alloc, &types, rest)?;
    let Types { declared, kinds: _ } = types;
    Ok(WrittenGlobal {
        types: declared,
        name,
        roles,
        carries,
        body,
    })
}

/// Reads the file that tokens spell, with statements at most 200 deep one inside another. The
/// answer is `Syntax` where they spell none, with the place of the first token that can't stand.
pub fn parse(alloc: Global, tokens: &[Token]) -> Result<WrittenGlobal, ParseFault>
    // What is read is spelled so.
    ensures found { IfOk result (λ written. (file : ℕ) → IsSpelled (written_of file written) (toks tokens.now)) }
    // What is spelled so is read, unless memory runs out.
    ensures only { (w : WrittenTree) → IsSpelled w (toks tokens.now) → IsReadOrMemory result w }
    // Where it says that nothing is spelled, nothing is.
    ensures none { SaysSyntax result → (w : WrittenTree) → IsSpelled w (toks tokens.now) → ⊥ }
{
    file_of(alloc, tokens)
}

/// Tokens of one file spell one tree at most.
pub fn one_tree()
    ensures { (w v : WrittenTree) (ts : Seq Tok) → IsSpelled w ts → IsSpelled v ts → w.file ≡ v.file → w ≡ v }
{}
