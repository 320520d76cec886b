//! Reads the tokens of a Scribble file.
//! What is read are the parts of the file as they are written, and `Syntax` says that the tokens spell none.
#![tactic(auto)]

ghost use Rattle.std.specs.Prelude.{◌≡◌, ℕ, IfOk, List as Seq};
ghost use Rattle.scr_tree.specs.Tok.{Tok, toks};
ghost use Rattle.scr_tree.specs.Written.{WrittenTree, written_of};
ghost use Rattle.scr_parse.specs.Grammar.{IsSpelled};
ghost use Rattle.scr_parse.specs.Answer.{Gives, IsReadOrMemory, SaysSyntax};
ghost use Rattle.scr_parse.specs.inner.Reading.{file_at};

mod arguments;
mod body;
mod carries;
mod fault;
mod front;
mod header;
mod nest;
mod part;
mod types;

pub use crate::body::payload_of;
pub use crate::carries::carries_of;
pub use crate::fault::ParseFault;
pub use crate::front::{is_mark, mark_of, name_of};
pub use crate::header::{after_module, roles_of};
pub use crate::nest::{Nest, block_of};
use crate::part::{part_of, parts_of};
pub use crate::types::{Types, types_of};
use scr_tree::{Token, Written};
use std::alloc::Global;

// A whole file.
#[tactic(auto, unfolding(crate::specs::inner::Reading::file_at))]
fn file_of(alloc: Global, tokens: &[Token]) -> Result<Written, ParseFault>
    ensures { Gives (written_of 0) result (file_at (toks tokens.now)) }
{
    let rest = after_module(alloc, tokens)?;
    let (declared, rest) = types_of(alloc, rest)?;
    let types = Types::of(alloc, declared)?;
    let (first, rest) = part_of(alloc, &types, rest)?;
    let (others, _) = parts_of(alloc, &types, rest)?;
    let Types { declared, kinds: _ } = types;
    Ok(Written {
        types: declared,
        first,
        others,
    })
}

/// Reads the file that tokens spell, with statements at most 200 deep one inside another. The
/// answer is `Syntax` where they spell none, with the place of the first token that can't stand.
pub fn parse(alloc: Global, tokens: &[Token]) -> Result<Written, ParseFault>
    // What is read is spelled so.
    ensures found { IfOk result (λ written. (file : ℕ) → IsSpelled (written_of file written) (toks tokens.now)) }
    // What is spelled so is read, unless memory runs out.
    ensures only { (w : WrittenTree) → IsSpelled w (toks tokens.now) → IsReadOrMemory result w }
    // Where it says that nothing is spelled, nothing is.
    ensures none { SaysSyntax result → (w : WrittenTree) → IsSpelled w (toks tokens.now) → ⊥ }
{
    file_of(alloc, tokens)
}

/// Tokens of one file spell one tree at most.
pub fn one_tree()
    ensures { (w v : WrittenTree) (ts : Seq Tok) → IsSpelled w ts → IsSpelled v ts → w.file ≡ v.file → w ≡ v }
{}
