//! Reads Java files from their tokens.
//! Each function reads one production of the grammar, and says what it reads of the list.
#![tactic(auto)]

ghost use Rattle.std.specs.Prelude.{◌≡◌, Some, None, IfOk};
ghost use Rattle.mg_read.specs.Culprit.{Culprit};
ghost use Rattle.mg_read.specs.First.{Judged};
ghost use Rattle.jv_tree.specs.Source.{File as Tree};
ghost use Rattle.jv_tree.specs.Files.{Spells};
ghost use Rattle.jv_tree.specs.View.{file_of};
ghost use Rattle.jv_parse.specs.Unsupported.{IsUnsupported};
ghost use Rattle.jv_parse.specs.Answer.{IsReadOrMemory, SaysUnsupported, IsRefusedOrMemory, SaysSyntax};
ghost use Rattle.jv_parse.specs.inner.Parsed.{Parsed};

mod assigns;
mod decls;
mod evaluations;
mod exprs;
mod fault;
mod files;
mod halt;
mod members;
mod modifiers;
mod stmts;
mod tokens;
mod unsupported;

pub use crate::fault::ParseFault;
use crate::files::file_of;
use crate::halt::Halt;
use crate::unsupported::first_unsupported;
use jv_tree::{File, Token};
use mg_text::{Place, Text};
use std::alloc::Global;

// The place of the token at which so many are left, or of the last one.
fn place_at(file: u32, tokens: &[Token], left: usize) -> Place {
    let index = tokens.len().saturating_sub(left.max(1));
    match tokens.get(index) {
        Some(token) => token.place,
        None => Place::start(file),
    }
}

// What the tokens say.
fn parsed_of(alloc: Global, file: u32, tokens: &[Token]) -> Result<File, ParseFault>
    ensures { Parsed result tokens.now }
{
    if let Some((place, name)) = first_unsupported(tokens) {
        let name = Text::of(alloc, name)?;
        return Err(ParseFault::Unsupported { place, name });
    }
    match file_of(alloc, tokens) {
        Ok(tree) => Ok(tree),
        Err(Halt::Memory) => Err(ParseFault::Memory),
        Err(Halt::Syntax { left }) => Err(ParseFault::Syntax {
            place: place_at(file, tokens, left),
        }),
    }
}

/// Reads the Java file that tokens spell: statements and expressions stand at most 200 deep one
/// inside another, and at most 400 parentheses are open at once. The grammar is a part of that of
/// the Java Language Specification, chapter 19.
///
/// # Errors
/// `Unsupported` where a token is a word of Java that isn't supported or one of `? & | ^ ~`, with
/// the first one; else `Syntax` where the tokens spell no file; `Memory`.
pub fn parse_file(alloc: Global, file: u32, tokens: &[Token]) -> Result<File, ParseFault>
    // The first token that isn't supported is told, unless memory runs out.
    ensures refused { (c : Culprit) → Judged IsUnsupported tokens.now (Some c) → IsRefusedOrMemory result c }
    // What is told so is the first token that isn't supported.
    ensures unsupported { (c : Culprit) → SaysUnsupported result c → Judged IsUnsupported tokens.now (Some c) }
    // What is read is spelled by the tokens, and each of these is supported.
    ensures found { IfOk result (λ f. Judged IsUnsupported tokens.now None × Spells (file_of f) tokens.now) }
    // What is spelled by tokens that are all supported is read, unless memory runs out.
    ensures only { (f : Tree) → Judged IsUnsupported tokens.now None → Spells f tokens.now → IsReadOrMemory result f }
    // Syntax says that all tokens are supported, and that they spell nothing.
    ensures syntax { SaysSyntax result → Judged IsUnsupported tokens.now None × ((f : Tree) → Spells f tokens.now → ⊥) }
{
    parsed_of(alloc, file, tokens)
}
