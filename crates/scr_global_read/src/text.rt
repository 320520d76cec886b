//! From the bytes of a file to what is written in it.

ghost use Rattle.std.specs.Prelude.{◌≡◌, ◌≤◌, length};
ghost use Rattle.scr_tree.specs.Tok.{toks};
ghost use Rattle.scr_global_tree.specs.Written.{written_of};
ghost use Rattle.scr_read.specs.Spelling.{Separates};
ghost use Rattle.scr_global_read.specs.Spelling.{Spells};
ghost use Rattle.scr_global_read.specs.inner.Stages.{Stage};

use crate::fault::GlobalFault;
use mg_text::{List, Place, Text, place_of};
use scr_global_parse::ParseFault;
use scr_global_tree::WrittenGlobal;
use scr_lex::LexFault;
use scr_read::{ProtocolKind, first_unsupported};
use scr_tree::Token;
use std::alloc::Global;

// The tokens of a file.
fn tokens_of(alloc: Global, file: u32, bytes: &[u8]) -> Result<List<Token>, GlobalFault>
    requires { length bytes.now ≤ 1048576 }
    ensures { Stage file bytes.now (λ v. Separates file bytes.now (toks v.items)) result }
{
    match scr_lex::tokens(alloc, file, bytes) {
        Ok(tokens) => Ok(tokens),
        Err(LexFault::BadByte(offset)) => Err(GlobalFault::BadByte {
            place: place_of(file, bytes, offset),
        }),
        Err(LexFault::Memory) => Err(GlobalFault::Memory),
    }
}

// A place, or where a file ends.
fn place_or_end(file: u32, bytes: &[u8], place: Option<Place>) -> Place
    requires { length bytes.now ≤ 1048576 }
{
    match place {
        Some(place) => place,
        None => place_of(file, bytes, bytes.len()),
    }
}

// What the tokens of a file spell.
fn parsed_of(
    alloc: Global,
    file: u32,
    bytes: &[u8],
    tokens: &[Token],
) -> Result<WrittenGlobal, GlobalFault>
    requires { Separates file bytes.now (toks tokens.now) }
    ensures { Stage file bytes.now (λ w. Spells file bytes.now (written_of file w)) result }
{
    if let Some((place, word)) = first_unsupported(ProtocolKind::Global, tokens) {
        let name = Text::of(alloc, word)?;
        return Err(GlobalFault::Unsupported { place, name });
    }
    match scr_global_parse::parse(alloc, tokens) {
        Ok(written) => Ok(written),
        Err(ParseFault::Syntax(place)) => Err(GlobalFault::Syntax {
            place: place_or_end(file, bytes, place),
        }),
        Err(ParseFault::Memory) => Err(GlobalFault::Memory),
    }
}

// What a file spells.
pub(crate) fn written_of(
    alloc: Global,
    file: u32,
    bytes: &[u8],
) -> Result<WrittenGlobal, GlobalFault>
    requires { length bytes.now ≤ 1048576 }
    ensures { Stage file bytes.now (λ w. Spells file bytes.now (written_of file w)) result }
{
    let tokens = tokens_of(alloc, file, bytes)?;
    parsed_of(alloc, file, bytes, tokens.as_slice())
}
