//! From the bytes of a file to what is written in it.

ghost use Rattle.std.specs.Prelude.{◌≡◌, ◌≤◌, length};
ghost use Rattle.scr_tree.specs.Tok.{toks};
ghost use Rattle.scr_tree.specs.Written.{written_of};
ghost use Rattle.scr_read.specs.Spelling.{Separates, Spells};
ghost use Rattle.scr_read.specs.inner.Stages.{Stage};

use crate::fault::ScrFault;
use crate::words::{ProtocolKind, first_unsupported};
use mg_text::{List, Place, Text, place_of};
use scr_lex::LexFault;
use scr_parse::ParseFault;
use scr_tree::{Token, Written};
use std::alloc::Global;

// The tokens of a file.
fn tokens_of(alloc: Global, file: u32, bytes: &[u8]) -> Result<List<Token>, ScrFault>
    requires { length bytes.now ≤ 1048576 }
    ensures { Stage file bytes.now (λ v. Separates file bytes.now (toks v.items)) result }
{
    match scr_lex::tokens(alloc, file, bytes) {
        Ok(tokens) => Ok(tokens),
        Err(LexFault::BadByte(offset)) => Err(ScrFault::BadByte {
            place: place_of(file, bytes, offset),
        }),
        Err(LexFault::Memory) => Err(ScrFault::Memory),
    }
}

// A place, or where a file ends.
fn place_or_end(file: u32, bytes: &[u8], place: Option<Place>) -> Place
    requires { length bytes.now ≤ 1048576 }
{
    match place {
        Some(place) => place,
        None => place_of(file, bytes, bytes.len()),
    }
}

// What the tokens of a file spell.
fn parsed_of(alloc: Global, file: u32, bytes: &[u8], tokens: &[Token]) -> Result<Written, ScrFault>
    requires { Separates file bytes.now (toks tokens.now) }
    ensures { Stage file bytes.now (λ w. Spells file bytes.now (written_of file w)) result }
{
    if let Some((place, word)) = first_unsupported(ProtocolKind::Local, tokens) {
        let name = Text::of(alloc, word)?;
        return Err(ScrFault::Unsupported { place, name });
    }
    match scr_parse::parse(alloc, tokens) {
        Ok(written) => Ok(written),
        Err(ParseFault::Syntax(place)) => Err(ScrFault::Syntax {
            place: place_or_end(file, bytes, place),
        }),
        Err(ParseFault::Memory) => Err(ScrFault::Memory),
    }
}

// What a file spells.
pub(crate) fn written_of(alloc: Global, file: u32, bytes: &[u8]) -> Result<Written, ScrFault>
    requires { length bytes.now ≤ 1048576 }
    ensures { Stage file bytes.now (λ w. Spells file bytes.now (written_of file w)) result }
{
    let tokens = tokens_of(alloc, file, bytes)?;
    parsed_of(alloc, file, bytes, tokens.as_slice())
}
