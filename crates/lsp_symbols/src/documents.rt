//! The symbols of a document.

ghost use Rattle.std.specs.Prelude.{◌≡◌, IfOk};
ghost use Rattle.mg_sources.specs.Files.{Kind, IsOf, source_of};
ghost use Rattle.mg_sources.specs.Parts.{part_of};
ghost use Rattle.lsp_symbols.specs.Declares.{AreNamed, PartDeclares, Declares};
ghost use Rattle.lsp_symbols.specs.Symbols.{AreShown, AreSymbols};

use crate::classes::classes_in;
use crate::named::{Language, declared_in};
use crate::placed::located;
use crate::things::Declared;
use crate::tokens::tokens_of;
use lsp_messages::Symbol;
use lsp_text::Encoding;
use mg_refusal::Stop;
use mg_sources::{Part, read_part};
use mg_text::{Memory, Text};
use std::alloc::Global;

// What the tokens of a file declare.
fn named(alloc: Global, language: Language, bytes: &[u8]) -> Result<Vec<Declared>, Memory>
    ensures { IfOk result (λ v. AreNamed language bytes.now v.items) }
{
    let tokens = tokens_of(alloc, bytes)?;
    declared_in(alloc, language, tokens.as_slice())
}

// What a file declares that spells this.
fn part_declares(alloc: Global, part: &Part, bytes: &[u8]) -> Result<Vec<Declared>, Memory>
    ensures { IfOk result (λ v. PartDeclares bytes.now (part_of part.now) v.items) }
{
    match part {
        Part::Protocol(_) => named(alloc, Language::Protocols, bytes),
        Part::States(_) => named(alloc, Language::Typestates, bytes),
        Part::Classes(file) => classes_in(alloc, file),
    }
}

// What a document declares.
fn declares(alloc: Global, document: &Text, bytes: &[u8]) -> Result<Vec<Declared>, Memory>
    requires { (kind : Kind) × IsOf kind (source_of 0 document.now bytes.now) }
    ensures { IfOk result (λ v. Declares (source_of 0 document.now bytes.now) v.items) }
{
    match read_part(alloc, 0, document, bytes) {
        Ok(part) => part_declares(alloc, &part, bytes),
        Err(Stop::Refused(_refusal)) => Ok(Vec::new(alloc)),
        Err(Stop::Memory) => Err(Memory),
    }
}

// The symbols of a document of this text.
fn symbols_of(
    alloc: Global,
    document: &Text,
    text: &str,
    encoding: Encoding,
) -> Result<Vec<Symbol>, Memory>
    requires { (kind : Kind) × IsOf kind (source_of 0 document.now text.now) }
    ensures { IfOk result (λ v. AreShown encoding document.now text.now v.items) }
{
    let things = declares(alloc, document, text.as_bytes())?;
    located(alloc, document, text, things.as_slice(), encoding)
}

/// What a document declares, in the order of its text: of a local protocol file each protocol; of a
/// typestate file the typestate, each state, and its methods; of a Java source each class, its
/// fields and then its methods, and each enum. A document that its reader refuses declares nothing.
/// Its name, by which the editor knows it, tells by which reader it is read.
///
/// # Errors
/// `Memory` only.
pub fn symbols(
    alloc: Global,
    document: &Text,
    bytes: &[u8],
    encoding: Encoding,
) -> Result<Vec<Symbol>, Memory>
    requires { (kind : Kind) × IsOf kind (source_of 0 document.now bytes.now) }
    ensures { IfOk result (λ v. AreSymbols encoding document.now bytes.now v.items) }
{
    match std::str::from_utf8(bytes) {
        Ok(text) => symbols_of(alloc, document, text, encoding),
        Err(_error) => Ok(Vec::new(alloc)),
    }
}
