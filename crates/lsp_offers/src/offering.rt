//! What is offered at a position of a document.

ghost use Rattle.std.specs.Prelude.{◌≡◌, ◌<◌, ◌≤◌, ◌^◌, List as Seq, ℕ, Some, length, option_map, slice_get, IfOk, MatchOption};
ghost use Rattle.std.specs.Str.{IsUtf8};
ghost use Rattle.mg_sources.specs.Files.{HaveKinds};
ghost use Rattle.lsp_offers.specs.Offered.{AreOfferedBehind, AreOffers};
ghost use Rattle.lsp_offers.specs.inner.Typed.{AreFiles};

use crate::documents::place_of;
use crate::spots::spot_at;
use crate::typing::Typing;
use lsp_messages::Item;
use lsp_text::{Encoding, Position, offset_of};
use mg_text::{Bytes, Memory, Text};
use std::alloc::Global;
use std::str;

// The bytes of the file of a number, if there is one.
#[tactic(auto, using(crate::proofs::Found::found))]
fn bytes_at(contents: &[Bytes], file: u32) -> Option<&[u8]>
    ensures { option_map (λ b. b.now) result ≡ slice_get contents.now file }
{
    match contents.get(file as usize) {
        Some(bytes) => Some(bytes.as_slice()),
        None => None,
    }
}

// The text of the file of a number, where there is one and its bytes are a text.
fn text_at(contents: &[Bytes], file: u32) -> Option<&str>
    ensures { MatchOption result ((text : Seq ℕ) → slice_get contents.now file ≡ Some text → ¬ IsUtf8 text)
        (λ t. (slice_get contents.now file ≡ Some t.now) × IsUtf8 t.now) }
{
    match bytes_at(contents, file) {
        Some(bytes) => str::from_utf8(bytes).ok(),
        None => None,
    }
}

// What is offered behind an offset of the text of the file of a number.
fn offers_behind(
    alloc: Global,
    names: &[Text],
    contents: &[Bytes],
    file: u32,
    text: &[u8],
    offset: usize,
) -> Result<Vec<Item>, Memory>
    requires files { AreFiles names.now contents.now }
    requires within { file < length contents.now }
    requires offset { offset ≤ length text.now }
    ensures { IfOk result (λ v. AreOfferedBehind names.now contents.now file text.now offset v.items) }
{
    match spot_at(text, offset) {
        Some(spot) => {
            let place = place_of(file, text, spot)?;
            let typing = Typing {
                names,
                contents,
                file,
                text,
                offset,
                spot,
                place,
            };
            typing.offers(alloc)
        }
        None => Ok(Vec::new(alloc)),
    }
}

/// What may be called at a position of the file of a number, one of those that an editor's program has, where a method
/// is being typed there behind a variable and a dot. First come the methods that may be called whatever the variable is
/// there; then those that only some of its states offer, or all where it may also be null, moved away or at its end.
/// What it may be is told by the call that stands there, where one does and all is well typed, and else by one in its place. For each typestate and each result type of its methods
/// the first method with that result is tried (one that takes no object and no enum where there is one), as a statement and as a value, until such a call stands in a program
/// that is well typed; so at most two programs are judged for each of them, and one before. Where none is well typed nothing is offered,
/// nor where nothing is typed so.
///
/// # Errors
/// `Memory` where memory is wanted, or where a program has more parts than a core or a place can number.
pub fn offers(
    alloc: Global,
    names: &[Text],
    contents: &[Bytes],
    encoding: Encoding,
    file: u32,
    position: Position,
) -> Result<Vec<Item>, Memory>
    requires same { length names.now ≡ length contents.now }
    requires count { length contents.now < 2 ^ 32 }
    requires kinds { HaveKinds names.now }
    ensures { IfOk result (λ v. AreOffers encoding names.now contents.now file position v.items) }
{
    match text_at(contents, file) {
        Some(text) => {
            let offset = offset_of(text, position, encoding);
            offers_behind(alloc, names, contents, file, text.as_bytes(), offset)
        }
        None => Ok(Vec::new(alloc)),
    }
}
