//! What is declared, as symbols with their ranges.

ghost use Rattle.std.specs.Prelude.{◌≡◌, length, map, IfOk};
ghost use Rattle.lsp_symbols.specs.Symbols.{AreSymbolsOf};
ghost use Rattle.lsp_symbols.specs.inner.Pairs.{place_of, symbol_of, symbols};

use crate::things::{Declared, copied};
use lsp_messages::{Location, Symbol};
use lsp_spans::ranges_of;
use lsp_text::{Encoding, Range};
use mg_text::{Memory, Place, Text};
use std::alloc::Global;

// Where the names of things stand.
fn places_of(alloc: Global, things: &[Declared]) -> Result<Vec<Place>, Memory>
    ensures { IfOk result (λ v. v.items ≡ map place_of things.now) }
{
    let mut places = Vec::with_capacity(alloc, things.len())?;
    for thing in things {
        places.push(thing.place)?;
    }
    Ok(places)
}

// A thing as a symbol.
fn symbol_of(document: &Text, thing: &Declared, range: Range) -> Result<Symbol, Memory>
    ensures { IfOk result (λ s. s ≡ symbol_of document.now thing.now range) }
{
    let name = thing.name.copy()?;
    let within = copied(thing.within.as_ref())?;
    let document = document.copy()?;
    Ok(Symbol {
        name,
        kind: thing.kind,
        location: Location { document, range },
        within,
    })
}

// Things as symbols, one by one.
fn symbols_of(
    alloc: Global,
    document: &Text,
    things: &[Declared],
    ranges: &[Range],
) -> Result<Vec<Symbol>, Memory>
    requires { length things.now ≡ length ranges.now }
    ensures { IfOk result (λ v. v.items ≡ symbols document.now things.now ranges.now) }
{
    let mut list = Vec::with_capacity(alloc, things.len())?;
    for (number, thing) in things.iter().enumerate() {
        let symbol = symbol_of(document, thing, ranges[number])?;
        list.push(symbol)?;
    }
    Ok(list)
}

/// Things that a document of this text declares, as symbols.
///
/// # Errors
/// `Memory` only.
pub(crate) fn located(
    alloc: Global,
    document: &Text,
    text: &str,
    things: &[Declared],
    encoding: Encoding,
) -> Result<Vec<Symbol>, Memory>
    ensures { IfOk result (λ v. AreSymbolsOf encoding document.now text.now things.now v.items) }
{
    let places = places_of(alloc, things)?;
    let ranges = ranges_of(alloc, text, places.as_slice(), encoding)?;
    symbols_of(alloc, document, things, ranges.as_slice())
}
