//! The parts of messages, as the protocol writes them.

ghost use Rattle.std.specs.Prelude.{◌≡◌, IfOk, string_bytes};
ghost use Rattle.serde_json.specs.View.{view};
ghost use Rattle.lsp_says.specs.Parts.{position_json, range_json, location_json, sort_text, item_json, symbol_json};
ghost use Rattle.lsp_says.specs.Objects.{object_of};
ghost use Rattle.lsp_says.specs.Parts.{diagnostic_json, hint_json, offered, marked};
ghost use Rattle.lsp_says.specs.Parts.{kind_number as number_of_kind};

use crate::lists::Part;
use lsp_messages::{Diagnostic, Hint, Item, Location, Symbol, SymbolKind};
use lsp_text::{Position, Range};
use mg_text::Memory;
use serde_json::{Value, json};
use std::alloc::Global;

// A position.
pub(crate) fn position(alloc: Global, position: &Position) -> Result<Value, Memory>
    ensures { IfOk result (λ v. view v ≡ position_json position.now) }
{
    Ok(json!(in alloc; {"line": position.line, "character": position.character})?)
}

// A range.
pub(crate) fn range(alloc: Global, range: &Range) -> Result<Value, Memory>
    ensures { IfOk result (λ v. view v ≡ range_json range.now) }
{
    let start = position(alloc, &range.start)?;
    let end = position(alloc, &range.end)?;
    Ok(json!(in alloc; {"start": start, "end": end})?)
}

impl Part for Diagnostic {
    ghost json = { diagnostic_json };

    fn made(&self, alloc: Global) -> Result<Value, Memory> {
        let place = range(alloc, &self.range)?;
        Ok(json!(in alloc; {
            "range": place,
            "severity": 1u64,
            "code": self.code.as_str(),
            "source": "mungo",
            "message": self.message.as_str(),
        })?)
    }
}

impl Part for Hint {
    ghost json = { hint_json };

    fn made(&self, alloc: Global) -> Result<Value, Memory> {
        let place = position(alloc, &self.position)?;
        let label = self.text.as_str();
        Ok(json!(in alloc; {"position": place, "label": label, "paddingLeft": true})?)
    }
}

impl Part for Location {
    ghost json = { location_json };

    fn made(&self, alloc: Global) -> Result<Value, Memory> {
        let place = range(alloc, &self.range)?;
        Ok(json!(in alloc; {"uri": self.document.as_str(), "range": place})?)
    }
}

// By what an item is sorted among others.
fn order_of(alloc: Global, item: &Item) -> Result<String, Memory>
    ensures { IfOk result (λ s. string_bytes s ≡ sort_text item.now) }
{
    let group = if item.always { "0" } else { "1" };
    let mut text = String::from_str(alloc, group)?;
    text.push_str(item.name.as_str())?;
    Ok(text)
}

// A method that each state offers.
fn always(alloc: Global, item: &Item) -> Result<Value, Memory>
    ensures { IfOk result (λ v. view v ≡ object_of (offered item.now)) }
{
    let order = order_of(alloc, item)?;
    Ok(json!(in alloc; {
        "label": item.name.as_str(),
        "kind": 2u64,
        "detail": item.signature.as_str(),
        "sortText": order,
    })?)
}

// A method that some states offer.
fn sometimes(alloc: Global, item: &Item) -> Result<Value, Memory>
    ensures { IfOk result (λ v. view v ≡ object_of (marked item.now)) }
{
    let order = order_of(alloc, item)?;
    Ok(json!(in alloc; {
        "label": item.name.as_str(),
        "labelDetails": {"description": "not always"},
        "kind": 2u64,
        "detail": item.signature.as_str(),
        "sortText": order,
    })?)
}

impl Part for Item {
    ghost json = { item_json };

    fn made(&self, alloc: Global) -> Result<Value, Memory> {
        if self.always {
            always(alloc, self)
        } else {
            sometimes(alloc, self)
        }
    }
}

// The protocol's number of a kind.
fn kind_number(kind: SymbolKind) -> u64
    ensures { result ≡ number_of_kind kind }
{
    match kind {
        SymbolKind::Class => 5,
        SymbolKind::Method => 6,
        SymbolKind::Field => 8,
        SymbolKind::Enum => 10,
        SymbolKind::Protocol => 11,
        SymbolKind::State => 22,
    }
}

impl Part for Symbol {
    ghost json = { symbol_json };

    fn made(&self, alloc: Global) -> Result<Value, Memory> {
        let name = self.name.as_str();
        let kind = kind_number(self.kind);
        let place = self.location.made(alloc)?;
        match &self.within {
            Some(within) => Ok(json!(in alloc; {
                "name": name,
                "kind": kind,
                "location": place,
                "containerName": within.as_str(),
            })?),
            None => Ok(json!(in alloc; {"name": name, "kind": kind, "location": place})?),
        }
    }
}
