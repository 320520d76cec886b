//! Those of some methods that come first: the first of each name, or of each result type.
//! Texts are looked up by hashing, so that the work grows with the methods.

ghost use Rattle.std.specs.Prelude.{◌≡◌, map, fold, not, IfOk, OnOk};
ghost use Rattle.std.specs.List.{list_any};
ghost use Rattle.std.specs.Str.{bytes_eq};
ghost use Rattle.mg_text.specs.Interned.{with_text};
ghost use Rattle.ts_tree.specs.View.{method_of};
ghost use Rattle.lsp_offers.specs.Firsts.{text_by, with_first};
ghost use Rattle.lsp_offers.specs.inner.Seen.{seen};

use crate::calls::type_text;
use mg_text::{Memory, Names};
use ts_tree::Method;

/// By what methods are told apart.
#[derive(Clone, Copy)]
pub(crate) enum By {
    /// By their names.
    Name,
    /// By the types of their results.
    Result,
}

// The text by which a method is told apart.
fn text_by(by: By, method: &Method) -> &str
    ensures { result.now ≡ text_by by (method_of method.now) }
{
    match by {
        By::Name => method.name.as_str(),
        By::Result => type_text(&method.result),
    }
}

/// Whether a text was met.
pub(crate) fn is_met(met: &Names, text: &str) -> bool
    ensures { result ≡ list_any (bytes_eq text.now) met.now }
{
    met.find(text).is_some()
}

/// Adds a text to those that were met. Whether it is new there.
///
/// # Errors
/// `Memory` where memory is wanted, or for more texts than `u32` can number.
pub(crate) fn note(met: &mut Names, text: &str) -> Result<bool, Memory>
    ensures new { IfOk result (λ b. b ≡ not (list_any (bytes_eq text.now) met.old)) }
    ensures texts { OnOk result (met.new ≡ with_text met.old text.now) }
{
    if is_met(met, text) {
        return Ok(false);
    }
    if met.len() >= u32::MAX as usize {
        return Err(Memory);
    }
    met.add(text)?;
    Ok(true)
}

/// Appends a method, unless one of its text is among these, whose texts are those that were met.
///
/// # Errors
/// `Memory` only.
pub(crate) fn put_first<'a>(
    by: By,
    met: &mut Names,
    found: &mut Vec<&'a Method>,
    method: &'a Method,
) -> Result<(), Memory>
    requires { met.old ≡ map (text_by by) (seen found.old.items) }
    ensures met { OnOk result (met.new ≡ map (text_by by) (seen found.new.items)) }
    ensures found { OnOk result (seen found.new.items ≡ with_first by (seen found.old.items) (method_of method.now)) }
{
    let fresh = note(met, text_by(by, method))?;
    if fresh {
        found.push(method)?;
    }
    Ok(())
}

/// Appends those of these methods that come first, behind others, whose texts are those that were met.
///
/// # Errors
/// `Memory` only.
pub(crate) fn put_firsts<'a>(
    by: By,
    met: &mut Names,
    found: &mut Vec<&'a Method>,
    methods: &'a [Method],
) -> Result<(), Memory>
    requires { met.old ≡ map (text_by by) (seen found.old.items) }
    ensures met { OnOk result (met.new ≡ map (text_by by) (seen found.new.items)) }
    ensures found { OnOk result (seen found.new.items ≡ fold (with_first by) (seen found.old.items) (map method_of methods.now)) }
{
    for method in methods {
        put_first(by, met, found, method)?;
    }
    Ok(())
}
