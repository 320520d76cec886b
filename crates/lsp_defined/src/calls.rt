//! Where the method of a call is defined.

ghost use Rattle.std.specs.Prelude.{◌≡◌, ◌∷◌, [], ◌<◌, ◌^◌, IfOk, Some, length, option_map, slice_get};
ghost use Rattle.jv_core.specs.View.{method_of};
ghost use Rattle.mg_sources.specs.Files.{Kind, IsOf, HaveKinds, sources};
ghost use Rattle.mg_sources.specs.Parts.{part_of};
ghost use Rattle.lsp_sights.specs.Answers.{bytes_at, IsTold};
ghost use Rattle.lsp_defined.specs.Definitions.{defined_in, AreFrom, AreOfMethod, AreOfCalls, AreAt, AreDefinitions};
ghost use Rattle.lsp_defined.specs.inner.Filed.{source_in};

use crate::called::places_called;
use crate::files::{SourceFile, file_at, part_in};
use crate::locations::locations_in;
use jv_core::{Core, CoreMethod, name_text};
use lsp_messages::Location;
use lsp_sights::{Located, calls_of, core_of, covering, text_at};
use lsp_text::{Encoding, Position, offset_of};
use mg_sources::Part;
use mg_text::{Bytes, Memory, Place, Text};
use std::alloc::Global;

// Where a file defines a method, by what the file spells.
fn places_in(
    alloc: Global,
    part: &Option<Part>,
    place: Place,
    name: &str,
) -> Result<Vec<Place>, Memory>
    ensures { IfOk result (λ v. v.items ≡ defined_in (option_map part_of part.now) place name.now) }
{
    match part {
        Some(Part::Protocol(local)) => places_called(alloc, local, name),
        Some(Part::Classes(_)) => Ok(vec![in alloc; place]?),
        Some(Part::States(_)) | None => Ok(Vec::new(alloc)),
    }
}

// Where a file defines a method.
fn defined_by(
    alloc: Global,
    encoding: Encoding,
    file: SourceFile<'_>,
    place: Place,
    name: &str,
) -> Result<Vec<Location>, Memory>
    requires { (kind : Kind) × IsOf kind (source_in file) }
    ensures { IfOk result (λ v. AreFrom encoding (source_in file.entry) place name.now v.items) }
{
    let part = part_in(alloc, file)?;
    let places = places_in(alloc, &part, place, name)?;
    drop(part);
    locations_in(alloc, file.name, file.bytes, places.as_slice(), encoding)
}

// Where a method of a program is defined, in the file that it comes from.
fn method_definitions(
    alloc: Global,
    encoding: Encoding,
    names: &[Text],
    contents: &[Bytes],
    core: &Core,
    method: &CoreMethod,
) -> Result<Vec<Location>, Memory>
    requires same { length names.now ≡ length contents.now }
    requires kinds { HaveKinds names.now }
    ensures { IfOk result (λ v. AreOfMethod encoding (sources names.now contents.now) core.now (Some (method_of method.now)) v.items) }
{
    let Some(file) = file_at(names, contents, method.place.file) else {
        return Ok(Vec::new(alloc));
    };
    defined_by(
        alloc,
        encoding,
        file,
        method.place,
        name_text(core, method.name),
    )
}

// The method of a number, if there is one.
#[tactic(auto, using(crate::proofs::Numbering::numbering))]
fn method_at(core: &Core, number: u32) -> Option<&CoreMethod>
    ensures { option_map (λ m. method_of m.now) result ≡ slice_get core.now.methods number }
{
    core.methods().get(number as usize)
}

// Where the method of a call is defined.
fn call_definitions(
    alloc: Global,
    encoding: Encoding,
    names: &[Text],
    contents: &[Bytes],
    core: &Core,
    call: Located,
) -> Result<Vec<Location>, Memory>
    requires same { length names.now ≡ length contents.now }
    requires kinds { HaveKinds names.now }
    ensures { IfOk result (λ v. AreOfCalls encoding (sources names.now contents.now) core.now (call ∷ []) v.items) }
{
    match method_at(core, call.site.method) {
        Some(method) => method_definitions(alloc, encoding, names, contents, core, method),
        None => Ok(Vec::new(alloc)),
    }
}

// Where the method of the first call is defined whose path covers a position of the text of this file.
fn definitions_at(
    alloc: Global,
    encoding: Encoding,
    names: &[Text],
    contents: &[Bytes],
    core: &Core,
    text: &str,
    file: u32,
    position: Position,
) -> Result<Vec<Location>, Memory>
    requires same { length names.now ≡ length contents.now }
    requires kinds { HaveKinds names.now }
    ensures { IfOk result (λ v. AreAt encoding (sources names.now contents.now) core.now text.now file position v.items) }
{
    let calls = calls_of(alloc, core, text, file)?;
    let offset = offset_of(text, position, encoding);
    match covering(calls.as_slice(), offset) {
        Some(call) => call_definitions(alloc, encoding, names, contents, core, call),
        None => Ok(Vec::new(alloc)),
    }
}

/// Where the method of the call is defined whose path `x.m` covers a position of the file of this number, one of those that
/// an editor's program has. For a class that is made of a protocol these are the labels of all messages for which the call
/// stands, or the choices, in the order of the text; for another class the method's name in it. There are none over no
/// call, and where the readers, the roles or the types refuse the files.
///
/// # Errors
/// `Memory` where memory is wanted, or where a program has more parts than a core can number.
pub fn definitions(
    alloc: Global,
    names: &[Text],
    contents: &[Bytes],
    encoding: Encoding,
    file: u32,
    position: Position,
) -> Result<Vec<Location>, Memory>
    requires same { length names.now ≡ length contents.now }
    requires count { length contents.now < 2 ^ 32 }
    requires kinds { HaveKinds names.now }
    ensures { IfOk result (λ v. AreDefinitions encoding names.now contents.now file position v.items) }
{
    let Some(text) = text_at(contents, file) else {
        return Ok(Vec::new(alloc));
    };
    match core_of(alloc, names, contents)? {
        Some(core) => definitions_at(
            alloc, encoding, names, contents, &core, text, file, position,
        ),
        None => Ok(Vec::new(alloc)),
    }
}
