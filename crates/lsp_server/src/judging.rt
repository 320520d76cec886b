//! What is told of a program.

ghost use Rattle.std.specs.Prelude.{◌≡◌, ◌++◌, map, option_map, Some, IfOk, OnOk};
ghost use Rattle.lsp_faults.specs.Diagnosed.{AreDiagnosed};
ghost use Rattle.lsp_server.specs.Telling.{telling, cleared, tellings, source_told, lists_of};
ghost use Rattle.lsp_server.specs.Showing.{is_among, left_over};
ghost use Rattle.lsp_folder.specs.Noted.{noted_in};
ghost use Rattle.lsp_server.specs.inner.Fitting.{IsFit, IsToldOf};
ghost use Rattle.lsp_server.specs.inner.Left.{left_by};

use lsp_faults::diagnose;
use lsp_folder::{Program, is_noted, is_part, note, room_for};
use lsp_messages::{Diagnostic, Outgoing};
use lsp_text::Encoding;
use mg_text::{Memory, Text};
use std::alloc::Global;
use std::collections::HashSet;

// These names, each found at once.
fn noted_names<'a>(alloc: Global, names: &'a [Text]) -> Result<HashSet<&'a [u8]>, Memory>
    ensures { IfOk result (λ s. noted_in s ≡ is_among names.now) }
{
    let mut noted = room_for(alloc, names.len())?;
    for name in names {
        note(&mut noted, name.as_str().as_bytes())?;
    }
    Ok(noted)
}

// Appends a message for each document of the folder that shows something and is none of these.
fn put_unnamed(
    alloc: Global,
    told: &mut Vec<Outgoing>,
    document: &str,
    shown: &[Text],
    names: &HashSet<&[u8]>,
) -> Result<(), Memory>
    ensures { OnOk result (map telling told.new.items
        ≡ map telling told.old.items ++ map (λ t. Some t) (map cleared (left_by (noted_in names.now) document.now shown.now))) }
{
    for name in shown {
        if !is_part(document, name.as_str()) || is_noted(names, name.as_str().as_bytes()) {
            continue;
        }
        told.push(Outgoing::Diagnosed {
            document: name.copy()?,
            version: None,
            diagnostics: Vec::new(alloc),
        })?;
    }
    Ok(())
}

// Appends a message for each document of the folder that shows something and is no source: it shows nothing from now on.
fn put_cleared(
    alloc: Global,
    told: &mut Vec<Outgoing>,
    document: &str,
    shown: &[Text],
    names: &[Text],
) -> Result<(), Memory>
    ensures { OnOk result (map telling told.new.items
        ≡ map telling told.old.items ++ map (λ t. Some t) (map cleared (left_over document.now shown.now names.now))) }
{
    let sources = noted_names(alloc, names)?;
    put_unnamed(alloc, told, document, shown, &sources)
}

// Appends a message for a source, where there is one, with what is wrong with it.
fn put_source(
    told: &mut Vec<Outgoing>,
    name: Option<&Text>,
    version: Option<Option<i64>>,
    diagnostics: Vec<Diagnostic>,
) -> Result<(), Memory>
    ensures { OnOk result (map telling told.new.items ≡ map telling told.old.items ++ map (λ t. Some t)
        (source_told (option_map (λ n. n.now) name.entry) version diagnostics.items)) }
{
    let (Some(name), Some(version)) = (name, version) else {
        return Ok(());
    };
    told.push(Outgoing::Diagnosed {
        document: name.copy()?,
        version,
        diagnostics,
    })?;
    Ok(())
}

// Appends a message for each source, with what is wrong with it.
fn put_sources(
    told: &mut Vec<Outgoing>,
    names: &[Text],
    versions: &[Option<i64>],
    lists: Vec<Vec<Diagnostic>>,
) -> Result<(), Memory>
    ensures { OnOk result (map telling told.new.items
        ≡ map telling told.old.items ++ map (λ t. Some t) (tellings names.now versions.now (lists_of lists.items))) }
{
    let mut at = 0;
    for diagnostics in lists {
        put_source(told, names.get(at), versions.get(at).copied(), diagnostics)?;
        at += 1;
    }
    Ok(())
}

// What is wrong with each source of a program.
fn diagnosed(
    alloc: Global,
    encoding: Encoding,
    program: &Program,
) -> Result<Vec<Vec<Diagnostic>>, Memory>
    requires { IsFit program.now }
    ensures { IfOk result (λ v. AreDiagnosed encoding program.now.names.items program.now.contents.items v.items) }
{
    let names = program.names.as_slice();
    let Ok(_count) = u32::try_from(names.len()) else {
        return Err(Memory);
    };
    diagnose(alloc, names, program.contents.as_slice(), encoding)
}

/// What is told of a program, where these documents show something.
///
/// # Errors
/// `Memory` only, also where there are 2^32 sources or more.
pub fn told(
    alloc: Global,
    encoding: Encoding,
    shown: &[Text],
    document: &str,
    program: &Program,
) -> Result<Vec<Outgoing>, Memory>
    requires { IsFit program.now }
    ensures { IfOk result (λ v. IsToldOf encoding shown.now document.now program.now v.items) }
{
    let lists = diagnosed(alloc, encoding, program)?;
    let mut told = Vec::new(alloc);
    put_cleared(alloc, &mut told, document, shown, program.names.as_slice())?;
    put_sources(
        &mut told,
        program.names.as_slice(),
        program.versions.as_slice(),
        lists,
    )?;
    Ok(told)
}
