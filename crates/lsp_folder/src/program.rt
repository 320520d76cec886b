//! The sources of a folder.

ghost use Rattle.std.specs.Prelude.{◌≡◌, ◌++◌, map, IfOk, OnOk};
ghost use Rattle.lsp_folder.specs.Names.{plain};
ghost use Rattle.lsp_folder.specs.Noted.{among, noted_in};
ghost use Rattle.lsp_folder.specs.Programs.{open_names, open_members, read_members, counted, AreMembers, IsProgramOf};
ghost use Rattle.lsp_folder.specs.inner.Left.{is_left, left_among};

use crate::names::{is_part, named_part};
use crate::noted::{is_noted, note, room_for};
use lsp_text::Documents;
use mg_text::{Bytes, Memory, Text};
use percent_encoding::percent_decode;
use std::alloc::Global;
use std::collections::HashSet;

/// A file as it was read.
#[derive(Drop)]
pub struct File {
    /// Its name, as that of a document.
    pub name: Text,
    /// Its bytes.
    pub contents: Bytes,
}

/// A source of a program.
#[derive(Drop)]
pub struct Member {
    /// Its name.
    pub name: Text,
    /// The version that the editor told last, where it is open.
    pub version: Option<i64>,
    /// Its bytes.
    pub contents: Bytes,
}

/// A program: its sources in the order of their names.
#[derive(Drop)]
pub struct Program {
    /// Their names.
    pub names: Vec<Text>,
    /// Their bytes, one for each name.
    pub contents: Vec<Bytes>,
    /// The versions of those that are open, one for each name.
    pub versions: Vec<Option<i64>>,
}

// Appends the documents that are open in the folder of a document.
fn put_open(
    alloc: Global,
    members: &mut Vec<Member>,
    documents: &Documents,
    document: &str,
) -> Result<(), Memory>
    ensures { OnOk result (members.new.items ≡ members.old.items ++ open_members documents.now document.now) }
{
    for (name, open) in documents.iter() {
        if !is_part(document, name.as_str()) {
            continue;
        }
        let name = Text::of(alloc, name.as_str())?;
        let contents = Bytes::of(alloc, open.text.as_str().as_bytes())?;
        members.push(Member {
            name,
            version: Some(open.version),
            contents,
        })?;
    }
    Ok(())
}

// A name as it reads.
fn plain(alloc: Global, name: &str) -> Result<Bytes, Memory>
    ensures { IfOk result (λ b. b ≡ plain name.now) }
{
    let mut plain = Vec::new(alloc);
    percent_decode(named_part(name.as_bytes())).append_to(&mut plain)?;
    Bytes::of(alloc, plain.as_slice())
}

// The names of the documents that are open, as they read.
fn open_names(alloc: Global, documents: &Documents) -> Result<Vec<Bytes>, Memory>
    ensures { IfOk result (λ v. v.items ≡ open_names documents.now) }
{
    let mut names = Vec::new(alloc);
    for (name, _) in documents.iter() {
        let name = plain(alloc, name.as_str())?;
        names.push(name)?;
    }
    Ok(names)
}

// These names, each found at once.
fn noted_names<'a>(alloc: Global, names: &'a [Bytes]) -> Result<HashSet<&'a [u8]>, Memory>
    ensures { IfOk result (λ s. noted_in s ≡ among names.now) }
{
    let mut noted = room_for(alloc, names.len())?;
    for name in names {
        note(&mut noted, name.as_slice())?;
    }
    Ok(noted)
}

// Whether a file of the folder isn't open, where documents of these names are.
fn is_read(
    alloc: Global,
    opened: &HashSet<&[u8]>,
    document: &str,
    file: &File,
) -> Result<bool, Memory>
    ensures { IfOk result (λ b. b ≡ is_left (noted_in opened.now) document.now file.now) }
{
    if !is_part(document, file.name.as_str()) {
        return Ok(false);
    }
    let name = plain(alloc, file.name.as_str())?;
    Ok(!is_noted(opened, name.as_slice()))
}

// Appends the files of the folder of which no document is open.
fn put_read(
    alloc: Global,
    members: &mut Vec<Member>,
    opened: &HashSet<&[u8]>,
    document: &str,
    files: &[File],
) -> Result<(), Memory>
    ensures { OnOk result (members.new.items ≡ members.old.items ++ left_among (noted_in opened.now) document.now files.now) }
{
    for file in files {
        if !is_read(alloc, opened, document, file)? {
            continue;
        }
        let name = file.name.copy()?;
        let contents = Bytes::of(alloc, file.contents.as_slice())?;
        members.push(Member {
            name,
            version: None,
            contents,
        })?;
    }
    Ok(())
}

// Appends the other files of the folder.
fn put_others(
    alloc: Global,
    members: &mut Vec<Member>,
    documents: &Documents,
    document: &str,
    files: &[File],
) -> Result<(), Memory>
    ensures { OnOk result (members.new.items ≡ members.old.items ++ read_members documents.now document.now files.now) }
{
    let names = open_names(alloc, documents)?;
    let opened = noted_names(alloc, names.as_slice())?;
    put_read(alloc, members, &opened, document, files)
}

// The sources that count, in no order.
fn gathered(
    alloc: Global,
    documents: &Documents,
    document: &str,
    files: &[File],
) -> Result<Vec<Member>, Memory>
    ensures { IfOk result (λ v. v.items
        ≡ counted (open_members documents.now document.now) (read_members documents.now document.now files.now)) }
{
    let mut members = Vec::new(alloc);
    put_open(alloc, &mut members, documents, document)?;
    if members.is_empty() {
        return Ok(members);
    }
    put_others(alloc, &mut members, documents, document, files)?;
    Ok(members)
}

// The sources that count, in the order of their names.
fn members_of(
    alloc: Global,
    documents: &Documents,
    document: &str,
    files: &[File],
) -> Result<Vec<Member>, Memory>
    ensures { IfOk result (λ v. AreMembers documents.now document.now files.now v.items) }
{
    let mut members = gathered(alloc, documents, document, files)?;
    members.sort_by(|a, b| a.name.as_str().cmp(b.name.as_str()))?;
    Ok(members)
}

// A program of these sources.
fn parted(alloc: Global, members: Vec<Member>) -> Result<Program, Memory>
    ensures names { IfOk result (λ p. p.names.items ≡ map (λ m. m.name) members.items) }
    ensures contents { IfOk result (λ p. p.contents.items ≡ map (λ m. m.contents) members.items) }
    ensures versions { IfOk result (λ p. p.versions.items ≡ map (λ m. m.version) members.items) }
{
    let mut names = Vec::with_capacity(alloc, members.len())?;
    let mut contents = Vec::with_capacity(alloc, members.len())?;
    let mut versions = Vec::with_capacity(alloc, members.len())?;
    for member in members {
        let Member {
            name,
            version,
            contents: bytes,
        } = member;
        names.push(name)?;
        contents.push(bytes)?;
        versions.push(version)?;
    }
    Ok(Program {
        names,
        contents,
        versions,
    })
}

/// The program that a document belongs to: the sources of its folder, in the order of their names;
/// those that are open in the editor count by their text there, and the others as they were read.
/// Where none is open in the folder there are none.
///
/// # Errors
/// `Memory` only.
pub fn program_of(
    alloc: Global,
    documents: &Documents,
    document: &str,
    files: &[File],
) -> Result<Program, Memory>
    ensures { IfOk result (IsProgramOf documents.now document.now files.now) }
{
    let members = members_of(alloc, documents, document, files)?;
    parted(alloc, members)
}
