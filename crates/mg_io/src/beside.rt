//! Files of the system that get their bytes whole or not at all: these are handed to a file that is made beside, and that
//! gets the name once it has them all.

ghost use Rattle.std.specs.Prelude.{◌≡◌, IsErrOf, IsOk};
ghost use Rattle.std.specs.Io.KnownBytes.{Appends};
ghost use Rattle.mg_io.specs.Fakes.{counted_if_failed};

use crate::IoFault;
use crate::refusal::Refusals;
use crate::whole::write_whole;
use std::alloc::{AllocError, Global};
use std::fs::{self, File, OpenFile, OpenOptions, Permissions};
use std::io::{self, ErrorKind, Write};
use std::os::unix::fs::MetadataExt;
use std::rt::Files;

/// How many names are tried beside a file, where others are taken.
const NAMES: u32 = 1_000;

/// The bits of a device's number that say of which kind it is: none is set for a file system without a disk of its own.
const MAJOR: u64 = 0xffff_f000_000f_ff00;

/// How a name's file is written.
#[derive(Drop)]
enum Way {
    /// As a new file that gets the name, with the permissions of the one that has it.
    Beside(Option<Permissions>),
    /// Where it stands: it is a link, a device or a folder, or has names elsewhere.
    InPlace,
}

/// Makes the named file hold these bytes. `Failed` exactly where the system refuses that: to make a file, to take the bytes,
/// to keep them, or to give it the name. The file then holds what it held, or, where it is written in place, a
/// front of the bytes.
pub fn write_file<R: Files>(
    alloc: Global,
    rt: &R,
    refusals: &mut Refusals,
    name: &str,
    bytes: &[u8],
) -> Result<(), IoFault>
    ensures handed { IsOk result → (made : R.File) × (file : R.File)
        × Appends (R.File.contents made) (R.File.contents file) bytes.now }
    ensures counted { refusals.new ≡ counted_if_failed result refusals.old }
{
    match way_of(rt, name) {
        Way::Beside(permissions) => write_beside(alloc, rt, refusals, name, permissions, bytes),
        Way::InPlace => write_in_place(rt, refusals, name, bytes),
    }
}

/// Hands these bytes to the file of this name, which is made where there is none, and emptied before.
fn write_in_place<R: Files>(
    rt: &R,
    refusals: &mut Refusals,
    name: &str,
    bytes: &[u8],
) -> Result<(), IoFault>
    ensures handed { IsOk result → (made : R.File) × (file : R.File)
        × Appends (R.File.contents made) (R.File.contents file) bytes.now }
    ensures counted { refusals.new ≡ counted_if_failed result refusals.old }
{
    let made = refusals.noted(fs::create(rt, name))?;
    fill(made, None, refusals, bytes)
}

/// How the file of this name is written. One that may not be written isn't replaced.
fn way_of<R: Files>(rt: &R, name: &str) -> Way {
    match fs::symlink_metadata(rt, name) {
        Ok(seen) if seen.is_file() && seen.nlink() == 1 && may_be_written(rt, name) => {
            Way::Beside(Some(seen.permissions()))
        }
        Err(error) if error.kind() == ErrorKind::NotFound => Way::Beside(None),
        _ => Way::InPlace,
    }
}

/// Whether the system opens this file for writing.
fn may_be_written<R: Files>(rt: &R, name: &str) -> bool {
    OpenOptions::new().write(true).open(rt, name).is_ok()
}

/// Hands these bytes to a file beside that of this name, and gives it the name. Where none may be made there the file is
/// written in place.
fn write_beside<R: Files>(
    alloc: Global,
    rt: &R,
    refusals: &mut Refusals,
    name: &str,
    permissions: Option<Permissions>,
    bytes: &[u8],
) -> Result<(), IoFault>
    ensures handed { IsOk result → (made : R.File) × (file : R.File)
        × Appends (R.File.contents made) (R.File.contents file) bytes.now }
    ensures counted { refusals.new ≡ counted_if_failed result refusals.old }
{
    let (beside, made) = made_beside(alloc, rt, name)?;
    match made {
        Ok(file) => {
            let named = fill_and_name(
                rt,
                refusals,
                file,
                beside.as_str(),
                name,
                permissions,
                bytes,
            );
            if named.is_err() {
                let _removed = fs::remove_file(rt, beside.as_str());
            }
            named
        }
        Err(error) if error.kind() == ErrorKind::PermissionDenied => {
            write_in_place(rt, refusals, name, bytes)
        }
        Err(error) => refusals.noted(Err(error)),
    }
}

/// Hands these bytes to a file that was made beside, and gives it the name.
fn fill_and_name<R: Files>(
    rt: &R,
    refusals: &mut Refusals,
    made: R::File,
    beside: &str,
    name: &str,
    permissions: Option<Permissions>,
    bytes: &[u8],
) -> Result<(), IoFault>
    ensures handed { IsOk result → (file : R.File)
        × Appends (R.File.contents made) (R.File.contents file) bytes.now }
    ensures memory { IsErrOf result IoFault.Memory → ⊥ }
    ensures counted { refusals.new ≡ counted_if_failed result refusals.old }
{
    fill(made, permissions, refusals, bytes)?;
    refusals.noted(fs::rename(rt, beside, name))
}

/// A name in the folder of the named file that none has, and the new file of that name, or why it can't be made.
fn made_beside<R: Files>(
    alloc: Global,
    rt: &R,
    name: &str,
) -> Result<(String, io::Result<R::File>), AllocError> {
    let folder = folder_of(name);
    for number in 0..NAMES {
        let beside = format!(in alloc; "{folder}.mungo-{number}")?;
        match File::create_new(rt, beside.as_str()) {
            Err(error) if error.kind() == ErrorKind::AlreadyExists => {}
            made => return Ok((beside, made)),
        }
    }
    let beside = format!(in alloc; "{folder}.mungo-{NAMES}")?;
    let made = File::create_new(rt, beside.as_str());
    Ok((beside, made))
}

/// A name up to its last slash, and with it.
fn folder_of(name: &str) -> &str {
    match name.rsplit_once('/') {
        Some((folder, _)) => &name[..folder.len() + 1],
        None => "",
    }
}

/// Hands these bytes to a file that was made, and sets its permissions where the system lets that. `Failed` where the
/// system refuses a write, or to keep what was written.
fn fill<F: Write + OpenFile + Drop>(
    made: F,
    permissions: Option<Permissions>,
    refusals: &mut Refusals,
    bytes: &[u8],
) -> Result<(), IoFault>
    ensures handed { IsOk result → (file : F)
        × Appends (F.contents made) (F.contents file) bytes.now }
    ensures memory { IsErrOf result IoFault.Memory → ⊥ }
    ensures counted { refusals.new ≡ counted_if_failed result refusals.old }
{
    let mut file = made;
    write_whole(&mut file, refusals, bytes)?;
    if let Some(permissions) = permissions {
        let _kept = file.set_permissions(permissions);
    }
    refusals.noted(settled(&file))
}

/// Whether a file keeps what it took. A file system over the network says only where the file is synced, or closed, that
/// a disk was full or a quota used up, and the answer of a close is lost where a file is let go of. So a file is synced
/// where its device isn't a disk.
fn settled<F: OpenFile>(file: &F) -> io::Result<()> {
    let seen = file.metadata()?;
    if seen.is_file() && seen.dev() & MAJOR == 0 {
        file.sync_data()
    } else {
        Ok(())
    }
}
