//! Resources that are written into files.
ghost use Rattle.std.specs.Prelude.{◌≡◌, ◌≤◌, IsTrue, length, min, take};
ghost use Rattle.std.specs.Fs.{asks_create_new};
ghost use Rattle.std.specs.Str.{IsAscii};

use crate::fault::Fault;
use crate::options::Taken;
use std::fs::{File, OpenOptions, remove_file};
use std::io::{self, ErrorKind, Write};
use w16_show::Resources;

/// The most bytes of a file's name in a folder.
const MOST_NAME: usize = 255;

/// The front of a name that a folder takes. A resource's number is first in it, which keeps two names that are cut apart.
fn cut(name: &str) -> &str
    ensures short { length result.now ≤ MOST_NAME }
    ensures front { result.now ≡ take (length result.now) name.now }
    ensures long { IsAscii name.now → length result.now ≡ min MOST_NAME (length name.now) }
{
    &name[..name.floor_char_boundary(MOST_NAME)]
}

/// How a resource's file is opened: where anything has its name, a link too, the system refuses. So no link is followed, and nothing that is there is
/// written to.
fn anew() -> OpenOptions
    ensures { IsTrue (asks_create_new result) }
{
    let mut options = OpenOptions::new();
    options.write(true).create_new(true);
    options
}

/// Makes a new file. What has its name is removed first where this is allowed; else it stays as it is, and that is an error.
fn make(rt: &HostRuntime, path: &str, force: bool) -> io::Result<File> {
    if force
        && let Err(error) = remove_file(rt, path)
        && error.kind() != ErrorKind::NotFound
    {
        return Err(error);
    }
    anew().open(rt, path)
}

/// Writes a new file. One that can't be written whole is taken away again.
fn write(rt: &HostRuntime, path: &str, force: bool, bytes: &[u8]) -> io::Result<()> {
    let mut file = make(rt, path, force)?;
    let written = file.write_all(bytes);
    if written.is_err() {
        // Where it can't be taken away either, the first error is what is said.
        let _ = remove_file(rt, path);
    }
    written
}

/// Whether an error is of one name alone, so that other files may still be written.
fn is_of_one(kind: ErrorKind) -> bool {
    matches!(
        kind,
        ErrorKind::AlreadyExists | ErrorKind::IsADirectory | ErrorKind::InvalidFilename
    )
}

/// Says why a resource can't be written, and answers 1, or a fault where no other one could be either.
fn unwritten(rt: &HostRuntime, path: &str, error: io::Error) -> Result<u8, Fault> {
    if error.kind() == ErrorKind::OutOfMemory {
        return Err(Fault::Memory);
    }
    // Where standard error is gone, the status still tells.
    let _ = eprintln!(rt; "w16ne: {path}: {error}");
    if is_of_one(error.kind()) {
        Ok(1)
    } else {
        Err(Fault::Folder)
    }
}

/// Writes a resource by its number into its file, and answers 0, or 1 where it can't be written.
fn extract_one(
    rt: &HostRuntime,
    taken: &Taken<'_>,
    resources: &Resources,
    file: &[u8],
    number: usize,
) -> Result<u8, Fault> {
    let alloc = rt.alloc();
    let (Some(name), Some(bytes)) = (
        resources.file_name(alloc, number)?,
        resources.bytes(alloc, file, number)?,
    ) else {
        return Ok(0);
    };
    let (folder, name) = (taken.folder, cut(&name));
    let path = format!(in alloc; "{folder}/{name}")?;
    match write(rt, &path, taken.force, &bytes) {
        Ok(()) => Ok(0),
        Err(error) => unwritten(rt, &path, error),
    }
}

/// Says how much will be written in all, and whether that may be: as many bytes as are left of the limit, which it takes from them.
fn is_allowed(rt: &HostRuntime, path: &str, resources: &Resources, left: &mut u64) -> bool {
    let (count, total) = (resources.len(), resources.total());
    let is_allowed = total <= *left;
    let refused = if is_allowed {
        ""
    } else {
        ", over the limit: none is written"
    };
    // Where standard error is gone, what follows still holds.
    let _ = eprintln!(rt; "w16ne: {path}: resources: {count}, bytes: {total}{refused}");
    if is_allowed {
        *left -= total;
    }
    is_allowed
}

/// Writes each resource of a module file into a file of its own in a folder, and answers 0, or 1 where one can't be written, or where all together have
/// more bytes than are left of the limit, and none is written. Where the module isn't accepted there are none.
pub fn extract(
    rt: &HostRuntime,
    taken: &Taken<'_>,
    path: &str,
    file: &[u8],
    left: &mut u64,
) -> Result<u8, Fault> {
    let Some(resources) = Resources::of(rt.alloc(), file)? else {
        return Ok(0);
    };
    if !is_allowed(rt, path, &resources, left) {
        return Ok(1);
    }
    let mut status = 0;
    for i in 0..resources.len() {
        status = status.max(extract_one(rt, taken, &resources, file, i + 1)?);
    }
    Ok(status)
}
