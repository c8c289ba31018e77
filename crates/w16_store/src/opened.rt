//! The file of a folder that was read last.
ghost use Rattle.std.specs.Prelude.{◌≡◌, IfOk, OnOk, OnErr, IsTrue};
ghost use Rattle.std.specs.Fs.{IsFile, file_type, metadata_len};
ghost use Rattle.std.specs.String.{string_bytes};

use crate::part::has_part;
use crate::window::Window;
use std::alloc::Global;
use std::fs::{Metadata, OpenFile};
use std::io::{Error, ErrorKind, Read, Seek};
use std::os::unix::fs::MetadataExt;
use std::rt::Files;
use std::{fs, io};

/// What differs where a file was changed, or is another one of the same name.
#[derive(Clone, Copy, PartialEq, Eq)]
struct Stamp {
    device: u64,
    inode: u64,
    len: u64,
    modified: (i64, i64),
    changed: (i64, i64),
}

/// A regular file that is open, and a part of it that was read ahead.
#[derive(Drop)]
pub struct Opened<F: Drop> {
    name: String,
    path: String,
    file: F,
    /// As it was when the file was opened.
    stamp: Stamp,
    window: Window,
}

impl<F: OpenFile + Read + Seek + Drop> Opened<F> {
    /// A file that was opened just now, with nothing read ahead. An error is that it isn't a regular one, that the system failed, or that there was no memory.
    pub fn new(alloc: Global, name: &str, path: String, file: F) -> io::Result<Self>
        ensures { IfOk result (λ opened. string_bytes opened.name ≡ name.now) }
    {
        let stamp = stamp_of(&file.metadata()?)?;
        Ok(Opened {
            name: String::from_str(alloc, name)?,
            path,
            file,
            stamp,
            window: Window::new(alloc),
        })
    }

    /// Whether the file has this name and lies at its path as it was when it was opened, at which it doesn't look again where it was looked at already.
    pub fn is_still<R: Files>(&self, runtime: &R, name: &str, looked: bool) -> bool
        ensures { IsTrue result → string_bytes self.now.name ≡ name.now }
    {
        self.name.as_str() == name && (looked || self.has_stamp(runtime))
    }

    fn has_stamp<R: Files>(&self, runtime: &R) -> bool {
        match fs::metadata(runtime, self.path.as_str()) {
            Ok(metadata) => stamp_of(&metadata).is_ok_and(|stamp| stamp == self.stamp),
            Err(_) => false,
        }
    }

    /// The file's length when it was opened. Fills the buffer from an offset on, where the file has bytes for all of it. With an empty one what was read ahead is forgotten.
    pub fn read(&mut self, at: u64, buf: &mut [u8]) -> io::Result<u64>
        ensures { IfOk result (λ len. len ≡ self.old.stamp.len) }
    {
        let len = self.stamp.len;
        if buf.is_empty() {
            self.window.clear();
        } else if has_part(len, at, buf.len()) && !self.window.copy(at, buf) {
            self.window.read(&mut self.file, at, len, buf)?;
        }
        Ok(len)
    }
}

fn stamp_of(metadata: &Metadata) -> io::Result<Stamp>
    ensures len { IfOk result (λ stamp. stamp.len ≡ metadata_len metadata.now) }
{
    Ok(Stamp {
        device: metadata.dev(),
        inode: metadata.ino(),
        len: regular_len(metadata)?,
        modified: (metadata.mtime(), metadata.mtime_nsec()),
        changed: (metadata.ctime(), metadata.ctime_nsec()),
    })
}

/// The length of a regular file, by what the system says of it. An error is that it is a folder, a device, a FIFO or the like.
pub fn regular_len(metadata: &Metadata) -> io::Result<u64>
    ensures ok { OnOk result (IsFile (file_type metadata.now)) }
    ensures len { IfOk result (λ len. len ≡ metadata_len metadata.now) }
    ensures err { OnErr result (IsFile (file_type metadata.now) → ⊥) }
{
    if metadata.is_file() {
        Ok(metadata.len())
    } else {
        Err(Error::from(ErrorKind::InvalidInput))
    }
}
