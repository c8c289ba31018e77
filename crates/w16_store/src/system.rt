//! A folder of the system.
ghost use Rattle.std.specs.Prelude.{◌≡◌, ◌<◌, ◌≤◌, ◌↔◌, ℕ, [], IfOk, OnErr, IsOkUnless};
ghost use Rattle.std.specs.IoError.{error_kind};
ghost use Rattle.std.specs.String.{string_bytes};
ghost use Rattle.w16_store.specs.declared.folder.DirFault.TheVariants.{Memory};

use crate::disk::{Disk, DiskFailure};
use crate::folder::DirFault;
use crate::opened::{Opened, regular_len};
use std::alloc::Global;
use std::fs::DirEntry;
use std::io::{Error, ErrorKind};
use std::rt::Files;
use std::{fs, io};

/// A folder of the system, by its path. A file is opened once it was seen that it is a regular one, so that no read waits, and stays open until another is read.
#[derive(Drop)]
pub struct SystemDisk<R: Files + Drop> {
    runtime: R,
    alloc: Global,
    folder: String,
    /// The file that was read last, where no read failed since.
    last: Option<Opened<R::File>>,
    /// Whether that one was looked at since a call began.
    looked: bool,
    failures: u64,
}

impl<R: Files + AllocGlobal + Clone + Drop> SystemDisk<R> {
    /// Any folder, also one that isn't there. It keeps the access to files that `rt` gives. An error is that there was no memory.
    pub fn new(rt: &R, alloc: Global, folder: &str) -> Result<Self, DirFault>
        ensures runtime { IfOk result (λ disk. R.is_clone rt.now disk.runtime) }
        ensures folder { IfOk result (λ disk. string_bytes disk.folder ≡ folder.now) }
        ensures err { IsOkUnless result Memory }
    {
        Ok(SystemDisk {
            runtime: rt.clone()?,
            alloc,
            folder: String::from_str(alloc, folder)?,
            last: None,
            looked: false,
            failures: 0,
        })
    }
}

impl<R: Files + Drop> SystemDisk<R> {
    /// Opens a file for reading. What it is is looked at before, since to open a FIFO waits for one that writes to it.
    fn open(&self, name: &str) -> io::Result<Opened<R::File>>
        ensures { IfOk result (λ file. string_bytes file.name ≡ name.now) }
    {
        let path = format!(in self.alloc; "{}/{name}", self.folder)?;
        regular_len(&fs::metadata(&self.runtime, path.as_str())?)?;
        let file = fs::open(&self.runtime, path.as_str())?;
        Opened::new(self.alloc, name, path, file)
    }

    /// A file as it is now: the one that was read last, where it is that one and didn't change, at which it looks once in a call. Afterwards there is
    /// none that was read last.
    fn take_file(&mut self, name: &str) -> io::Result<Opened<R::File>>
        ensures name { IfOk result (λ file. string_bytes file.name ≡ name.now) }
        ensures failures { self.new.failures ≡ self.old.failures }
    {
        if let Some(last) = self.last.take() {
            if last.is_still(&self.runtime, name, self.looked) {
                return Ok(last);
            }
        }
        self.open(name)
    }

    /// A file's length. Fills the buffer from an offset on, where the file has bytes for all of it. After an error no file is open.
    fn read_part(&mut self, name: &str, at: u64, buf: &mut [u8]) -> io::Result<u64>
        ensures { self.new.failures ≡ self.old.failures }
    {
        let mut file = self.take_file(name)?;
        self.looked = true;
        let len = file.read(at, buf)?;
        self.last = Some(file);
        Ok(len)
    }

    /// Adds an entry's name to the list, where it is a regular file.
    fn list(
        &self,
        alloc: Global,
        entry: &DirEntry<R>,
        names: &mut Vec<String>,
    ) -> Result<(), DirFault> {
        if entry.path().is_file(&self.runtime) {
            let name = String::from_str(alloc, entry.file_name())?;
            if names.push(name).is_err() {
                return Err(DirFault::Memory);
            }
        }
        Ok(())
    }

    /// The same, where an entry was found. One whose name isn't UTF-8 is left out.
    fn list_found(
        &self,
        alloc: Global,
        found: io::Result<DirEntry<R>>,
        names: &mut Vec<String>,
    ) -> Result<(), DirFault> {
        match found {
            Ok(entry) => self.list(alloc, &entry, names),
            Err(e) if e.kind() == ErrorKind::InvalidFilename => Ok(()),
            Err(e) => Err(fault_of(e)),
        }
    }

    /// Counts a failure. Where the count is full, which takes 500 years at one failure a nanosecond, the file is as one without bytes.
    fn fail(&mut self) -> Result<u64, DiskFailure>
        ensures counted { self.old.failures ≤ self.new.failures }
        ensures fails { OnErr result (self.old.failures < self.new.failures) }
    {
        let Some(failures) = self.failures.checked_add(1) else {
            return Ok(0);
        };
        self.failures = failures;
        Err(DiskFailure)
    }
}

/// Why a folder wasn't listed.
fn fault_of(error: Error) -> DirFault
    ensures { (result ≡ Memory) ↔ (error_kind error ≡ ErrorKind.OutOfMemory) }
{
    match error.kind() {
        ErrorKind::OutOfMemory => DirFault::Memory,
        _ => DirFault::Folder,
    }
}

// No contract says what a system's files hold, so nothing is promised of the answers: the folder's files are none, nothing makes it honest, and it may refuse for any fault. Only failures are counted.
impl<R: Files + AllocGlobal + Clone + Drop> Disk for SystemDisk<R> {
    ghost files = { λ _. [] };

    ghost failures = { λ s. s.failures };

    ghost is_honest = { ⊥ };

    ghost refuses = { λ _ _. Unit {0} };

    fn names(&self, alloc: Global) -> Result<Vec<String>, DirFault> {
        let entries = fs::read_dir(&self.runtime, self.folder.as_str()).map_err(fault_of)?;
        let mut names = Vec::new(alloc);
        for entry in entries {
            self.list_found(alloc, entry, &mut names)?;
        }
        Ok(names)
    }

    fn read(&mut self, name: &str, at: u64, buf: &mut [u8]) -> Result<u64, DiskFailure> {
        match self.read_part(name, at, buf) {
            Ok(len) => Ok(len),
            Err(_) => self.fail(),
        }
    }

    fn refresh(&mut self) {
        self.looked = false;
    }
}
