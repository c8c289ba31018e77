//! A disk of one file, and a system with a name that is no UTF-8, which tells whether anything was opened that is no regular file.
use std::alloc::{Allocator, Global};
use std::fs::{Metadata, OpenOptions};
use std::io;
use std::io::Cursor;
use std::rt::Files;
use w16_store::{DirFault, Disk, DiskFailure};

/// A disk of one file, which may fail.
#[derive(Drop)]
pub struct OneFile {
    pub fails: bool,
    pub failures: u64,
}

impl Disk for OneFile {
    ghost use Rattle.std.specs.Prelude.{[]};

    ghost files = { λ _. [] };

    ghost failures = { λ s. s.failures };

    ghost is_honest = { ⊥ };

    ghost refuses = { λ _ _. Unit {0} };

    fn names(&self, alloc: Global) -> Result<Vec<String>, DirFault> {
        if self.fails {
            return Err(DirFault::Folder);
        }
        vec![in alloc; String::from_str(alloc, "ONE.TXT")?].map_err(|_| DirFault::Memory)
    }

    fn read(&mut self, _name: &str, at: u64, buf: &mut [u8]) -> Result<u64, DiskFailure> {
        if at == 1 {
            let Some(failures) = self.failures.checked_add(1) else {
                return Ok(0);
            };
            self.failures = failures;
            return Err(DiskFailure);
        }
        buf.fill(7);
        Ok(4)
    }

    fn refresh(&mut self) {}
}

/// A file that is gone once anything was opened that is no regular file. To open a FIFO would wait in its place.
const UNOPENED: &str = "store_files/UNOPENED";

/// A system whose folders list a name that is no UTF-8 before a good one.
#[derive(Clone, Drop)]
pub struct OddNames(pub HostRuntime);

impl Alloc for OddNames {
    type A = Global;

    fn alloc(&self) -> Global {
        self.0.alloc()
    }
}

impl Files for OddNames {
    type File = <HostRuntime as Files>::File;

    type Dir = Cursor<Vec<u8>>;

    fn open_file(&self, how: &OpenOptions, path: &str) -> io::Result<Self::File> {
        if !self.0.metadata(path)?.is_file() {
            self.0.remove_file(UNOPENED)?;
        }
        self.0.open_file(how, path)
    }

    fn open_dir(&self, _path: &str) -> io::Result<Cursor<Vec<u8>>> {
        let names = b"\xff.TXT\0HELLO.TXT\0".to_vec(self.alloc())?;
        Ok(Cursor::new(names))
    }

    fn metadata(&self, path: &str) -> io::Result<Metadata> {
        self.0.metadata(path)
    }

    fn symlink_metadata(&self, path: &str) -> io::Result<Metadata> {
        self.0.symlink_metadata(path)
    }

    fn copy(&self, from: &str, to: &str) -> io::Result<u64> {
        self.0.copy(from, to)
    }

    fn rename(&self, from: &str, to: &str) -> io::Result<()> {
        self.0.rename(from, to)
    }

    fn remove_file(&self, path: &str) -> io::Result<()> {
        self.0.remove_file(path)
    }

    fn create_dir(&self, path: &str) -> io::Result<()> {
        self.0.create_dir(path)
    }

    fn remove_dir(&self, path: &str) -> io::Result<()> {
        self.0.remove_dir(path)
    }

    fn remove_dir_all<B: Allocator>(&self, alloc: B, path: &str) -> io::Result<()> {
        self.0.remove_dir_all(alloc, path)
    }
}
