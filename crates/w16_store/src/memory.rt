//! Files in memory.
ghost use Rattle.std.specs.Prelude.{◌≡◌, ℕ, ◌≤◌, length, List, [], Some, OnOk, OnErr, IsFalse, IsTrue, filter, is_some, not, position, option_map};
ghost use Rattle.w16_store.specs.Names.{is_named};
ghost use Rattle.w16_store.specs.Files.{file_of, bytes_of, length_of, IsHonestAnswer, AreWith, AreWithout};
ghost use Rattle.w16_store.specs.Memory.{files_in};

use crate::name::is_named;
use crate::part::{copy_part, reveal_bytes};
use crate::store::{Store, StoreFault};
use std::alloc::{AllocError, Global};
use std::marker::Model;

#[derive(Drop)]
struct File {
    name: Vec<u8>,
    bytes: Vec<u8>,
}

/// Files in memory. The device never fails.
#[derive(Drop)]
pub struct MemStore {
    files: Vec<File>,
}

impl Model for MemStore {
    ghost use Rattle.std.specs.Prelude.{ℕ, List};
    ghost use Rattle.w16_store.specs.Memory.{files_in};

    ghost Value = { List (List ℕ × List ℕ) };

    ghost view = { λ s. files_in s.files.items };
}

impl MemStore {
    /// No files.
    pub fn new(alloc: Global) -> Self
        ensures { result ≡ [] }
    {
        MemStore {
            files: Vec::new(alloc),
        }
    }

    /// A file of that name has these bytes from now on, whether there was one or not. An error is that there was no memory, and changes nothing.
    pub fn add(&mut self, name: &[u8], bytes: &[u8]) -> Result<(), AllocError>
        ensures ok { OnOk result (AreWith name.now bytes.now self.old self.new) }
        ensures err { OnErr result (self.new ≡ self.old) }
    {
        let alloc = *self.files.allocator();
        let bytes = Vec::from_slice(alloc, bytes)?;
        if let Some(i) = place_of(self.files.as_slice(), name) {
            self.files[i].bytes = bytes;
            return Ok(());
        }
        let name = Vec::from_slice(alloc, name)?;
        self.files.push(File { name, bytes })?;
        Ok(())
    }

    /// No file has that name from now on; whether one had it.
    pub fn remove(&mut self, name: &[u8]) -> bool
        ensures had { result ≡ is_some (file_of self.old name.now) }
        ensures gone { IsTrue result → AreWithout name.now self.old self.new }
        ensures kept { IsFalse result → self.new ≡ self.old }
    {
        if bytes_of(self.files.as_slice(), name).is_none() {
            return false;
        }
        drop_named(&mut self.files, name);
        true
    }
}

/// The first file of a name.
fn place_of(files: &[File], name: &[u8]) -> Option<usize>
    ensures { result ≡ position (λ f. is_named f.name.items name.now) files.now }
{
    files
        .iter()
        .position(|file| is_named(file.name.as_slice(), name))
}

/// Drops all files of a name.
fn drop_named(files: &mut Vec<File>, name: &[u8])
    ensures { files.new.items ≡ filter (λ f. not (is_named f.name.items name.now)) files.old.items }
{
    files.retain(|file| !is_named(file.name.as_slice(), name));
}

fn bytes_of<'a>(files: &'a [File], name: &[u8]) -> Option<&'a [u8]>
    ensures { option_map (λ bytes. bytes.now) result ≡ file_of (files_in files.now) name.now }
{
    let i = place_of(files, name)?;
    Some(files[i].bytes.as_slice())
}

impl Store for MemStore {
    ghost files = { λ s. s };

    ghost failures = { λ _. 0 };

    ghost is_honest = { Unit {0} };

    fn read_at(&mut self, name: &[u8], at: u64, buf: &mut [u8]) -> Result<(), StoreFault> {
        match bytes_of(self.files.as_slice(), name) {
            None => Err(StoreFault::Missing),
            Some(bytes) => copy_part(bytes, at, buf),
        }
    }

    fn len_of(&mut self, name: &[u8]) -> Result<u64, StoreFault> {
        let bytes = bytes_of(self.files.as_slice(), name).ok_or(StoreFault::Missing)?;
        reveal_bytes(bytes);
        Ok(bytes.len() as u64)
    }

    fn refresh(&mut self) {}
}
