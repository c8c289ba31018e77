//! A store in memory that takes new files while a machine runs.
ghost use Rattle.std.specs.Prelude.{◌≡◌, ◌<◌, [], length, None, IfErr, IfSome, IsFalse, IsTrue, OnOk, OnErr, is_some, option_map, IfOk};
ghost use Rattle.w16_store.specs.Files.{file_of, length_of, AreWith, AreWithout, HasBytes, IsHonestAnswer, IsMissing};
ghost use Rattle.w16_store.specs.Later.{IsLater, RoseIf, is_device};
ghost use Rattle.w16_kernel.specs.Growing.{missed_by, IsNotAdded};

use arrayvec::ArrayVec;
use std::alloc::Global;
use std::marker::Model;
use thiserror::Error;
use w16_store::{MemStore, Store, StoreFault};

/// The longest name that is kept, in bytes: that of the file of a reference, which has at most 255 and `.DLL` after them.
pub const MOST_NAME: usize = 259;

/// A name in place.
type Name = ArrayVec<u8, MOST_NAME>;

/// Why a file isn't added.
#[derive(Debug, Clone, Copy, PartialEq, Eq, Drop, Error)]
pub enum AddFault {
    /// The name is empty.
    #[error("a file without a name")]
    Unnamed,
    /// There is a file of that name.
    #[error("there is a file of that name")]
    Exists,
    /// There was no memory.
    #[error("out of memory")]
    Memory,
}

/// Why a file isn't taken away.
#[derive(Debug, Clone, Copy, PartialEq, Eq, Drop, Error)]
pub enum RemoveFault {
    /// No file has the name.
    #[error("no file of that name")]
    Missing,
    /// A module is loaded from it.
    #[error("a module is loaded from the file")]
    InUse,
}

/// Files in memory, to which others come as loads ask for them. None is replaced, since a module may have been loaded from it.
#[derive(Drop)]
pub struct GrowingStore {
    files: MemStore,
    missed: Option<Name>,
}

impl Model for GrowingStore {
    ghost use Rattle.std.specs.Prelude.{◌≡◌, IfSome, None, option_map};
    ghost use Rattle.w16_store.specs.Files.{file_of};
    ghost use Rattle.w16_kernel.specs.Growing.{Growing, growing_code};

    ghost Value = { Growing };

    ghost coded = { growing_code };

    ghost view = { λ s. record { files = s.files; missed = option_map (λ name. name.items) s.missed } };

    ghost invariant = { λ s. IfSome s.missed (λ name. file_of s.files name.items ≡ None) };
}

impl GrowingStore {
    /// No files.
    pub fn new(alloc: Global) -> Self
        ensures { result ≡ record { files = []; missed = None } }
    {
        GrowingStore {
            files: MemStore::new(alloc),
            missed: None,
        }
    }

    /// Adds a file, whose name no other file has. A fault leaves the files as they were.
    pub fn add(&mut self, name: &[u8], bytes: &[u8]) -> Result<(), AddFault>
        ensures fresh { OnOk result (file_of self.old.files name.now ≡ None) }
        ensures named { OnOk result (0 < length name.now) }
        ensures added { OnOk result (AreWith name.now bytes.now self.old.files self.new.files) }
        ensures fault { IfErr result (IsNotAdded self.old.files name.now) }
        ensures same { OnErr result (self.new ≡ self.old) }
    {
        if name.is_empty() {
            return Err(AddFault::Unnamed);
        }
        if self.files.len_of(name).is_ok() {
            return Err(AddFault::Exists);
        }
        if self.files.add(name, bytes).is_err() {
            return Err(AddFault::Memory);
        }
        self.missed = None;
        Ok(())
    }

    /// Takes a file away; whether one had the name.
    pub fn remove(&mut self, name: &[u8]) -> bool
        ensures had { result ≡ is_some (file_of self.old.files name.now) }
        ensures gone { IsTrue result → AreWithout name.now self.old.files self.new.files }
        ensures kept { IsFalse result → self.new ≡ self.old }
    {
        self.files.remove(name)
    }

    /// The name by which a length was last asked for, as a load does first of each file, if no file has it; none where a file was added since, or
    /// where the name is longer than [`MOST_NAME`].
    pub fn missed(&self) -> Option<&[u8]>
        ensures name { option_map (λ name. name.now) result ≡ self.now.missed }
        ensures absent { IfSome result (λ name. file_of self.now.files name.now ≡ None) }
    {
        match &self.missed {
            Some(name) => Some(name.as_slice()),
            None => None,
        }
    }
}

/// The name to keep of a file whose length was asked for: that of none, unless it is too long.
fn missed_name(len: &Result<u64, StoreFault>, name: &[u8]) -> Option<Name>
    ensures { option_map (λ kept. kept.items) result ≡ missed_by len.now name.now }
{
    let Err(StoreFault::Missing) = len else {
        return None;
    };
    let mut kept = Name::new();
    match kept.try_extend_from_slice(name) {
        Ok(()) => Some(kept),
        Err(_) => None,
    }
}

impl Store for GrowingStore {
    ghost files = { λ s. s.files };

    ghost failures = { λ _. 0 };

    ghost is_honest = { Unit {0} };

    fn read_at(&mut self, name: &[u8], at: u64, buf: &mut [u8]) -> Result<(), StoreFault> {
        self.files.read_at(name, at, buf)
    }

    fn len_of(&mut self, name: &[u8]) -> Result<u64, StoreFault>
        ensures stays { IsLater self.old.files 0 self.new.files 0 }
        ensures device { IfErr result (RoseIf is_device 0 0) }
        ensures honest { Unit {0} → IsHonestAnswer (λ n. n) 0 0 result (length_of (file_of self.old.files name.now)) }
        ensures missing { IfErr result (IsMissing (file_of self.old.files name.now)) }
        ensures bytes { Unit {0} → IfOk result (λ _. HasBytes (file_of self.old.files name.now)) }
        ensures missed { self.new.missed ≡ missed_by result name.now }
    {
        let len = self.files.len_of(name);
        self.missed = missed_name(&len, name);
        len
    }

    fn refresh(&mut self) {}
}
