//! The files of a folder.
ghost use Rattle.std.specs.Prelude.{◌≡◌, ℕ, ◌≤◌, List, map, option_map, None, Err, IfOk, IfErr};
ghost use Rattle.std.specs.List.{find};
ghost use Rattle.std.specs.List.Sorted.{IsPermutation, IsSorted};
ghost use Rattle.std.specs.String.{string_bytes, string_cmp};
ghost use Rattle.w16_store.specs.Names.{is_named};
ghost use Rattle.w16_store.specs.Files.{file_of, length_of, IsHonestAnswer, IsMissing, HasBytes};
ghost use Rattle.w16_store.specs.Folder.{listed};
ghost use Rattle.w16_store.specs.Later.{IsLater, RoseIf, is_device};
ghost use Rattle.w16_store.specs.declared.store.StoreFault.TheVariants.{Missing};
ghost use Rattle.w16_store.specs.Places.{AreInOrder, AreWhole};
ghost use Rattle.w16_store.specs.declared.folder.DirFault.TheVariants.{Memory};

use crate::disk::Disk;
use crate::name::is_named;
use crate::part::has_part;
use crate::places::{find_name, places_of};
use crate::store::{Store, StoreFault};
use crate::system::SystemDisk;
use std::alloc::{AllocError, Global};
use std::rt::Files;
use thiserror::Error;

/// Why a folder can't be a store.
#[derive(Debug, Clone, Copy, PartialEq, Eq, Drop, Error)]
pub enum DirFault {
    /// The folder can't be listed.
    #[error("the folder can't be listed")]
    Folder = 1,
    /// There was no memory.
    #[error("out of memory")]
    Memory = 2,
}

impl From<AllocError> for DirFault {
    ghost from_gives = { λ _ fault. fault ≡ Memory };

    fn from(_error: AllocError) -> DirFault {
        DirFault::Memory
    }
}

/// The files that a folder held when the store was made. Of names that are equal the first by bytes counts.
#[derive(Drop)]
pub struct DirStore<D: Disk + Drop> {
    disk: D,
    /// Ascending by bytes.
    names: Vec<String>,
    /// The places of the names, ascending by these after ASCII upper-casing; none where there was no memory for them.
    places: Vec<usize>,
    ghost rising: { AreInOrder (map string_bytes names.items) places.items },
    ghost whole: { AreWhole (map string_bytes names.items) places.items },
}

impl<D: Disk + Drop> DirStore<D> {
    /// The files that a disk's folder holds now. It fails where the disk doesn't list them.
    pub fn new(alloc: Global, disk: D) -> Result<Self, DirFault>
        ensures disk { IfOk result (λ store. store.disk ≡ disk) }
        ensures ascending { IfOk result (λ store. IsSorted string_cmp store.names.items) }
        ensures whole { D.is_honest → IfOk result (λ store. IsPermutation (map (λ f. f.0) (D.files disk)) (map string_bytes store.names.items)) }
        ensures err { IfErr result (D.refuses disk) }
    {
        let mut names = disk.names(alloc)?;
        names.sort_unstable();
        let places = places_of(alloc, names.as_slice()).unwrap_or(Vec::new(alloc));
        Ok(DirStore {
            disk,
            names,
            places,
        })
    }
}

impl<R: Files + AllocGlobal + Clone + Drop> DirStore<SystemDisk<R>> {
    /// The regular files, and links to such, that a folder of the system holds now. Names that aren't UTF-8 are left out.
    pub fn from_folder(rt: &R, alloc: Global, folder: &str) -> Result<Self, DirFault>
        ensures runtime { IfOk result (λ store. R.is_clone rt.now store.disk.runtime) }
        ensures folder { IfOk result (λ store. string_bytes store.disk.folder ≡ folder.now) }
        ensures ascending { IfOk result (λ store. IsSorted string_cmp store.names.items) }
    {
        DirStore::new(alloc, SystemDisk::new(rt, alloc, folder)?)
    }
}

/// The first of the names that is this one. All are gone over where there are no places of them.
fn listed_as<'a>(names: &'a [String], places: &[usize], name: &[u8]) -> Option<&'a str>
    requires rising { AreInOrder (map string_bytes names.now) places.now }
    requires whole { AreWhole (map string_bytes names.now) places.now }
    ensures { option_map (λ found. found.now) result ≡ find (λ n. is_named n name.now) (map string_bytes names.now) }
{
    if places.len() == names.len() {
        return find_name(names, places, name);
    }
    for listed in names {
        if is_named(listed.as_bytes(), name) {
            return Some(listed.as_str());
        }
    }
    None
}

impl<D: Disk + Drop> Store for DirStore<D> {
    ghost files = { λ s. listed (map string_bytes s.names.items) (D.files s.disk) };

    ghost failures = { λ s. D.failures s.disk };

    ghost is_honest = { D.is_honest };

    fn read_at(&mut self, name: &[u8], at: u64, buf: &mut [u8]) -> Result<(), StoreFault> {
        let Some(listed) = listed_as(self.names.as_slice(), self.places.as_slice(), name) else {
            return Err(StoreFault::Missing);
        };
        let Ok(len) = self.disk.read(listed, at, buf) else {
            return Err(StoreFault::Device);
        };
        if has_part(len, at, buf.len()) {
            Ok(())
        } else {
            Err(StoreFault::Short)
        }
    }

    /// `Missing` exactly where no listed name is this one, whatever the disk.
    fn len_of(&mut self, name: &[u8]) -> Result<u64, StoreFault>
        ensures stays { IsLater (listed (map string_bytes self.old.names.items) (D.files self.old.disk)) (D.failures self.old.disk)
            (listed (map string_bytes self.new.names.items) (D.files self.new.disk)) (D.failures self.new.disk) }
        ensures device { IfErr result (RoseIf is_device (D.failures self.old.disk) (D.failures self.new.disk)) }
        ensures honest { D.is_honest → IsHonestAnswer (λ n. n) (D.failures self.old.disk) (D.failures self.new.disk) result
            (length_of (file_of (listed (map string_bytes self.old.names.items) (D.files self.old.disk)) name.now)) }
        ensures missing { IfErr result (IsMissing (file_of (listed (map string_bytes self.old.names.items) (D.files self.old.disk)) name.now)) }
        ensures bytes { D.is_honest → IfOk result (λ _. HasBytes (file_of (listed (map string_bytes self.old.names.items) (D.files self.old.disk)) name.now)) }
        ensures unlisted { find (λ n. is_named n name.now) (map string_bytes self.old.names.items) ≡ None → result ≡ Err Missing }
    {
        match listed_as(self.names.as_slice(), self.places.as_slice(), name) {
            None => Err(StoreFault::Missing),
            Some(listed) => match self.disk.read(listed, 0, &mut []) {
                Ok(len) => Ok(len),
                Err(_) => Err(StoreFault::Device),
            },
        }
    }

    fn refresh(&mut self) {
        self.disk.refresh();
    }
}
