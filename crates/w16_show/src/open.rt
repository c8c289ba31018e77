//! A file, opened: its module, and the verdict on it.
ghost use Rattle.std.specs.Prelude.{◌≡◌, ℕ, List, Some, Ok, IfOk};
ghost use Rattle.w16_store.specs.Files.{file_of};
ghost use Rattle.w16_ne.specs.Modules.{tables_at};
ghost use Rattle.w16_ne.specs.Parts.{parts_at, without_part};
ghost use Rattle.w16_show.specs.Report.{IsOpened, first_unsound, verdict_of};

use crate::verdict::{Unsound, Verdict};
use std::alloc::{AllocError, Global};
use w16_ne::{Module, NeFault, PartFault, read_parts};
use w16_reloc::{Scratch, check};
use w16_store::MemStore;

/// The name of the one file in its store.
pub const FILE: &[u8] = b"FILE";

/// A store of one file.
pub fn store_of(alloc: Global, file: &[u8]) -> Result<MemStore, AllocError>
    ensures { IfOk result (λ store. file_of store FILE.now ≡ Some file.now) }
{
    let mut store = MemStore::new(alloc);
    store.add(FILE, file)?;
    Ok(store)
}

/// The module of a file, or the file's first fault with its part.
pub fn module_of(
    alloc: Global,
    store: &mut MemStore,
    name: &[u8],
) -> Result<Result<Module, PartFault>, AllocError>
    ensures same { store.new ≡ store.old }
    ensures parts { (file : List ℕ) → file_of store.old name.now ≡ Some file → IfOk result (λ read. read ≡ parts_at (Some file)) }
    ensures tables { (file : List ℕ) → file_of store.old name.now ≡ Some file → IfOk result (λ read. without_part read ≡ tables_at (Some file)) }
{
    match read_parts(alloc, store, name) {
        Ok(tables) => Ok(Ok(tables)),
        Err(e) if e.fault == NeFault::OutOfMemory => Err(AllocError),
        Err(e) => Ok(Err(e)),
    }
}

/// The first segment that isn't sound; none where all are.
fn first_unsound(
    store: &mut MemStore,
    name: &[u8],
    tables: &Module,
    scratch: &mut Scratch,
) -> Option<Unsound>
    ensures same { store.new ≡ store.old }
    ensures first { (file : List ℕ) → IsOpened store.old name.now file tables.now
        → result ≡ first_unsound file tables.now 1 tables.now.segments }
{
    for i in 0..tables.segment_count() {
        let segment = i + 1;
        if let Err(fault) = check(store, name, tables, segment, scratch) {
            return Some(Unsound { segment, fault });
        }
    }
    None
}

/// The verdict on a file whose module is accepted.
pub fn verdict(store: &mut MemStore, name: &[u8], tables: &Module, scratch: &mut Scratch) -> Verdict
    ensures same { store.new ≡ store.old }
    ensures verdict { (file : List ℕ) → IsOpened store.old name.now file tables.now
        → result ≡ verdict_of file (Ok tables.now) }
{
    match first_unsound(store, name, tables, scratch) {
        None => Verdict::Sound,
        Some(unsound) => Verdict::NotSound(unsound),
    }
}
