//! The tables of a module, read from its file.
ghost use Rattle.std.specs.Prelude.{◌≡◌, ◌≤◌, length, IfErr};
ghost use Rattle.w16_store.specs.Files.{file_of};
ghost use Rattle.w16_store.specs.Later.{IsLater, RoseIf};
ghost use Rattle.w16_ne.specs.Reading.{Gives, is_ne_device};
ghost use Rattle.w16_ne.specs.Header.{segment_count, shift_of};
ghost use Rattle.w16_ne.specs.Modules.{tables_behind, tables_at};
ghost use Rattle.w16_ne.specs.Parts.{IsTold, parts_behind, parts_at, without_part};

use crate::entry_table::entries;
use crate::fault::NeFault;
use crate::head::{header, place, test_fields};
use crate::listing::Listing;
use crate::module_file::Module;
use crate::name_table::resident;
use crate::nonresident::add_nonresident;
use crate::ordinals::ordinals_of;
use crate::part::{FilePart, PartFault, in_part};
use crate::reference_table::references;
use crate::resource_table::resources;
use crate::segment_table::segments;
use std::alloc::Allocator;
use w16_store::Store;

/// The tables after a header.
#[tactic(auto, unfolding(crate::specs::Modules::tables_behind, crate::specs::Parts::parts_behind))]
fn tables<A: Allocator + Copy, S: Store>(
    alloc: A,
    store: &mut S,
    name: &[u8],
    ne: u32,
    header: [u8; 64],
) -> Result<Module<A>, PartFault>
    requires len { length header ≡ 64 }
    requires few { segment_count header ≤ 253 }
    requires shift { shift_of header ≤ 15 }
    ensures stays { IsLater (S.files store.old) (S.failures store.old) (S.files store.new) (S.failures store.new) }
    ensures device { IfErr result (RoseIf (λ e. is_ne_device e.fault) (S.failures store.old) (S.failures store.new)) }
    ensures exact { S.is_honest → Gives (λ tables. tables) (file_of (S.files store.old) name.now)
        (S.failures store.old) (S.failures store.new) (without_part result) (tables_behind (file_of (S.files store.old) name.now) ne header) }
    ensures part { S.is_honest → IsTold result (parts_behind (file_of (S.files store.old) name.now) ne header) }
{
    let segments = in_part(
        FilePart::SegmentTable,
        segments(alloc, store, name, ne, &header),
    )?;
    let Listing {
        first: module_name,
        names,
        ..
    } = in_part(
        FilePart::ResidentNames,
        resident(alloc, store, name, ne, &header),
    )?;
    let references = in_part(
        FilePart::References,
        references(alloc, store, name, ne, &header),
    )?;
    let entries = in_part(
        FilePart::EntryTable,
        entries(alloc, store, name, ne, &header),
    )?;
    let resident = names.len() as u32;
    let mut listing = Listing::new(alloc, names);
    in_part(
        FilePart::NonresidentNames,
        add_nonresident(alloc, store, name, &header, &mut listing),
    )?;
    let resources = in_part(
        FilePart::ResourceTable,
        resources(alloc, store, name, ne, &header),
    )?;
    let ordinals = in_part(
        FilePart::NonresidentNames,
        ordinals_of(alloc, &listing.names),
    )?;
    Ok(Module {
        place: ne,
        header,
        name: module_name,
        description: listing.first,
        names: listing.names,
        resident,
        ordinals,
        segments,
        references,
        entries,
        resources,
    })
}

/// The tables of the module in a file, or the file's first fault and the part that it is in.
///
/// `Store` is answered where the store answered a fault, but where the file is too short: that is a fault of the file. `OutOfMemory` is answered
/// where memory was refused. After a fault nothing is kept.
#[tactic(auto, unfolding(crate::specs::Modules::tables_at, crate::specs::Parts::parts_at))]
pub fn read_parts<A: Allocator + Copy, S: Store>(
    alloc: A,
    store: &mut S,
    name: &[u8],
) -> Result<Module<A>, PartFault>
    ensures stays { IsLater (S.files store.old) (S.failures store.old) (S.files store.new) (S.failures store.new) }
    ensures device { IfErr result (RoseIf (λ e. is_ne_device e.fault) (S.failures store.old) (S.failures store.new)) }
    ensures exact { S.is_honest → Gives (λ tables. tables) (file_of (S.files store.old) name.now)
        (S.failures store.old) (S.failures store.new) (without_part result) (tables_at (file_of (S.files store.old) name.now)) }
    ensures part { S.is_honest → IsTold result (parts_at (file_of (S.files store.old) name.now)) }
{
    let ne = in_part(FilePart::OldHeader, place(store, name))?;
    let header = in_part(FilePart::Header, header(store, name, ne))?;
    in_part(FilePart::Header, test_fields(&header))?;
    tables(alloc, store, name, ne, header)
}

/// The tables of the module in a file, or the file's first fault: as `read_parts`, without the part.
pub fn read_module<A: Allocator + Copy, S: Store>(
    alloc: A,
    store: &mut S,
    name: &[u8],
) -> Result<Module<A>, NeFault>
    ensures stays { IsLater (S.files store.old) (S.failures store.old) (S.files store.new) (S.failures store.new) }
    ensures device { IfErr result (RoseIf is_ne_device (S.failures store.old) (S.failures store.new)) }
    ensures exact { S.is_honest → Gives (λ tables. tables) (file_of (S.files store.old) name.now)
        (S.failures store.old) (S.failures store.new) result (tables_at (file_of (S.files store.old) name.now)) }
{
    match read_parts(alloc, store, name) {
        Ok(module) => Ok(module),
        Err(e) => Err(e.fault),
    }
}
