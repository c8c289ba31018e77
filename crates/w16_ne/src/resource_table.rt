//! The resource table as a whole.
ghost use Rattle.std.specs.Prelude.{◌≡◌, ℕ, ◌<◌, ◌≤◌, ◌+◌, ◌*◌, ◌^◌, List, Option, All, Ok, length, map, nat_lt, IfErr, false};
ghost use Rattle.w16_store.specs.Files.{file_of};
ghost use Rattle.w16_store.specs.Later.{IsLater, RoseIf};
ghost use Rattle.w16_ne.specs.Reading.{Gives, Tells, length_at, is_ne_device};
ghost use Rattle.w16_ne.specs.Resources.{is_placed, are_placed, typed_in, resources_at};
ghost use Rattle.w16_ne.specs.Rows.{entry_in};

use crate::fault::NeFault;
use crate::reading::{file_len, read_or, word};
use crate::resource_blocks::{Block, blocks};
use crate::resource_places::ResourceTable;
use crate::resource_rows::{Row, all_rows};
use crate::segment_table::unit;
use crate::text_window::texts_behind;
use std::alloc::Allocator;
use w16_store::Store;

/// Tests that a row's bytes don't end past the end of a file of so many bytes by a unit or more.
fn test_place(len: u64, shift: u16, row: Row) -> Result<(), NeFault>
    requires { shift ≤ 15 }
    ensures own { IfErr result (λ e. is_ne_device e ≡ false) }
    ensures exact { (file : Option (List ℕ)) (texts : List ℕ) → length_at file ≡ Ok len
        → Tells (λ _. tt) result (is_placed file (2 ^ shift) (entry_in texts shift row)) }
{
    let unit = unit(shift);
    let size = u32::from(row.len) * unit;
    if size == 0 {
        return Ok(());
    }
    let end = u64::from(u32::from(row.place) * unit) + u64::from(size);
    if end.saturating_sub(u64::from(unit)) + 1 > len {
        return Err(NeFault::Truncated);
    }
    Ok(())
}

/// The same of rows, in their order.
fn test_places(len: u64, shift: u16, rows: &[Row]) -> Result<(), NeFault>
    requires { shift ≤ 15 }
    ensures own { IfErr result (λ e. is_ne_device e ≡ false) }
    ensures exact { (file : Option (List ℕ)) (texts : List ℕ) → length_at file ≡ Ok len
        → Tells (λ _. tt) result (are_placed file (2 ^ shift) (map (entry_in texts shift) rows.now)) }
{
    for row in rows {
        test_place(len, shift, *row)?;
    }
    Ok(())
}

/// Whether there are over 65,535 resources.
fn are_too_many(rows: &[Row]) -> bool
    ensures { result ≡ nat_lt 65535 (length rows.now) }
{
    rows.len() > 65535
}

/// The resources of a table's blocks, each block's under its type, in a file of so many bytes.
#[tactic(auto, unfolding(crate::specs::Resources::typed_in))]
fn typed_in<A: Allocator + Copy, S: Store>(
    alloc: A,
    store: &mut S,
    name: &[u8],
    len: u64,
    table: u64,
    shift: u16,
    blocks: &[Block],
) -> Result<ResourceTable<A>, NeFault>
    requires place { table < len }
    requires ends { All (λ b. b.at + 12 * b.count ≤ len) blocks.now }
    ensures stays { IsLater (S.files store.old) (S.failures store.old) (S.files store.new) (S.failures store.new) }
    ensures device { IfErr result (RoseIf is_ne_device (S.failures store.old) (S.failures store.new)) }
    ensures exact { S.is_honest → length_at (file_of (S.files store.old) name.now) ≡ Ok len → Gives (λ types. types) (file_of (S.files store.old) name.now)
        (S.failures store.old) (S.failures store.new) result (typed_in (file_of (S.files store.old) name.now) table shift blocks.now) }
{
    if shift > 15 {
        return Err(NeFault::BadTable);
    }
    let texts = texts_behind(alloc, store, name, table)?;
    let rows = all_rows(alloc, store, name, len, texts.as_slice(), blocks, table)?;
    if are_too_many(rows.rows.as_slice()) {
        return Err(NeFault::Unsupported);
    }
    test_places(len, shift, rows.rows.as_slice())?;
    Ok(ResourceTable { texts, shift, rows })
}

/// The resources by type, in the table's order. There may be no table.
#[tactic(auto, unfolding(crate::specs::Resources::resources_at))]
pub fn resources<A: Allocator + Copy, S: Store>(
    alloc: A,
    store: &mut S,
    name: &[u8],
    ne: u32,
    header: &[u8],
) -> Result<ResourceTable<A>, NeFault>
    requires { length header.now ≡ 64 }
    ensures stays { IsLater (S.files store.old) (S.failures store.old) (S.files store.new) (S.failures store.new) }
    ensures device { IfErr result (RoseIf is_ne_device (S.failures store.old) (S.failures store.new)) }
    ensures exact { S.is_honest → Gives (λ types. types) (file_of (S.files store.old) name.now)
        (S.failures store.old) (S.failures store.new) result (resources_at (file_of (S.files store.old) name.now) ne header.now) }
{
    if word(header, 0x24) == word(header, 0x26) {
        return Ok(ResourceTable::none(alloc));
    }
    let at = u64::from(ne) + u64::from(word(header, 0x24));
    let mut shift = [0u8; 2];
    read_or(store, name, at, &mut shift, NeFault::Truncated)?;
    let len = file_len(store, name)?;
    let blocks = blocks(alloc, store, name, len, at + 2)?;
    typed_in(
        alloc,
        store,
        name,
        len,
        at,
        word(&shift, 0),
        blocks.as_slice(),
    )
}
