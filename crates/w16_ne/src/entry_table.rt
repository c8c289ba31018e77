//! The entry table.
ghost use Rattle.std.specs.Prelude.{◌≡◌, ℕ, ◌<◌, ◌≤◌, ◌+◌, ◌*◌, ◌||◌, false, length, nat_lt, slice_index, IfOk, vec_len, IfErr};
ghost use Rattle.w16_store.specs.Files.{file_of};
ghost use Rattle.w16_store.specs.Later.{IsLater, RoseIf};
ghost use Rattle.w16_ne.specs.Reading.{Gives, Tells, is_ne_device};
ghost use Rattle.w16_ne.specs.Header.{segment_count};
ghost use Rattle.w16_ne.specs.Entries.{entry_size, bundle_end, entry_in, sound_entry, bundle_in, entries_in, table_at};

use crate::fault::NeFault;
use crate::reading::{is_end, table, word};
use std::alloc::Allocator;
use w16_store::Store;

/// Where an ordinal leads.
#[derive(Clone, Copy, Debug, PartialEq, Eq)]
pub enum Entry {
    /// A segment by its number, from 1, and an offset in it.
    InSegment { segment: u8, offset: u16 },
    /// A constant.
    Constant(u16),
}

/// How many bytes an entry takes in a bundle of this indicator.
fn size_of_entry(indicator: u8) -> usize
    ensures size { result ≡ entry_size indicator }
    ensures few { result ≤ 6 }
{
    match indicator {
        0 => 0,
        0xff => 6,
        _ => 3,
    }
}

/// The entry at an index of the table, in a bundle of this indicator.
fn entry_at(table: &[u8], indicator: u8, at: usize) -> Option<Entry>
    requires { at + entry_size indicator ≤ length table.now }
    ensures { result ≡ entry_in table.now indicator at }
{
    match indicator {
        0 => None,
        0xff => Some(Entry::InSegment {
            segment: table[at + 3],
            offset: word(table, at + 4),
        }),
        0xfe => Some(Entry::Constant(word(table, at + 1))),
        segment => Some(Entry::InSegment {
            segment,
            offset: word(table, at + 1),
        }),
    }
}

/// The same, but that its segment has to be there.
fn sound(segments: u16, entry: Option<Entry>) -> Result<Option<Entry>, NeFault>
    ensures { Tells (λ e. e) result (sound_entry segments entry) }
{
    match entry {
        Some(Entry::InSegment { segment, .. }) if segment == 0 || u16::from(segment) > segments => {
            Err(NeFault::BadTable)
        }
        entry => Ok(entry),
    }
}

/// So many entries of a bundle.
#[tactic(auto, unfolding(crate::specs::Entries::bundle_in))]
fn bundle<A: Allocator + Copy>(
    alloc: A,
    table: &[u8],
    segments: u16,
    indicator: u8,
    count: u8,
    at: usize,
) -> Result<Vec<Option<Entry>, A>, NeFault>
    requires short { length table.now ≤ 65535 }
    requires inside { at + count * entry_size indicator ≤ length table.now }
    ensures { Tells (λ v. v.items) result (bundle_in table.now segments indicator count at) }
{
    let mut entries = Vec::new(alloc);
    for i in 0..count {
        let place = at + usize::from(i) * size_of_entry(indicator);
        let entry = sound(segments, entry_at(table, indicator, place))?;
        entries.push(entry)?;
    }
    Ok(entries)
}

/// Where the bundle at an index ends.
fn end_of(table: &[u8], at: usize) -> usize
    requires { at + 1 < length table.now }
    ensures { result ≡ bundle_end table.now at }
{
    at + 2 + usize::from(table[at]) * size_of_entry(table[at + 1])
}

/// Whether the bundle at an index, after so many ordinals, goes past the table or past 65,535 ordinals.
fn is_bad(table: &[u8], at: usize, ordinals: usize) -> bool
    requires at { at < length table.now }
    requires ordinals { ordinals ≤ 65535 }
    ensures bad { result ≡ (nat_lt (length table.now) (bundle_end table.now at) || nat_lt 65535 (ordinals + slice_index table.now at)) }
    ensures inside { result ≡ false → bundle_end table.now at ≤ length table.now }
    ensures few { result ≡ false → ordinals + slice_index table.now at ≤ 65535 }
{
    at + 1 >= table.len()
        || end_of(table, at) > table.len()
        || ordinals + usize::from(table[at]) > 65535
}

/// The entries by ordinal, the first of ordinal 1.
#[tactic(auto, unfolding(crate::specs::Entries::entries_in))]
fn entries_of<A: Allocator + Copy>(
    alloc: A,
    table: &[u8],
    segments: u16,
) -> Result<Vec<Option<Entry>, A>, NeFault>
    requires { length table.now ≤ 65535 }
    ensures exact { Tells (λ v. v.items) result (entries_in table.now segments) }
    ensures few { IfOk result (λ v. vec_len v ≤ 65535) }
{
    let mut entries = Vec::new(alloc);
    let mut at = 0;
    for _ in 0..table.len() {
        if is_end(table, at) {
            return Ok(entries);
        }
        if is_bad(table, at, entries.len()) {
            return Err(NeFault::BadTable);
        }
        let mut bundle = bundle(alloc, table, segments, table[at + 1], table[at], at + 2)?;
        entries.append(&mut bundle)?;
        at = end_of(table, at);
    }
    Ok(entries)
}

/// The entries of a module by ordinal, the first of ordinal 1.
#[tactic(auto, unfolding(crate::specs::Entries::table_at))]
pub fn entries<A: Allocator + Copy, S: Store>(
    alloc: A,
    store: &mut S,
    name: &[u8],
    ne: u32,
    header: &[u8],
) -> Result<Vec<Option<Entry>, A>, NeFault>
    requires { length header.now ≡ 64 }
    ensures stays { IsLater (S.files store.old) (S.failures store.old) (S.files store.new) (S.failures store.new) }
    ensures device { IfErr result (RoseIf is_ne_device (S.failures store.old) (S.failures store.new)) }
    ensures exact { S.is_honest → Gives (λ v. v.items) (file_of (S.files store.old) name.now)
        (S.failures store.old) (S.failures store.new) result (table_at (file_of (S.files store.old) name.now) ne header.now) }
    ensures few { IfOk result (λ v. vec_len v ≤ 65535) }
{
    let len = word(header, 0x06);
    if len == 0 {
        return Ok(Vec::new(alloc));
    }
    let at = u64::from(ne) + u64::from(word(header, 0x04));
    let bytes = table(alloc, store, name, at, usize::from(len), NeFault::Truncated)?;
    entries_of(alloc, bytes.as_slice(), word(header, 0x1c))
}
