//! A segment's data and records, read from its file.
ghost use Rattle.std.specs.Prelude.{◌≡◌, ℕ, ◌<◌, ◌≤◌, ◌+◌, ◌*◌, ◌^◌, length, List, take, drop, Some, Ok, vec_len, vec_capacity, IfOk, OnOk, IfErr};
ghost use Rattle.w16_store.specs.Files.{file_of};
ghost use Rattle.w16_store.specs.Later.{IsLater, RoseIf};
ghost use Rattle.w16_ne.specs.Segments.{records_at};
ghost use Rattle.w16_reloc.specs.Check.{AreMarks};
ghost use Rattle.w16_reloc.specs.Segments.{Answers, LiesIn, data_of, records_of, is_reloc_device};

use crate::fault::RelocFault;
use crate::reading::{count_at, len_of, read};
use std::alloc::Allocator;
use w16_ne::Segment;
use w16_store::Store;

/// Makes a vector so long, within its room. Bytes that it gains are 0.
fn set_len<A: Allocator>(room: &mut Vec<u8, A>, len: usize)
    requires { len ≤ vec_capacity room.old }
    ensures len { vec_len room.new ≡ len }
    ensures capacity { vec_capacity room.old ≤ vec_capacity room.new }
{
    if room.resize(len, 0).is_err() {
        unreachable!();
    }
}

/// Reads so many bytes of the file, within the vector's room.
pub fn read_bytes<A: Allocator, S: Store>(
    store: &mut S,
    name: &[u8],
    at: u64,
    len: usize,
    room: &mut Vec<u8, A>,
) -> Result<(), RelocFault>
    requires { len ≤ vec_capacity room.old }
    ensures stays { IsLater (S.files store.old) (S.failures store.old) (S.files store.new) (S.failures store.new) }
    ensures device { IfErr result (RoseIf is_reloc_device (S.failures store.old) (S.failures store.new)) }
    ensures len { vec_len room.new ≡ len }
    ensures capacity { vec_capacity room.old ≤ vec_capacity room.new }
    ensures exact { (file : List ℕ) → S.is_honest → file_of (S.files store.old) name.now ≡ Some file → (0 < len → at + len ≤ length file)
        → Answers (λ _. room.new.items) (S.failures store.old) (S.failures store.new) result (Ok (take len (drop at file))) }
{
    set_len(room, len);
    if len == 0 {
        return Ok(());
    }
    read(store, name, at, room.as_mut_slice())
}

/// Reads so many bytes of the file from an offset on, or those up to its end where it comes first, within the vector's room.
pub fn read_front<A: Allocator, S: Store>(
    store: &mut S,
    name: &[u8],
    at: u64,
    most: usize,
    room: &mut Vec<u8, A>,
) -> Result<(), RelocFault>
    requires { most ≤ vec_capacity room.old }
    ensures stays { IsLater (S.files store.old) (S.failures store.old) (S.files store.new) (S.failures store.new) }
    ensures device { IfErr result (RoseIf is_reloc_device (S.failures store.old) (S.failures store.new)) }
    ensures len { OnOk result (vec_len room.new ≤ most) }
    ensures capacity { vec_capacity room.old ≤ vec_capacity room.new }
    ensures exact { (file : List ℕ) → S.is_honest → file_of (S.files store.old) name.now ≡ Some file
        → Answers (λ _. room.new.items) (S.failures store.old) (S.failures store.new) result (Ok (take most (drop at file))) }
{
    let file_len = len_of(store, name)?;
    let count = file_len.saturating_sub(at).min(most as u64) as usize;
    read_bytes(store, name, at, count, room)
}

/// Reads the records after the data that end at an offset, and tells how many there are.
fn read_table<A: Allocator, S: Store>(
    store: &mut S,
    name: &[u8],
    flags: u16,
    end: u64,
    table: &mut Vec<u8, A>,
) -> Result<u16, RelocFault>
    requires room { 524280 ≤ vec_capacity table.old }
    requires small { end < 2 ^ 48 }
    ensures stays { IsLater (S.files store.old) (S.failures store.old) (S.files store.new) (S.failures store.new) }
    ensures device { IfErr result (RoseIf is_reloc_device (S.failures store.old) (S.failures store.new)) }
    ensures len { IfOk result (λ n. vec_len table.new ≡ 8 * n) }
    ensures capacity { vec_capacity table.old ≤ vec_capacity table.new }
    ensures exact { (file : List ℕ) (count : ℕ) → S.is_honest → file_of (S.files store.old) name.now ≡ Some file → records_at (Some file) flags end ≡ Ok count
        → Answers (λ n. n) (S.failures store.old) (S.failures store.new) result (Ok count) }
    ensures records { (file : List ℕ) (count : ℕ) → S.is_honest → file_of (S.files store.old) name.now ≡ Some file → records_at (Some file) flags end ≡ Ok count
        → OnOk result (table.new.items ≡ take (8 * count) (drop (end + 2) file)) }
{
    let count = count_at(store, name, flags, end)?;
    read_bytes(store, name, end + 2, 8 * count as usize, table)?;
    Ok(count)
}

/// Reads a segment's data and records, and tells how many records there are.
pub fn read_segment<A: Allocator, S: Store>(
    store: &mut S,
    name: &[u8],
    segment: &Segment,
    bytes: &mut Vec<u8, A>,
    table: &mut Vec<u8, A>,
) -> Result<u16, RelocFault>
    requires len { segment.now.len ≤ vec_capacity bytes.old }
    requires room { 524280 ≤ vec_capacity table.old }
    ensures stays { IsLater (S.files store.old) (S.failures store.old) (S.files store.new) (S.failures store.new) }
    ensures device { IfErr result (RoseIf is_reloc_device (S.failures store.old) (S.failures store.new)) }
    ensures len { vec_len bytes.new ≡ segment.now.len }
    ensures many { IfOk result (λ n. 8 * n ≤ vec_len table.new) }
    ensures bytes { vec_capacity bytes.old ≤ vec_capacity bytes.new }
    ensures table { vec_capacity table.old ≤ vec_capacity table.new }
    ensures exact { (file : List ℕ) → S.is_honest → file_of (S.files store.old) name.now ≡ Some file → LiesIn file segment.now
        → Answers (λ n. n) (S.failures store.old) (S.failures store.new) result (Ok segment.now.records) }
    ensures held { (file : List ℕ) → S.is_honest → file_of (S.files store.old) name.now ≡ Some file → LiesIn file segment.now
        → OnOk result ((bytes.new.items ≡ data_of file segment.now) × (table.new.items ≡ records_of file segment.now)) }
{
    let end = segment.place as u64 + segment.len as u64;
    read_bytes(
        store,
        name,
        segment.place as u64,
        segment.len as usize,
        bytes,
    )?;
    if segment.len == 0 {
        table.clear();
        return Ok(0);
    }
    read_table(store, name, segment.flags.0, end, table)
}
