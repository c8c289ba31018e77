//! The segment table.
ghost use Rattle.std.specs.Prelude.{◌≡◌, ℕ, ◌%◌, ◌<◌, ◌≤◌, ◌+◌, ◌*◌, ◌^◌, length, max, All, IfOk, vec_len, IfErr};
ghost use Rattle.w16_store.specs.Files.{file_of};
ghost use Rattle.w16_store.specs.Later.{IsLater, RoseIf};
ghost use Rattle.w16_ne.specs.Reading.{Gives, is_ne_device};
ghost use Rattle.w16_ne.specs.Header.{shift_of, segment_count};
ghost use Rattle.w16_ne.specs.Segments.{IsSized, or_64k, rounded, records_at, data_at, segment_at, entries_at, segments_at};

use crate::fault::NeFault;
use crate::flags::SegmentFlags;
use crate::head::shift;
use crate::reading::{reaches, read_or, table, word};
use std::alloc::Allocator;
use w16_store::Store;

/// The most bytes of a segment's object.
pub const LARGEST_SEGMENT: u32 = 65_536;

/// The bytes that the size of a segment's object is a multiple of.
pub const SEGMENT_UNIT: u32 = 32;

/// A segment of a module.
#[derive(Clone, Copy, Debug, PartialEq, Eq)]
pub struct Segment {
    /// The offset of its data in the file; 0 where it has none.
    pub place: u32,
    /// The bytes of data in the file, up to 65,536.
    pub len: u32,
    pub flags: SegmentFlags,
    /// The bytes of its object, a multiple of 32 from 32 to 65,536.
    pub size: u32,
    /// How many relocation records stand after the data.
    pub records: u16,
}

fn full_if_zero(n: u16) -> u32
    ensures value { result ≡ or_64k n }
    ensures some { 0 < result }
    ensures small { result ≤ LARGEST_SEGMENT }
{
    match n {
        0 => 65536,
        n => u32::from(n),
    }
}

/// The bytes of an object for so many bytes of data, and at least so many.
fn size_of(len: u32, least: u32) -> u32
    requires len { len ≤ LARGEST_SEGMENT }
    requires some { 0 < least }
    requires least { least ≤ LARGEST_SEGMENT }
    ensures value { result ≡ rounded (max len least) }
    ensures room { len ≤ result }
    ensures some { SEGMENT_UNIT ≤ result }
    ensures small { result ≤ LARGEST_SEGMENT }
    ensures whole { result % SEGMENT_UNIT ≡ 0 }
{
    (len.max(least) + 31) / SEGMENT_UNIT * SEGMENT_UNIT
}

/// The bytes of a unit.
pub fn unit(shift: u16) -> u32
    requires { shift ≤ 15 }
    ensures value { result ≡ 2 ^ shift }
    ensures bound { result ≤ 32768 }
{
    1 << shift
}

#[tactic(auto, unfolding(crate::specs::Segments::records_at))]
fn records<S: Store>(store: &mut S, name: &[u8], flags: u16, end: u64) -> Result<u16, NeFault>
    requires { end < 2 ^ 48 }
    ensures stays { IsLater (S.files store.old) (S.failures store.old) (S.files store.new) (S.failures store.new) }
    ensures device { IfErr result (RoseIf is_ne_device (S.failures store.old) (S.failures store.new)) }
    ensures exact { S.is_honest → Gives (λ n. n) (file_of (S.files store.old) name.now)
        (S.failures store.old) (S.failures store.new) result (records_at (file_of (S.files store.old) name.now) flags end) }
{
    if flags & 0x100 == 0 {
        return Ok(0);
    }
    let mut count = [0u8; 2];
    read_or(store, name, end, &mut count, NeFault::Truncated)?;
    let count = word(&count, 0);
    reaches(store, name, end + 2 + 8 * u64::from(count))?;
    Ok(count)
}

#[tactic(auto, unfolding(crate::specs::Segments::data_at))]
fn data<S: Store>(
    store: &mut S,
    name: &[u8],
    place: u32,
    len: u32,
    flags: u16,
    least: u32,
) -> Result<Segment, NeFault>
    requires len { 0 < len }
    requires small { len ≤ LARGEST_SEGMENT }
    requires some { 0 < least }
    requires least { least ≤ LARGEST_SEGMENT }
    ensures stays { IsLater (S.files store.old) (S.failures store.old) (S.files store.new) (S.failures store.new) }
    ensures device { IfErr result (RoseIf is_ne_device (S.failures store.old) (S.failures store.new)) }
    ensures exact { S.is_honest → Gives (λ s. s) (file_of (S.files store.old) name.now)
        (S.failures store.old) (S.failures store.new) result (data_at (file_of (S.files store.old) name.now) place len flags least) }
    ensures sized { IfOk result IsSized }
{
    let end = u64::from(place) + u64::from(len);
    reaches(store, name, end)?;
    let records = records(store, name, flags, end)?;
    Ok(Segment {
        place,
        len,
        flags: SegmentFlags(flags),
        size: size_of(len, least),
        records,
    })
}

#[tactic(auto, unfolding(crate::specs::Segments::segment_at))]
fn entry<S: Store>(
    store: &mut S,
    name: &[u8],
    shift: u16,
    table: &[u8],
    at: usize,
) -> Result<Segment, NeFault>
    requires shift { shift ≤ 15 }
    requires inside { at + 7 < length table.now }
    ensures stays { IsLater (S.files store.old) (S.failures store.old) (S.files store.new) (S.failures store.new) }
    ensures device { IfErr result (RoseIf is_ne_device (S.failures store.old) (S.failures store.new)) }
    ensures exact { S.is_honest → Gives (λ s. s) (file_of (S.files store.old) name.now)
        (S.failures store.old) (S.failures store.new) result (segment_at (file_of (S.files store.old) name.now) shift table.now at) }
    ensures sized { IfOk result IsSized }
{
    let sector = word(table, at);
    let len = full_if_zero(word(table, at + 2));
    let flags = word(table, at + 4);
    let least = full_if_zero(word(table, at + 6));
    if flags & 8 != 0 {
        return Err(NeFault::Unsupported);
    }
    if sector == 0 {
        return Ok(Segment {
            place: 0,
            len: 0,
            flags: SegmentFlags(flags),
            size: size_of(0, least),
            records: 0,
        });
    }
    data(
        store,
        name,
        u32::from(sector) * unit(shift),
        len,
        flags,
        least,
    )
}

#[tactic(auto, unfolding(crate::specs::Segments::entries_at))]
fn entries<A: Allocator + Copy, S: Store>(
    alloc: A,
    store: &mut S,
    name: &[u8],
    shift: u16,
    table: &[u8],
    count: u16,
) -> Result<Vec<Segment, A>, NeFault>
    requires shift { shift ≤ 15 }
    requires inside { 8 * count ≤ length table.now }
    ensures stays { IsLater (S.files store.old) (S.failures store.old) (S.files store.new) (S.failures store.new) }
    ensures device { IfErr result (RoseIf is_ne_device (S.failures store.old) (S.failures store.new)) }
    ensures exact { S.is_honest → Gives (λ v. v.items) (file_of (S.files store.old) name.now)
        (S.failures store.old) (S.failures store.new) result (entries_at (file_of (S.files store.old) name.now) shift table.now count) }
    ensures count { IfOk result (λ v. vec_len v ≡ count) }
    ensures sized { IfOk result (λ v. All IsSized v.items) }
{
    let mut segments = Vec::new(alloc);
    for i in 0..count {
        let segment = entry(store, name, shift, table, 8 * usize::from(i))?;
        segments.push(segment)?;
    }
    Ok(segments)
}

/// The segments of the table.
#[tactic(auto, unfolding(crate::specs::Segments::segments_at))]
pub fn segments<A: Allocator + Copy, S: Store>(
    alloc: A,
    store: &mut S,
    name: &[u8],
    ne: u32,
    header: &[u8],
) -> Result<Vec<Segment, A>, NeFault>
    requires len { length header.now ≡ 64 }
    requires few { segment_count header.now ≤ 253 }
    requires shift { shift_of header.now ≤ 15 }
    ensures stays { IsLater (S.files store.old) (S.failures store.old) (S.files store.new) (S.failures store.new) }
    ensures device { IfErr result (RoseIf is_ne_device (S.failures store.old) (S.failures store.new)) }
    ensures exact { S.is_honest → Gives (λ v. v.items) (file_of (S.files store.old) name.now)
        (S.failures store.old) (S.failures store.new) result (segments_at (file_of (S.files store.old) name.now) ne header.now) }
    ensures few { IfOk result (λ v. vec_len v ≤ 253) }
    ensures sized { IfOk result (λ v. All IsSized v.items) }
{
    let count = word(header, 0x1c);
    if count == 0 {
        return Ok(Vec::new(alloc));
    }
    let at = u64::from(ne) + u64::from(word(header, 0x22));
    let table = table(
        alloc,
        store,
        name,
        at,
        8 * usize::from(count),
        NeFault::Truncated,
    )?;
    entries(alloc, store, name, shift(header), table.as_slice(), count)
}
