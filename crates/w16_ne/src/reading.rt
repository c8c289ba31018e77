//! Parts of a file, read through a store.
ghost use Rattle.std.specs.Prelude.{◌≡◌, ℕ, ◌<◌, ◌≤◌, ◌+◌, ◌==◌, ◌||◌, false, length, take, drop, nat_le, slice_index, IfOk, IfErr};
ghost use Rattle.w16_ne.specs.declared.fault.NeFault.TheVariants.{Truncated};
ghost use Rattle.w16_store.specs.Files.{file_of};
ghost use Rattle.w16_store.specs.Later.{IsLater, RoseIf};
ghost use Rattle.w16_ne.specs.Reading.{Gives, IsOfFile, bytes_or, length_at, reaches, word_of, dword_of, is_ne_device};

use crate::fault::NeFault;
use byteorder::{ByteOrder, LittleEndian};
use std::alloc::Allocator;
use w16_store::{Store, StoreFault};

/// Fills the buffer, or answers the fault `short` where the file ends before.
pub fn read_or<S: Store>(
    store: &mut S,
    name: &[u8],
    at: u64,
    buf: &mut [u8],
    short: NeFault,
) -> Result<(), NeFault>
    requires { IsOfFile short }
    ensures stays { IsLater (S.files store.old) (S.failures store.old) (S.files store.new) (S.failures store.new) }
    ensures device { IfErr result (RoseIf is_ne_device (S.failures store.old) (S.failures store.new)) }
    ensures exact { S.is_honest → Gives (λ _. buf.new) (file_of (S.files store.old) name.now)
        (S.failures store.old) (S.failures store.new) result (bytes_or short (file_of (S.files store.old) name.now) at (length buf.old)) }
{
    match store.read_at(name, at, buf) {
        Ok(()) => Ok(()),
        Err(StoreFault::Short) => Err(short),
        Err(fault) => Err(NeFault::Store(fault)),
    }
}

/// So many bytes at an offset.
pub fn table<A: Allocator + Copy, S: Store>(
    alloc: A,
    store: &mut S,
    name: &[u8],
    at: u64,
    len: usize,
    short: NeFault,
) -> Result<Vec<u8, A>, NeFault>
    requires { IsOfFile short }
    ensures stays { IsLater (S.files store.old) (S.failures store.old) (S.files store.new) (S.failures store.new) }
    ensures device { IfErr result (RoseIf is_ne_device (S.failures store.old) (S.failures store.new)) }
    ensures exact { S.is_honest → Gives (λ v. v.items) (file_of (S.files store.old) name.now)
        (S.failures store.old) (S.failures store.new) result (bytes_or short (file_of (S.files store.old) name.now) at len) }
    ensures len { IfOk result (λ v. length v.items ≡ len) }
{
    let mut bytes = vec![in alloc; 0u8; len]?;
    read_or(store, name, at, bytes.as_mut_slice(), short)?;
    Ok(bytes)
}

/// Tests that the file has so many bytes.
pub fn reaches<S: Store>(store: &mut S, name: &[u8], end: u64) -> Result<(), NeFault>
    requires { 0 < end }
    ensures stays { IsLater (S.files store.old) (S.failures store.old) (S.files store.new) (S.failures store.new) }
    ensures device { IfErr result (RoseIf is_ne_device (S.failures store.old) (S.failures store.new)) }
    ensures exact { S.is_honest → Gives (λ _. tt) (file_of (S.files store.old) name.now)
        (S.failures store.old) (S.failures store.new) result (reaches (file_of (S.files store.old) name.now) end) }
{
    let mut last = [0u8; 1];
    read_or(store, name, end - 1, &mut last, NeFault::Truncated)
}

/// The file's length.
pub fn file_len<S: Store>(store: &mut S, name: &[u8]) -> Result<u64, NeFault>
    ensures stays { IsLater (S.files store.old) (S.failures store.old) (S.files store.new) (S.failures store.new) }
    ensures device { IfErr result (RoseIf is_ne_device (S.failures store.old) (S.failures store.new)) }
    ensures exact { S.is_honest → Gives (λ n. n) (file_of (S.files store.old) name.now)
        (S.failures store.old) (S.failures store.new) result (length_at (file_of (S.files store.old) name.now)) }
{
    match store.len_of(name) {
        Ok(len) => Ok(len),
        Err(e) => Err(NeFault::Store(e)),
    }
}

/// Whether a table of bytes ends at an index, at its own end or at a byte of 0.
pub fn is_end(table: &[u8], at: usize) -> bool
    ensures end { result ≡ (nat_le (length table.now) at || slice_index table.now at == 0) }
    ensures more { result ≡ false → at < length table.now }
{
    at >= table.len() || table[at] == 0
}

/// So many bytes at an index.
pub fn part(bytes: &[u8], start: usize, len: usize) -> &[u8]
    requires { start + len ≤ length bytes.now }
    ensures value { result.now ≡ take len (drop start bytes.now) }
    ensures len { length result.now ≡ len }
{
    &bytes[start..start + len]
}

/// A word at an index.
pub fn word(bytes: &[u8], at: usize) -> u16
    requires { at + 1 < length bytes.now }
    ensures { result ≡ word_of bytes.now at }
{
    LittleEndian::read_u16(&bytes[at..at + 2])
}

/// A double word at an index.
pub fn dword(bytes: &[u8], at: usize) -> u32
    requires { at + 3 < length bytes.now }
    ensures { result ≡ dword_of bytes.now at }
{
    LittleEndian::read_u32(&bytes[at..at + 4])
}
