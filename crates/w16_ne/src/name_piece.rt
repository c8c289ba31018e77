//! Pieces of a file, and entries of a table of names that are found in them.
ghost use Rattle.std.specs.Prelude.{◌≡◌, ℕ, ◌<◌, ◌≤◌, ◌+◌, ◌-◌, length, option_map, slice_index, true, Ok, IfOk, IfSome, OnOk, MatchResult, IfErr};
ghost use Rattle.w16_store.specs.Files.{file_of};
ghost use Rattle.w16_store.specs.Later.{IsLater, RoseIf};
ghost use Rattle.w16_ne.specs.declared.fault.NeFault.TheVariants.{Truncated};
ghost use Rattle.w16_ne.specs.Reading.{Gives, Tells, IsFailure, bytes_or, length_at, is_ne_device};
ghost use Rattle.w16_ne.specs.Names.{name_at, piece_at, found_in, IsPiece};

use crate::fault::NeFault;
use crate::reading::{table, word};
use std::alloc::Allocator;
use w16_store::Store;

/// How many bytes are read at once.
pub const PIECE: u64 = 1024;

/// The most bytes of an entry: a length byte, 255 bytes of text and an ordinal word.
pub const LONGEST: u64 = 258;

/// The bytes of a file from an offset on, up to its end or to `PIECE` of them.
#[derive(Drop)]
pub struct Piece<A: Allocator> {
    pub at: u64,
    pub bytes: Vec<u8, A>,
}

/// An entry in a piece: where its text begins, how long that is, and its ordinal.
#[derive(Clone, Copy)]
pub struct Found {
    pub start: usize,
    pub len: u8,
    pub ordinal: u16,
}

impl<A: Allocator + Copy> Piece<A> {
    /// The piece from an offset on, in a file of so many bytes.
    pub fn read<S: Store>(
        alloc: A,
        store: &mut S,
        name: &[u8],
        len: u64,
        at: u64,
    ) -> Result<Piece<A>, NeFault>
        requires { at < len }
        ensures stays { IsLater (S.files store.old) (S.failures store.old) (S.files store.new) (S.failures store.new) }
        ensures device { IfErr result (RoseIf is_ne_device (S.failures store.old) (S.failures store.new)) }
        ensures place { IfOk result (λ p. p.at ≡ at) }
        ensures exact { S.is_honest → length_at (file_of (S.files store.old) name.now) ≡ Ok len
            → MatchResult result (λ p. piece_at (file_of (S.files store.old) name.now) at ≡ Ok p.bytes.items)
            (λ e. IsFailure (S.failures store.old) (S.failures store.new) e) }
    {
        let count = (len - at).min(PIECE) as usize;
        let bytes = table(alloc, store, name, at, count, NeFault::Truncated)?;
        Ok(Piece { at, bytes })
    }

    /// Whether an entry at an offset lies in the piece, however long it is.
    fn covers(&self, at: u64) -> bool
        ensures { result ≡ true → (self.now.at ≤ at) × (at - self.now.at + LONGEST ≤ PIECE) }
    {
        at >= self.at && at - self.at <= PIECE - LONGEST
    }

    /// Another piece from an offset on, where an entry there may go past this one.
    pub fn cover<S: Store>(
        &mut self,
        alloc: A,
        store: &mut S,
        name: &[u8],
        len: u64,
        at: u64,
    ) -> Result<(), NeFault>
        requires { at < len }
        ensures stays { IsLater (S.files store.old) (S.failures store.old) (S.files store.new) (S.failures store.new) }
        ensures device { IfErr result (RoseIf is_ne_device (S.failures store.old) (S.failures store.new)) }
        ensures covers { OnOk result ((self.new.at ≤ at) × (at - self.new.at + LONGEST ≤ PIECE)) }
        ensures exact { S.is_honest → length_at (file_of (S.files store.old) name.now) ≡ Ok len
            → piece_at (file_of (S.files store.old) name.now) self.old.at ≡ Ok self.old.bytes.items
            → MatchResult result (λ _. piece_at (file_of (S.files store.old) name.now) self.new.at ≡ Ok self.new.bytes.items)
            (λ e. IsFailure (S.failures store.old) (S.failures store.new) e) }
    {
        if self.covers(at) {
            return Ok(());
        }
        *self = Piece::read(alloc, store, name, len, at)?;
        Ok(())
    }

    /// Fills the buffer, which is no longer than an entry of names, with the bytes at an offset of the file.
    pub fn fill<S: Store>(
        &mut self,
        alloc: A,
        store: &mut S,
        name: &[u8],
        len: u64,
        at: u64,
        buf: &mut [u8],
    ) -> Result<(), NeFault>
        requires place { at < len }
        requires some { 0 < length buf.old }
        requires short { length buf.old ≤ LONGEST }
        ensures stays { IsLater (S.files store.old) (S.failures store.old) (S.files store.new) (S.failures store.new) }
        ensures device { IfErr result (RoseIf is_ne_device (S.failures store.old) (S.failures store.new)) }
        ensures exact { S.is_honest → IsPiece (file_of (S.files store.old) name.now) len self.old
            → Gives (λ _. buf.new) (file_of (S.files store.old) name.now)
            (S.failures store.old) (S.failures store.new) result (bytes_or Truncated (file_of (S.files store.old) name.now) at (length buf.old)) }
        ensures kept { S.is_honest → IsPiece (file_of (S.files store.old) name.now) len self.old
            → OnOk result (IsPiece (file_of (S.files store.old) name.now) len self.new) }
    {
        self.cover(alloc, store, name, len, at)?;
        copy(self.bytes.as_slice(), (at - self.at) as usize, buf)
    }
}

/// Fills the buffer with the bytes at an index.
fn copy(bytes: &[u8], from: usize, buf: &mut [u8]) -> Result<(), NeFault>
    ensures { Tells (λ _. buf.new) result (bytes_or Truncated (Some bytes.now) from (length buf.old)) }
{
    if from > bytes.len() || bytes.len() - from < buf.len() {
        return Err(NeFault::Truncated);
    }
    buf.copy_from_slice(&bytes[from..from + buf.len()]);
    Ok(())
}

/// The entry at an index of a piece, or none where the table ends.
#[tactic(auto, unfolding(crate::specs::Names::name_at))]
pub fn found_at(bytes: &[u8], at: usize) -> Result<Option<Found>, NeFault>
    ensures exact { Tells (option_map (found_in bytes.now)) result (name_at (Some bytes.now) at) }
    ensures inside { IfOk result (λ found. IfSome found (λ f. f.start + f.len ≤ length bytes.now)) }
    ensures small { slice_index bytes.now at < 256 }
{
    if at >= bytes.len() {
        return Err(NeFault::Truncated);
    }
    let len = bytes[at];
    if len == 0 {
        return Ok(None);
    }
    let start = at + 1;
    if bytes.len() - start < usize::from(len) + 2 {
        return Err(NeFault::Truncated);
    }
    Ok(Some(Found {
        start,
        len,
        ordinal: word(bytes, start + usize::from(len)),
    }))
}
