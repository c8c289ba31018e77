//! The blocks of the resource table.
ghost use Rattle.std.specs.Prelude.{◌≡◌, ℕ, ◌<◌, ◌≤◌, ◌+◌, ◌*◌, Ok, Some, None, All, IfOk, IfErr, IfSome, OnOk, length, nat_le, if◌then◌else◌};
ghost use Rattle.w16_store.specs.Files.{file_of};
ghost use Rattle.w16_store.specs.Later.{IsLater, RoseIf};
ghost use Rattle.w16_ne.specs.Reading.{Gives, Refuses, length_at, word_of, is_ne_device};
ghost use Rattle.w16_ne.specs.Names.{IsPiece};
ghost use Rattle.w16_ne.specs.Resources.{block_at, blocks_from, blocks_at};

use crate::fault::NeFault;
use crate::name_piece::Piece;
use crate::reading::word;
use std::alloc::Allocator;
use w16_store::Store;

/// A block of resources of one type.
#[derive(Clone, Copy, Debug, PartialEq, Eq)]
pub struct Block {
    /// The type word.
    pub kind: u16,
    /// How many resources it has.
    pub count: u16,
    /// The offset of the first in the file; each takes 12 bytes.
    pub at: u64,
}

/// The block of such a head at an offset, or none where it ends past the file, which has so many bytes.
fn inside(head: &[u8], at: u64, len: u64) -> Option<Block>
    requires { length head.now ≡ 8 }
    ensures { result ≡ (if nat_le (at + 8 + 12 * word_of head.now 2) len then Some (record { kind = word_of head.now 0; count = word_of head.now 2; at = at + 8 }) else None) }
{
    let count = word(head, 2);
    let first = at.checked_add(8)?;
    let end = first.checked_add(12 * u64::from(count))?;
    if end > len {
        return None;
    }
    Some(Block {
        kind: word(head, 0),
        count,
        at: first,
    })
}

/// The block at an offset, or none where the table ends, in a file of so many bytes. Where its head may go past the piece, another is read.
#[tactic(auto, unfolding(crate::specs::Resources::block_at))]
fn block_of<A: Allocator + Copy, S: Store>(
    alloc: A,
    store: &mut S,
    name: &[u8],
    len: u64,
    at: u64,
    piece: &mut Piece<A>,
) -> Result<Option<Block>, NeFault>
    requires { at < len }
    ensures stays { IsLater (S.files store.old) (S.failures store.old) (S.files store.new) (S.failures store.new) }
    ensures device { IfErr result (RoseIf is_ne_device (S.failures store.old) (S.failures store.new)) }
    ensures ends { IfOk result (λ found. IfSome found (λ b. b.at + 12 * b.count ≤ len)) }
    ensures exact { S.is_honest → IsPiece (file_of (S.files store.old) name.now) len piece.old → Gives (λ b. b) (file_of (S.files store.old) name.now)
        (S.failures store.old) (S.failures store.new) result (block_at (file_of (S.files store.old) name.now) at) }
    ensures kept { S.is_honest → IsPiece (file_of (S.files store.old) name.now) len piece.old
        → OnOk result (IsPiece (file_of (S.files store.old) name.now) len piece.new) }
{
    let mut kind = [0u8; 2];
    piece.fill(alloc, store, name, len, at, &mut kind)?;
    if word(&kind, 0) == 0 {
        return Ok(None);
    }
    let mut head = [0u8; 8];
    piece.fill(alloc, store, name, len, at, &mut head)?;
    match inside(&head, at, len) {
        Some(block) => Ok(Some(block)),
        None => Err(NeFault::Truncated),
    }
}

/// How many blocks stand from an offset on, in a file of so many bytes.
fn count_of<A: Allocator + Copy, S: Store>(
    alloc: A,
    store: &mut S,
    name: &[u8],
    len: u64,
    at: u64,
) -> Result<usize, NeFault>
    requires { at < len }
    ensures stays { IsLater (S.files store.old) (S.failures store.old) (S.files store.new) (S.failures store.new) }
    ensures device { IfErr result (RoseIf is_ne_device (S.failures store.old) (S.failures store.new)) }
    ensures exact { S.is_honest → length_at (file_of (S.files store.old) name.now) ≡ Ok len →
        IfErr result (λ e. Refuses (file_of (S.files store.old) name.now)
        (S.failures store.old) (S.failures store.new) e (blocks_from (file_of (S.files store.old) name.now) len at)) }
{
    let mut piece = Piece::read(alloc, store, name, len, at)?;
    let mut count = 0usize;
    let mut place = at;
    for _ in 0..len {
        if place >= len {
            return Err(NeFault::Truncated);
        }
        match block_of(alloc, store, name, len, place, &mut piece)? {
            None => return Ok(count),
            Some(found) => {
                // No block that is there ends past the largest offset.
                place = found.at.saturating_add(12 * u64::from(found.count));
                count = count.saturating_add(1);
            }
        }
    }
    Err(NeFault::Truncated)
}

/// The blocks from an offset on, in a file of so many bytes, with room for so many.
fn blocks_before<A: Allocator + Copy, S: Store>(
    alloc: A,
    store: &mut S,
    name: &[u8],
    len: u64,
    at: u64,
    count: usize,
) -> Result<Vec<Block, A>, NeFault>
    requires { at < len }
    ensures stays { IsLater (S.files store.old) (S.failures store.old) (S.files store.new) (S.failures store.new) }
    ensures device { IfErr result (RoseIf is_ne_device (S.failures store.old) (S.failures store.new)) }
    ensures ends { IfOk result (λ v. All (λ b. b.at + 12 * b.count ≤ len) v.items) }
    ensures exact { S.is_honest → length_at (file_of (S.files store.old) name.now) ≡ Ok len →
        Gives (λ v. v.items) (file_of (S.files store.old) name.now)
        (S.failures store.old) (S.failures store.new) result (blocks_from (file_of (S.files store.old) name.now) len at) }
{
    let mut piece = Piece::read(alloc, store, name, len, at)?;
    let mut blocks = Vec::with_capacity(alloc, count)?;
    let mut place = at;
    for _ in 0..len {
        if place >= len {
            return Err(NeFault::Truncated);
        }
        match block_of(alloc, store, name, len, place, &mut piece)? {
            None => return Ok(blocks),
            Some(found) => {
                // No block that is there ends past the largest offset.
                place = found.at.saturating_add(12 * u64::from(found.count));
                blocks.push(found)?;
            }
        }
    }
    Err(NeFault::Truncated)
}

/// The blocks of the table that begins at an offset, after its shift word, in a file of so many bytes. They are gone over twice: room for all of
/// them is taken once their number is known.
#[tactic(auto, unfolding(crate::specs::Resources::blocks_at))]
pub fn blocks<A: Allocator + Copy, S: Store>(
    alloc: A,
    store: &mut S,
    name: &[u8],
    len: u64,
    at: u64,
) -> Result<Vec<Block, A>, NeFault>
    ensures stays { IsLater (S.files store.old) (S.failures store.old) (S.files store.new) (S.failures store.new) }
    ensures device { IfErr result (RoseIf is_ne_device (S.failures store.old) (S.failures store.new)) }
    ensures place { IfOk result (λ _. at < len) }
    ensures ends { IfOk result (λ v. All (λ b. b.at + 12 * b.count ≤ len) v.items) }
    ensures exact { S.is_honest → length_at (file_of (S.files store.old) name.now) ≡ Ok len → Gives (λ v. v.items) (file_of (S.files store.old) name.now)
        (S.failures store.old) (S.failures store.new) result (blocks_at (file_of (S.files store.old) name.now) at) }
{
    if at >= len {
        return Err(NeFault::Truncated);
    }
    let count = count_of(alloc, store, name, len, at)?;
    blocks_before(alloc, store, name, len, at, count)
}
