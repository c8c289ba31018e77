//! The resident names.
ghost use Rattle.std.specs.Prelude.{◌≡◌, ℕ, ◌<◌, ◌≤◌, ◌+◌, ◌^◌, List, length, option_map, Ok, [], IfOk, IfSome, IfErr, OnOk};
ghost use Rattle.w16_store.specs.Files.{file_of};
ghost use Rattle.w16_store.specs.Later.{IsLater, RoseIf};
ghost use Rattle.w16_ne.specs.Reading.{Gives, GivesSuch, Refuses, length_at, is_ne_device};
ghost use Rattle.w16_ne.specs.Listing.{IsListing};
ghost use Rattle.w16_ne.specs.Names.{Entry, found_in, name_at, names_from, names_at, piece_at, resident_at};

use crate::fault::NeFault;
use crate::listing::Listing;
use crate::name_piece::{Found, Piece, found_at};
use crate::names::Names;
use crate::reading::{file_len, part, word};
use std::alloc::Allocator;
use w16_store::Store;

/// The entry at an offset of a file of so many bytes, or none where the table ends. Where it may go past the piece, another is read.
fn name_of<A: Allocator + Copy, S: Store>(
    alloc: A,
    store: &mut S,
    name: &[u8],
    len: u64,
    at: u64,
    piece: &mut Piece<A>,
) -> Result<Option<Found>, NeFault>
    requires { at < len }
    ensures stays { IsLater (S.files store.old) (S.failures store.old) (S.files store.new) (S.failures store.new) }
    ensures device { IfErr result (RoseIf is_ne_device (S.failures store.old) (S.failures store.new)) }
    ensures exact { S.is_honest → length_at (file_of (S.files store.old) name.now) ≡ Ok len
        → piece_at (file_of (S.files store.old) name.now) piece.old.at ≡ Ok piece.old.bytes.items →
        Gives (option_map (found_in piece.new.bytes.items)) (file_of (S.files store.old) name.now)
        (S.failures store.old) (S.failures store.new) result (name_at (file_of (S.files store.old) name.now) at) }
    ensures kept { S.is_honest → length_at (file_of (S.files store.old) name.now) ≡ Ok len
        → piece_at (file_of (S.files store.old) name.now) piece.old.at ≡ Ok piece.old.bytes.items →
        OnOk result (piece_at (file_of (S.files store.old) name.now) piece.new.at ≡ Ok piece.new.bytes.items) }
    ensures inside { IfOk result (λ found. IfSome found (λ f. f.start + f.len ≤ length piece.new.bytes.items)) }
{
    piece.cover(alloc, store, name, len, at)?;
    found_at(piece.bytes.as_slice(), (at - piece.at) as usize)
}

/// How many names a table has, and how many bytes their texts have.
#[derive(Clone, Copy)]
struct Extent {
    names: usize,
    texts: usize,
}

/// How many names stand from an offset on, in a file of so many bytes.
fn extent_of<A: Allocator + Copy, S: Store>(
    alloc: A,
    store: &mut S,
    name: &[u8],
    len: u64,
    at: u64,
) -> Result<Extent, NeFault>
    requires { at < len }
    ensures stays { IsLater (S.files store.old) (S.failures store.old) (S.files store.new) (S.failures store.new) }
    ensures device { IfErr result (RoseIf is_ne_device (S.failures store.old) (S.failures store.new)) }
    ensures exact { S.is_honest → length_at (file_of (S.files store.old) name.now) ≡ Ok len →
        IfErr result (λ e. Refuses (file_of (S.files store.old) name.now)
        (S.failures store.old) (S.failures store.new) e (names_from (file_of (S.files store.old) name.now) len at)) }
{
    let mut piece = Piece::read(alloc, store, name, len, at)?;
    let mut names = 0usize;
    let mut texts = 0usize;
    let mut place = at;
    for _ in 0..len {
        if place >= len {
            return Err(NeFault::Truncated);
        }
        match name_of(alloc, store, name, len, place, &mut piece)? {
            None => return Ok(Extent { names, texts }),
            Some(found) => {
                // No entry that is there ends past the largest offset.
                place = place.saturating_add(u64::from(found.len) + 3);
                names = names.saturating_add(1);
                texts = texts.saturating_add(usize::from(found.len));
            }
        }
    }
    Err(NeFault::Truncated)
}

/// Adds the names from an offset on, in a file of so many bytes.
fn add_names<A: Allocator + Copy, S: Store>(
    alloc: A,
    store: &mut S,
    name: &[u8],
    len: u64,
    at: u64,
    listing: &mut Listing<A>,
) -> Result<(), NeFault>
    requires { at < len }
    ensures stays { IsLater (S.files store.old) (S.failures store.old) (S.files store.new) (S.failures store.new) }
    ensures device { IfErr result (RoseIf is_ne_device (S.failures store.old) (S.failures store.new)) }
    ensures exact { (before : List Entry) → S.is_honest → length_at (file_of (S.files store.old) name.now) ≡ Ok len → IsListing before [] listing.old →
        GivesSuch (λ _ listed. IsListing before listed listing.new) (file_of (S.files store.old) name.now)
        (S.failures store.old) (S.failures store.new) result (names_from (file_of (S.files store.old) name.now) len at) }
{
    let mut piece = Piece::read(alloc, store, name, len, at)?;
    let mut place = at;
    for _ in 0..len {
        if place >= len {
            return Err(NeFault::Truncated);
        }
        match name_of(alloc, store, name, len, place, &mut piece)? {
            None => return Ok(()),
            Some(found) => {
                // No entry that is there ends past the largest offset.
                place = place.saturating_add(u64::from(found.len) + 3);
                let text = part(piece.bytes.as_slice(), found.start, usize::from(found.len));
                listing.add(text, found.ordinal)?;
            }
        }
    }
    Err(NeFault::Truncated)
}

/// The names from an offset on, and room for those of so many more bytes. They are gone over twice: room for all of them is taken once their number
/// is known.
#[tactic(auto, unfolding(crate::specs::Names::names_at))]
fn listing_at<A: Allocator + Copy, S: Store>(
    alloc: A,
    store: &mut S,
    name: &[u8],
    at: u64,
    others: usize,
) -> Result<Listing<A>, NeFault>
    ensures stays { IsLater (S.files store.old) (S.failures store.old) (S.files store.new) (S.failures store.new) }
    ensures device { IfErr result (RoseIf is_ne_device (S.failures store.old) (S.failures store.new)) }
    ensures exact { S.is_honest → GivesSuch (λ l listed. IsListing [] listed l) (file_of (S.files store.old) name.now)
        (S.failures store.old) (S.failures store.new) result (names_at (file_of (S.files store.old) name.now) at) }
{
    let len = file_len(store, name)?;
    if at >= len {
        return Err(NeFault::Truncated);
    }
    let extent = extent_of(alloc, store, name, len, at)?;
    let count = extent.names.saturating_add(others / 4);
    let names = Names::with_room(alloc, count, extent.texts.saturating_add(others))?;
    let mut listing = Listing::new(alloc, names);
    add_names(alloc, store, name, len, at, &mut listing)?;
    Ok(listing)
}

/// The resident names, of which there is at least one.
#[tactic(auto, unfolding(crate::specs::Names::resident_at))]
pub fn resident<A: Allocator + Copy, S: Store>(
    alloc: A,
    store: &mut S,
    name: &[u8],
    ne: u32,
    header: &[u8],
) -> Result<Listing<A>, NeFault>
    requires { length header.now ≡ 64 }
    ensures stays { IsLater (S.files store.old) (S.failures store.old) (S.files store.new) (S.failures store.new) }
    ensures device { IfErr result (RoseIf is_ne_device (S.failures store.old) (S.failures store.new)) }
    ensures exact { S.is_honest → GivesSuch (λ l listed. IsListing [] listed l) (file_of (S.files store.old) name.now)
        (S.failures store.old) (S.failures store.new) result (resident_at (file_of (S.files store.old) name.now) ne header.now) }
{
    let at = u64::from(ne) + u64::from(word(header, 0x26));
    let others = usize::from(word(header, 0x20));
    let listing = listing_at(alloc, store, name, at, others)?;
    if listing.is_empty() {
        return Err(NeFault::BadTable);
    }
    Ok(listing)
}
