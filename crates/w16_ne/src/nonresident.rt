//! The nonresident names.
ghost use Rattle.std.specs.Prelude.{◌≡◌, ℕ, ◌≤◌, ◌+◌, List, [], length, IfErr, false};
ghost use Rattle.w16_store.specs.Files.{file_of};
ghost use Rattle.w16_store.specs.Later.{IsLater, RoseIf};
ghost use Rattle.w16_ne.specs.Reading.{GivesSuch, TellsSuch, is_ne_device};
ghost use Rattle.w16_ne.specs.Listing.{IsListing};
ghost use Rattle.w16_ne.specs.Names.{Entry, table_names, nonresident_at};

use crate::fault::NeFault;
use crate::listing::Listing;
use crate::reading::{dword, is_end, part, table, word};
use std::alloc::Allocator;
use w16_store::Store;

/// Adds the names of a table that is there whole.
#[tactic(auto, unfolding(crate::specs::Names::table_names))]
fn add_names<A: Allocator + Copy>(table: &[u8], listing: &mut Listing<A>) -> Result<(), NeFault>
    requires { length table.now ≤ 65535 }
    ensures own { IfErr result (λ e. is_ne_device e ≡ false) }
    ensures exact { (before : List Entry) → IsListing before [] listing.old → TellsSuch (λ _ listed. IsListing before listed listing.new) result (table_names table.now) }
{
    let mut at = 0;
    for _ in 0..table.len() {
        if is_end(table, at) {
            return Ok(());
        }
        let len = usize::from(table[at]);
        let end = at + 3 + len;
        if end > table.len() {
            return Err(NeFault::BadTable);
        }
        listing.add(part(table, at + 1, len), word(table, at + 1 + len))?;
        at = end;
    }
    Ok(())
}

/// Adds the nonresident names: the module's description, and names of entries. There may be none.
#[tactic(auto, unfolding(crate::specs::Names::nonresident_at))]
pub fn add_nonresident<A: Allocator + Copy, S: Store>(
    alloc: A,
    store: &mut S,
    name: &[u8],
    header: &[u8],
    listing: &mut Listing<A>,
) -> Result<(), NeFault>
    requires { length header.now ≡ 64 }
    ensures stays { IsLater (S.files store.old) (S.failures store.old) (S.files store.new) (S.failures store.new) }
    ensures device { IfErr result (RoseIf is_ne_device (S.failures store.old) (S.failures store.new)) }
    ensures exact { (before : List Entry) → S.is_honest → IsListing before [] listing.old →
        GivesSuch (λ _ listed. IsListing before listed listing.new) (file_of (S.files store.old) name.now)
        (S.failures store.old) (S.failures store.new) result (nonresident_at (file_of (S.files store.old) name.now) header.now) }
{
    let len = word(header, 0x20);
    if len == 0 {
        return Ok(());
    }
    let at = u64::from(dword(header, 0x2c));
    let bytes = table(alloc, store, name, at, usize::from(len), NeFault::Truncated)?;
    add_names(bytes.as_slice(), listing)
}
