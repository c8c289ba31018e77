//! Module references.
ghost use Rattle.std.specs.Prelude.{◌≡◌, ℕ, ◌<◌, ◌≤◌, ◌+◌, ◌*◌, ◌==◌, [], List, Option, All, IfOk, Ok, Some, length, map, slice_get, IfErr, false};
ghost use Rattle.std.specs.List.{list_any};
ghost use Rattle.w16_store.specs.Files.{file_of};
ghost use Rattle.w16_store.specs.Later.{IsLater, RoseIf};
ghost use Rattle.w16_ne.specs.Reading.{Gives, Tells, is_ne_device};
ghost use Rattle.w16_ne.specs.References.{texts_at, references_at};
ghost use Rattle.w16_ne.specs.Texts.{HasText, text_in, texts_behind};

use crate::fault::NeFault;
use crate::reading::{table, word};
use crate::text_window::{test_text, text_in, texts_behind};
use std::alloc::Allocator;
use std::marker::Model;
use w16_store::Store;

/// The names of the modules that are referred to, in the table's order. References may share texts, so each is kept as an offset.
#[derive(Drop)]
pub struct ReferenceTable<A: Allocator> {
    /// The bytes of the file from the imported names on, as far as an offset leads.
    texts: Vec<u8, A>,
    offsets: Vec<u16, A>,
}

impl<A: Allocator> Model for ReferenceTable<A> {
    ghost use Rattle.std.specs.Prelude.{ℕ, List, All, map};
    ghost use Rattle.w16_ne.specs.Texts.{HasText, text_in};

    ghost Value = { List (List ℕ) };

    ghost view = { λ s. map (text_in s.texts.items) s.offsets.items };

    ghost invariant = { λ s. All (HasText s.texts.items) s.offsets.items };
}

impl<A: Allocator + Copy> ReferenceTable<A> {
    /// No references.
    fn none(alloc: A) -> ReferenceTable<A>
        ensures { result ≡ [] }
    {
        ReferenceTable {
            texts: Vec::new(alloc),
            offsets: Vec::new(alloc),
        }
    }
}

impl<A: Allocator> ReferenceTable<A> {
    /// How many there are.
    pub fn len(&self) -> usize
        ensures { result ≡ length self.now }
    {
        self.offsets.len()
    }

    /// The name of a number, from 0.
    pub fn name(&self, i: usize) -> &[u8]
        requires { i < length self.now }
        ensures { slice_get self.now i ≡ Some result.now }
    {
        text_in(self.texts.as_slice(), self.offsets[i])
    }
}

/// So many offsets, the words of a table, each of a text that is there whole.
#[tactic(auto, unfolding(crate::specs::References::texts_at))]
fn offsets_of<A: Allocator + Copy>(
    alloc: A,
    texts: &[u8],
    table: &[u8],
    count: u16,
) -> Result<Vec<u16, A>, NeFault>
    requires { 2 * count ≤ length table.now }
    ensures exact { (file : Option (List ℕ)) (names : ℕ) → texts_behind file names ≡ Ok texts.now
        → Tells (λ v. map (text_in texts.now) v.items) result (texts_at file names table.now count) }
    ensures inside { IfOk result (λ v. All (HasText texts.now) v.items) }
    ensures own { IfErr result (λ e. is_ne_device e ≡ false) }
{
    let mut offsets = Vec::with_capacity(alloc, usize::from(count))?;
    for i in 0..count {
        let offset = word(table, 2 * usize::from(i));
        test_text(texts, offset, NeFault::Truncated)?;
        offsets.push(offset)?;
    }
    Ok(offsets)
}

/// Whether one of the texts that words lead to is empty.
fn has_empty(texts: &[u8], offsets: &[u16]) -> bool
    requires { All (HasText texts.now) offsets.now }
    ensures { result ≡ list_any (λ text. length text == 0) (map (text_in texts.now) offsets.now) }
{
    for offset in offsets {
        if text_in(texts, *offset).is_empty() {
            return true;
        }
    }
    false
}

/// The names of the modules that are referred to, in the table's order.
#[tactic(auto, unfolding(crate::specs::References::references_at))]
pub fn references<A: Allocator + Copy, S: Store>(
    alloc: A,
    store: &mut S,
    name: &[u8],
    ne: u32,
    header: &[u8],
) -> Result<ReferenceTable<A>, NeFault>
    requires { length header.now ≡ 64 }
    ensures stays { IsLater (S.files store.old) (S.failures store.old) (S.files store.new) (S.failures store.new) }
    ensures device { IfErr result (RoseIf is_ne_device (S.failures store.old) (S.failures store.new)) }
    ensures exact { S.is_honest → Gives (λ names. names) (file_of (S.files store.old) name.now)
        (S.failures store.old) (S.failures store.new) result (references_at (file_of (S.files store.old) name.now) ne header.now) }
{
    let count = word(header, 0x1e);
    if count == 0 {
        return Ok(ReferenceTable::none(alloc));
    }
    let at = u64::from(ne) + u64::from(word(header, 0x28));
    let len = 2 * usize::from(count);
    let words = table(alloc, store, name, at, len, NeFault::Truncated)?;
    let names = u64::from(ne) + u64::from(word(header, 0x2a));
    let texts = texts_behind(alloc, store, name, names)?;
    let offsets = offsets_of(alloc, texts.as_slice(), words.as_slice(), count)?;
    if has_empty(texts.as_slice(), offsets.as_slice()) {
        return Err(NeFault::BadTable);
    }
    Ok(ReferenceTable { texts, offsets })
}
