//! Numbered places, with the entry that stands at each.
ghost use Rattle.std.specs.Prelude.{◌≡◌, ◌<◌, ◌==◌, ℕ, List, IfOk, IsFalse, None, Some, count_by, false, is_some, length, option_copied, option_map, replicate, slice_index_or, slice_set, unwrap_or};
ghost use Rattle.std.specs.List.{list_any};
ghost use Rattle.w16_store.specs.Names as names;
ghost use Rattle.w16_loading.specs.Modules.{name_of};
ghost use Rattle.w16_loader.specs.Entries.{named_of};
ghost use Rattle.w16_loader.specs.Registry.{listed, first_named};
ghost use Rattle.w16_loader.specs.Tags as tags;

use crate::entry::Entry;
use crate::tagged::name_tag;
use slab::Slab;
use std::alloc::{AllocError, Allocator};
use std::marker::Model;
use w16_store::is_named;

/// What stands at each of some numbered places. The entries lie in a slab, under keys of its own; a table has the key of each place, and
/// another the tag of its entry's name.
#[derive(Drop)]
pub struct Places<A: Allocator> {
    entries: Slab<Entry<A>, A>,
    keys: Vec<Option<usize>, A>,
    tags: Vec<u32, A>,
}

impl<A: Allocator> Model for Places<A> {
    ghost use Rattle.std.specs.Prelude.{List, Option};
    ghost use Rattle.w16_loader.specs.declared.entry.Entry.{Entry};
    ghost use Rattle.w16_loader.specs.{Places.placed, Places.IsKeyed, Tags.AreTags};

    ghost Value = { List (Option (Entry A)) };

    ghost view = { λ p. placed p.entries p.keys.items };

    ghost invariant = { λ p. IsKeyed p.entries p.keys.items × AreTags (placed p.entries p.keys.items) p.tags.items };
}

/// The key of a place; none where it isn't taken or isn't there.
fn key_at(keys: &[Option<usize>], place: usize) -> Option<usize>
    ensures { result ≡ slice_index_or keys.now place None }
{
    keys.get(place).copied().unwrap_or(None)
}

/// Whether a tag is among some. It looks at all, several at once.
fn is_among(tags: &[u32], tag: u32) -> bool
    ensures { result ≡ list_any (λ t. t == tag) tags.now }
{
    let mut is_there = false;
    for other in tags {
        is_there |= *other == tag;
    }
    is_there
}

impl<A: Allocator> Places<A> {
    /// How many places there are.
    pub fn len(&self) -> usize
        ensures { result ≡ length self.now }
    {
        self.keys.len()
    }

    /// How many of them are taken.
    pub fn taken(&self) -> usize
        ensures { result ≡ count_by is_some self.now }
    {
        let _ = &self.keys;
        self.entries.len()
    }

    /// What stands at a place; none where it isn't taken or isn't there.
    pub fn get(&self, place: usize) -> Option<&Entry<A>>
        ensures { option_copied result ≡ slice_index_or self.now place None }
    {
        self.entries.get(key_at(self.keys.as_slice(), place)?)
    }

    /// Whether something may have a name of this tag.
    pub fn has_tag(&self, tag: u32) -> bool
        ensures { IsFalse result → (name : List ℕ) → tag ≡ tags.name_tag name → first_named (listed self.now) name ≡ None }
    {
        is_among(self.tags.as_slice(), tag)
    }

    /// Whether what stands at a place has this name, whose tag is given.
    pub fn is_named_at(&self, place: usize, tag: u32, name: &[u8]) -> bool
        requires inside { place < length self.now }
        requires tag { tag ≡ tags.name_tag name.now }
        ensures { result ≡ unwrap_or (option_map (λ e. names.is_named (name_of (named_of e)) name.now) (slice_index_or self.now place None)) false }
    {
        if self.tags[place] != tag {
            return false;
        }
        match self.get(place) {
            None => false,
            Some(entry) => is_named(entry.name(), name),
        }
    }

    /// Takes away what stands at a place; none where it isn't taken or isn't there.
    pub fn take(&mut self, place: usize) -> Option<Entry<A>>
        ensures taken { result ≡ slice_index_or self.old place None }
        ensures left { self.new ≡ slice_set self.old place None }
    {
        let key = key_at(self.keys.as_slice(), place)?;
        self.keys[place] = None;
        self.entries.try_remove(key)
    }

    /// Puts an entry at a place, and drops what stood there. It takes no memory.
    pub fn put(&mut self, place: usize, entry: Entry<A>)
        requires { place < length self.old }
        ensures { self.new ≡ slice_set self.old place (Some entry) }
    {
        self.take(place);
        self.tags[place] = name_tag(entry.name());
        let key = self.entries.insert_reserved(entry);
        self.keys[place] = Some(key);
    }

    /// What its memory is taken from.
    pub fn allocator(&self) -> &A {
        self.keys.allocator()
    }
}

impl<A: Allocator + Clone> Places<A> {
    /// That many places, none of them taken. An error is that memory ran out.
    pub fn untaken(alloc: A, places: usize) -> Result<Places<A>, AllocError>
        ensures { IfOk result (λ made. made ≡ replicate places None) }
    {
        let keys = Vec::from_elem(alloc.clone()?, None, places)?;
        let tags = Vec::from_elem(alloc.clone()?, 0, places)?;
        let entries = Slab::with_capacity(alloc, places)?;
        Ok(Places {
            entries,
            keys,
            tags,
        })
    }
}
