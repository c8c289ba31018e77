//! Passes over a table of what handles name.
ghost use Rattle.std.specs.Prelude.{◌≡◌, ◌≤◌, IfNone, OnSome, None, length, option_map, slice_index_or, slice_set};
ghost use Rattle.w16_loading.specs.Modules.{importers_among, module_in};
ghost use Rattle.w16_loading.specs.Owner.{segment_among};
ghost use Rattle.w16_loader.specs.Entries.{named_of};
ghost use Rattle.w16_loader.specs.Registry.{listed, first_named, owner_in};
ghost use Rattle.w16_loader.specs.Tags.{name_tag};

use crate::entry::{Entry, Loaded};
use crate::places::Places;
use std::alloc::Allocator;

/// A segment of a module: the module's handle, and the segment's number from 1.
#[derive(Clone, Copy, Debug, PartialEq, Eq)]
pub struct SegmentOf {
    pub handle: u16,
    pub number: usize,
}

/// Takes a module out of its place; none, and nothing changes, where none is there.
pub fn take_module<A: Allocator>(entries: &mut Places<A>, place: usize) -> Option<Box<Loaded<A>, A>>
    ensures found { option_map (λ loaded. loaded.value) result ≡ module_in (option_map named_of (slice_index_or entries.old place None)) }
    ensures gone { OnSome result (entries.new ≡ slice_set entries.old place None) }
    ensures none { IfNone result (entries.new ≡ entries.old) }
{
    match entries.take(place) {
        None => None,
        Some(Entry::Loaded(loaded)) => Some(loaded),
        Some(other) => {
            entries.put(place, other);
            None
        }
    }
}

/// The first place whose name is this one, whose tag is given.
pub fn first_named<A: Allocator>(entries: &Places<A>, tag: u32, name: &[u8]) -> Option<u16>
    requires few { length entries.now ≤ 65536 }
    requires tag { tag ≡ name_tag name.now }
    ensures { result ≡ first_named (listed entries.now) name.now }
{
    if !entries.has_tag(tag) {
        return None;
    }
    for handle in 0..entries.len() {
        if entries.is_named_at(handle, tag, name) {
            return Some(handle as u16);
        }
    }
    None
}

/// How many modules import what a handle names; a module doesn't count itself.
pub fn importers<A: Allocator>(entries: &Places<A>, handle: u16) -> usize
    ensures many { result ≡ importers_among (listed entries.now) handle }
    ensures few { result ≤ length entries.now }
{
    let mut importers = 0;
    for other in 0..entries.len() {
        if let Some(entry) = entries.get(other)
            && other != usize::from(handle)
            && entry.imports(handle)
        {
            importers += 1;
        }
    }
    importers
}

/// The segment whose object is in a slot.
pub fn segment_of<A: Allocator>(entries: &Places<A>, slot: u16) -> Option<SegmentOf>
    requires { length entries.now ≤ 65536 }
    ensures { owner_in result ≡ segment_among (listed entries.now) slot }
{
    for handle in 0..entries.len() {
        if let Some(entry) = entries.get(handle)
            && let Some(number) = entry.number_of(slot)
        {
            return Some(SegmentOf {
                handle: handle as u16,
                number,
            });
        }
    }
    None
}
