//! A module as its file has it.
ghost use Rattle.std.specs.Prelude.{◌≡◌, ℕ, ◌<◌, ◌≤◌, ◌+◌, ◌-◌, ◌^◌, ◌&&◌, List, Some, Ok, IfSome, length, position, slice_get, option_map};
ghost use Rattle.w16_ne.specs.Header.{is_library};
ghost use Rattle.w16_ne.specs.Names.{ordinal_in};
ghost use Rattle.w16_ne.specs.Segments.{IsSized};
ghost use Rattle.w16_ne.specs.Resources.{label_of, entry_of, is_label, resource_count};
ghost use Rattle.w16_ne.specs.Modules.{imported_place, entry_at, listed_resources, resource_at, tables_at};

use crate::entry_table::Entry;
use crate::names::Names;
use crate::ordinals::Ordinals;
use crate::reading::word;
use crate::reference_table::ReferenceTable;
use crate::resource_places::{Resource, ResourceName, ResourceTable};
use crate::segment_table::Segment;
use std::alloc::{Allocator, Global};
use std::marker::Model;

/// What a module's file says.
#[derive(Drop)]
pub struct Module<A: Allocator = Global> {
    pub(crate) place: u32,
    pub(crate) header: [u8; 64],
    pub(crate) name: Vec<u8, A>,
    pub(crate) description: Vec<u8, A>,
    pub(crate) names: Names<A>,
    /// How many of the names are resident.
    pub(crate) resident: u32,
    pub(crate) ordinals: Ordinals<A>,
    pub(crate) segments: Vec<Segment, A>,
    pub(crate) references: ReferenceTable<A>,
    pub(crate) entries: Vec<Option<Entry>, A>,
    pub(crate) resources: ResourceTable<A>,
}

impl<A: Allocator> Model for Module<A> {
    ghost use Rattle.std.specs.Prelude.{◌≡◌, ◌≤◌, length, All};
    ghost use Rattle.w16_ne.specs.Names.{Finds};
    ghost use Rattle.w16_ne.specs.Segments.{IsSized};
    ghost use Rattle.w16_ne.specs.Modules.{Tables};

    ghost Value = { Tables };

    ghost view = { λ s. record {
      place = s.place;
      header = s.header;
      name = s.name.items;
      description = s.description.items;
      names = s.names;
      resident = s.resident;
      segments = s.segments.items;
      references = s.references;
      entries = s.entries.items;
      resources = s.resources;
    } };

    ghost invariant = { λ s. (length s.header ≡ 64) × Finds s.ordinals s.names
        × (length s.segments.items ≤ 253) × All IsSized s.segments.items × (length s.entries.items ≤ 65535) };
}

impl<A: Allocator> Module<A> {
    /// The offset of the header in the file.
    pub fn place(&self) -> u32
        ensures { result ≡ self.now.place }
    {
        self.place
    }

    /// The 64 bytes of the header.
    pub fn header(&self) -> &[u8; 64]
        ensures { result.now ≡ self.now.header }
    {
        &self.header
    }

    /// The module's name.
    pub fn name(&self) -> &[u8]
        ensures { result.now ≡ self.now.name }
    {
        self.name.as_slice()
    }

    /// What the module is described as; empty where nothing is said.
    pub fn description(&self) -> &[u8]
        ensures { result.now ≡ self.now.description }
    {
        self.description.as_slice()
    }

    /// Whether it is a library, and no application.
    pub fn library(&self) -> bool
        ensures { result ≡ is_library self.now.header }
    {
        word(&self.header, 0x0c) & 0x8000 != 0
    }

    /// How many segments there are, at most 253.
    pub fn segment_count(&self) -> usize
        ensures count { result ≡ length self.now.segments }
        ensures few { result ≤ 253 }
    {
        self.segments.len()
    }

    /// A segment by its number, from 1.
    pub fn segment(&self, number: usize) -> Segment
        requires first { 0 < number }
        requires last { number ≤ length self.now.segments }
        ensures found { slice_get self.now.segments (number - 1) ≡ Some result }
        ensures sized { IsSized result }
    {
        self.segments[number - 1]
    }

    /// How many ordinals the entry table has, at most 65,535.
    pub fn entry_count(&self) -> usize
        ensures count { result ≡ length self.now.entries }
        ensures few { result ≤ 65535 }
    {
        self.entries.len()
    }

    /// Where an ordinal leads; none where it has no entry.
    pub fn entry(&self, ordinal: u16) -> Option<Entry>
        ensures { result ≡ entry_at self.now.entries ordinal }
    {
        match ordinal.checked_sub(1) {
            None => None,
            Some(i) => self.entries.get(usize::from(i)).copied().flatten(),
        }
    }

    /// The ordinal of a name, 0 where it has none. Case doesn't count, and of equal names the first does.
    pub fn ordinal_of(&self, name: &[u8]) -> u16
        ensures { result ≡ ordinal_in self.now.names name.now }
    {
        self.names.ordinal_of(&self.ordinals, name)
    }

    /// How many names of entries there are.
    pub fn name_count(&self) -> usize
        ensures { result ≡ length self.now.names }
    {
        self.names.len()
    }

    /// How many of them are resident: those that come first.
    pub fn resident_count(&self) -> usize
        ensures { result ≡ self.now.resident }
    {
        self.resident as usize
    }

    /// A name of an entry by its number from 0, in the order of the tables: its text, as the file has it, and its ordinal.
    pub fn entry_name(&self, i: usize) -> (&[u8], u16)
        requires { i < length self.now.names }
        ensures found { slice_get self.now.names i ≡ Some (result.0.now, result.1) }
    {
        self.names.name(i)
    }

    /// Where the imported names begin in the file. A reference, and a relocation record that imports by name, has an offset from there.
    pub fn imported_names(&self) -> u64
        ensures place { result ≡ imported_place self.now }
        ensures small { result < 2 ^ 33 }
    {
        u64::from(self.place) + u64::from(word(&self.header, 0x2a))
    }

    /// How many modules it refers to.
    pub fn reference_count(&self) -> usize
        ensures { result ≡ length self.now.references }
    {
        self.references.len()
    }

    /// The name of a module that it refers to, by its number from 1.
    pub fn reference(&self, number: usize) -> &[u8]
        requires first { 0 < number }
        requires last { number ≤ length self.now.references }
        ensures { slice_get self.now.references (number - 1) ≡ Some result.now }
    {
        self.references.name(number - 1)
    }

    /// A resource by its place in the table, from 1, with its type; none where there are fewer. In the file that the module is read from, one that
    /// has bytes begins before the end.
    pub fn resource(&self, place: usize) -> Option<(ResourceName<'_>, Resource<'_>)>
        ensures found { option_map (λ found. (label_of found.0, entry_of found.1)) result ≡ resource_at self.now.resources place }
        ensures inside { (file : List ℕ) → tables_at (Some file) ≡ Ok self.now → IfSome result (λ found. 0 < found.1.len → found.1.place < length file) }
    {
        self.resources.resource(place)
    }

    /// `FindResource`: the place, from 1, of the first resource of a type and an id, each compared as a number or, in any case of letters, as a text;
    /// none where there is none. It goes over the types and over the resources of those types that match, once.
    pub fn place_of(&self, kind: ResourceName<'_>, id: ResourceName<'_>) -> Option<u16>
        ensures { result ≡ option_map (λ i. i + 1) (position (λ r. is_label r.1.id (label_of id.entry) && is_label r.0 (label_of kind.entry)) (listed_resources self.now.resources)) }
    {
        self.resources.place_of(kind, id)
    }

    /// How many resources there are, at most 65,535.
    pub fn resource_count(&self) -> usize
        ensures count { result ≡ resource_count self.now.resources }
        ensures few { result ≤ 65535 }
    {
        self.resources.len()
    }
}
