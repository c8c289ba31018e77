//! What a module handle names.
ghost use Rattle.std.specs.Prelude.{◌≡◌, ◌+◌, ◌-◌, ◌<◌, ◌≤◌, ◌==◌, ℕ, [], Some, nat_lt, map, All, IsTrue, IsFalse, IfSome, length, option_map, position, slice_index_or};
ghost use Rattle.w16_loading.specs.declared.TheConstants as loading_constants;
ghost use Rattle.w16_loading.specs.File.{entry_at, entry_named};
ghost use Rattle.w16_loading.specs.Modules as loading;
ghost use Rattle.w16_loading.specs.Owner.{number_in};
ghost use Rattle.w16_format.specs.Tables.{entry_in, tables_in};
ghost use Rattle.w16_format.specs.Data.{far_of};
ghost use Rattle.w16_loader.specs.Entries.{named_of};

use std::alloc::{Allocator, Global};
use std::marker::Model;
use w16_loading::MOST_USES;
use w16_model::names::selector_of;
use w16_ne::Module;
use w16_reloc::Far;

/// The selector of a constant's address.
const CONSTANT: u16 = 0xffff;

/// A module that is loaded.
#[derive(Drop)]
pub struct Loaded<A: Allocator = Global> {
    module: Module<A>,
    file: Vec<u8, A>,
    uses: u32,
    slots: Vec<u16, A>,
    values: Vec<Vec<Far, A>, A>,
    imports: Vec<u16, A>,
}

impl<A: Allocator> Model for Loaded<A> {
    ghost use Rattle.std.specs.Prelude.{◌≤◌, ◌<◌, map, All};
    ghost use Rattle.w16_loading.specs.declared.TheConstants.{MOST_USES};
    ghost use Rattle.w16_loading.specs.Modules as loading;
    ghost use Rattle.w16_loading.specs.Codes.{module_code};
    ghost use Rattle.w16_format.specs.Tables.{tables_in};
    ghost use Rattle.w16_format.specs.Data.{far_of};

    ghost Value = { loading.Module };

    ghost coded = { module_code };

    ghost view = { λ s. record {
      file = s.file.items;
      tables = tables_in s.module;
      uses = s.uses;
      slots = s.slots.items;
      values = map (λ v. map far_of v.items) s.values.items;
      imports = s.imports.items;
    } };

    ghost invariant = { λ s. (s.uses ≤ MOST_USES) × All (λ q. q < 8192) s.slots.items };
}

impl<A: Allocator> Loaded<A> {
    /// A module with the name of its file, that many explicit uses, at most 65,000, and for each segment the slot of its object, below 8,192,
    /// and the values of its relocation records, and for each reference the handle of the module that it means.
    pub fn new(
        file: Vec<u8, A>,
        module_file: Module<A>,
        uses: u32,
        slots: Vec<u16, A>,
        values: Vec<Vec<Far, A>, A>,
        imports: Vec<u16, A>,
    ) -> Loaded<A>
        requires few { uses ≤ loading_constants.MOST_USES }
        requires slots { All (λ q. q < 8192) slots.items }
        ensures { result ≡ record {
          file = file.items;
          tables = tables_in module_file;
          uses = uses;
          slots = slots.items;
          values = map (λ v. map far_of v.items) values.items;
          imports = imports.items;
        } }
    {
        Loaded {
            module: module_file,
            file,
            uses,
            slots,
            values,
            imports,
        }
    }

    /// The name of the file that it came from.
    pub fn file(&self) -> &[u8]
        ensures { result.now ≡ self.now.file }
    {
        self.file.as_slice()
    }

    /// What its file says.
    pub fn module(&self) -> &Module<A>
        ensures { tables_in result.now ≡ self.now.tables }
    {
        &self.module
    }

    /// Its explicit uses.
    pub fn uses(&self) -> u32
        ensures uses { result ≡ self.now.uses }
        ensures few { result ≤ loading_constants.MOST_USES }
    {
        self.uses
    }

    /// The slots of its segments' objects, in the order of the segments.
    pub fn slots(&self) -> &[u16]
        ensures slots { result.now ≡ self.now.slots }
        ensures few { All (λ q. q < 8192) result.now }
    {
        self.slots.as_slice()
    }

    /// The values of a segment's relocation records, by its number from 1; none where there is no such segment.
    pub fn values(&self, number: usize) -> &[Far]
        ensures { map far_of result.now ≡ slice_index_or self.now.values (number - 1) [] }
    {
        match self.values.get(number.saturating_sub(1)) {
            None => &[],
            Some(values) => values.as_slice(),
        }
    }

    /// The handles of the modules that its references mean, in the order of the references.
    pub fn imports(&self) -> &[u16]
        ensures { result.now ≡ self.now.imports }
    {
        self.imports.as_slice()
    }

    /// One explicit use more, if it has fewer than 65,000; whether it had.
    pub fn use_again(&mut self) -> bool
        ensures room { result ≡ nat_lt self.old.uses loading_constants.MOST_USES }
        ensures more { IsTrue result → self.new ≡ record self.old { uses = self.old.uses + 1 } }
        ensures full { IsFalse result → self.new ≡ self.old }
    {
        if self.uses < MOST_USES {
            self.uses += 1;
            return true;
        }
        false
    }

    /// One explicit use less, if it has one.
    pub fn end_use(&mut self)
        ensures { self.new ≡ record self.old { uses = self.old.uses - 1 } }
    {
        self.uses = self.uses.saturating_sub(1);
    }

    /// Where an ordinal of its entry table leads; nowhere where it has no entry.
    pub fn address_by_ordinal(&self, ordinal: u16) -> Far
        ensures { far_of result ≡ loading.address_of self.now.slots (entry_at self.now.tables ordinal) }
    {
        address_of(self.slots.as_slice(), self.module.entry(ordinal))
    }

    /// Where a name of an entry leads; nowhere where it has no entry of that name. Case doesn't count, and of equal names the first does.
    pub fn address_by_name(&self, name: &[u8]) -> Far
        ensures { far_of result ≡ loading.address_of self.now.slots (entry_named self.now.tables name.now) }
    {
        let ordinal = self.module.ordinal_of(name);
        address_of(self.slots.as_slice(), self.module.entry(ordinal))
    }

    /// An address in one of its segments, by the segment's number from 1.
    pub fn address_in_segment(&self, number: u8, offset: u16) -> Far
        ensures { far_of result ≡ loading.in_segment self.now.slots number offset }
    {
        let entry = w16_ne::Entry::InSegment {
            segment: number,
            offset,
        };
        address_of(self.slots.as_slice(), Some(entry))
    }

    /// It gets these values of its relocation records, for each segment those of its records, whatever it had.
    pub fn set_values(&mut self, values: Vec<Vec<Far, A>, A>)
        ensures { self.new ≡ record self.old { values = map (λ v. map far_of v.items) values.items } }
    {
        self.values = values;
    }
}

/// Where what has no address leads.
pub const NOWHERE: Far = Far {
    selector: 0,
    offset: 0,
};

/// The address of an entry of a module whose segments' objects have these slots.
fn address_of(slots: &[u16], entry: Option<w16_ne::Entry>) -> Far
    requires { All (λ q. q < 8192) slots.now }
    ensures { far_of result ≡ loading.address_of slots.now (option_map entry_in entry) }
{
    match entry {
        None => NOWHERE,
        Some(w16_ne::Entry::Constant(value)) => Far {
            selector: CONSTANT,
            offset: value,
        },
        Some(w16_ne::Entry::InSegment { segment, offset }) => Far {
            selector: selector_of(slot_at(slots, segment)),
            offset,
        },
    }
}

/// The slot of a segment's object, by its number from 1; 0 where there are fewer.
fn slot_at(slots: &[u16], number: u8) -> u16
    requires { All (λ q. q < 8192) slots.now }
    ensures slot { result ≡ slice_index_or slots.now (number - 1) 0 }
    ensures few { result < 8192 }
{
    let place = usize::from(number).saturating_sub(1);
    slots.get(place).copied().unwrap_or(0)
}

/// The place of a slot among others, from 0.
fn place_of(slots: &[u16], slot: u16) -> Option<usize>
    ensures place { result ≡ position (λ q. q == slot) slots.now }
    ensures inside { IfSome result (λ i. i < length slots.now) }
{
    slots.iter().position(|q| *q == slot)
}

/// The number, from 1, of the segment whose object is in a slot.
fn number_of(slots: &[u16], slot: u16) -> Option<usize>
    ensures { result ≡ option_map (λ i. i + 1) (position (λ q. q == slot) slots.now) }
{
    let i = place_of(slots, slot)?;
    Some(i + 1)
}

/// What a module handle names.
#[derive(Drop)]
pub enum Entry<A: Allocator = Global> {
    Loaded(Box<Loaded<A>, A>),
    /// A built-in has a name alone.
    BuiltIn(Vec<u8, A>),
}

impl<A: Allocator> Entry<A> {
    /// Its name as a module.
    pub fn name(&self) -> &[u8]
        ensures { result.now ≡ loading.name_of (named_of self.now) }
    {
        match self {
            Entry::Loaded(loaded) => loaded.module().name(),
            Entry::BuiltIn(name) => name.as_slice(),
        }
    }

    /// Its explicit uses; a built-in has none.
    pub fn uses(&self) -> u32
        ensures uses { (others : ℕ) → loading.usage_with (Some (named_of self.now)) others ≡ result + others }
        ensures few { result ≤ loading_constants.MOST_USES }
    {
        match self {
            Entry::Loaded(loaded) => loaded.uses(),
            Entry::BuiltIn(_) => 0,
        }
    }

    /// Where an ordinal leads, as what this handle names; a built-in's leads to its handle.
    pub fn address_by_ordinal(&self, handle: u16, ordinal: u16) -> Far
        ensures { far_of result ≡ loading.address_by_ordinal handle (Some (named_of self.now)) ordinal }
    {
        match self {
            Entry::Loaded(loaded) => loaded.address_by_ordinal(ordinal),
            Entry::BuiltIn(_) if ordinal == 0 => NOWHERE,
            Entry::BuiltIn(_) => Far {
                selector: handle,
                offset: ordinal,
            },
        }
    }

    /// Where a name leads; a built-in has none.
    pub fn address_by_name(&self, name: &[u8]) -> Far
        ensures { far_of result ≡ loading.address_by_name (Some (named_of self.now)) name.now }
    {
        match self {
            Entry::Loaded(loaded) => loaded.address_by_name(name),
            Entry::BuiltIn(_) => NOWHERE,
        }
    }

    /// Whether it is a module that imports what a handle names.
    pub fn imports(&self, handle: u16) -> bool
        ensures { result ≡ loading.imports (named_of self.now) handle }
    {
        match self {
            Entry::Loaded(loaded) => loaded.imports().contains(&handle),
            Entry::BuiltIn(_) => false,
        }
    }

    /// The number, from 1, of its segment whose object is in a slot; none where it has none.
    pub fn number_of(&self, slot: u16) -> Option<usize>
        ensures { result ≡ number_in (named_of self.now) slot }
    {
        match self {
            Entry::Loaded(loaded) => number_of(loaded.slots(), slot),
            Entry::BuiltIn(_) => None,
        }
    }
}
