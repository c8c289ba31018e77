//! Which module handle names what.
ghost use Rattle.std.specs.Prelude.{◌≡◌, ℕ, ◌+◌, ◌<◌, ◌≤◌, if◌then◌else◌, map, option_map, IfOk, OnOk, OnErr, OnSome, IfSome, IfNone, None, true, false, length, take};
ghost use Rattle.std.specs.FinMap as finmap;
ghost use Rattle.w16_loading.specs.Modules as loading;
ghost use Rattle.w16_loading.specs.Modules.{LoadingWorld, IsFreeModule, free_modules, handle_named, module_at};
ghost use Rattle.w16_loading.specs.Modules.Named.{Loaded as loaded_as};
ghost use Rattle.w16_loading.specs.Families.{GivesBuiltIn, built_in};
ghost use Rattle.w16_loading.specs.Free as free;
ghost use Rattle.w16_loading.specs.Load as load;
ghost use Rattle.w16_loading.specs.Load.Answer.{Says};
ghost use Rattle.w16_loading.specs.Owner.{segment_among};
ghost use Rattle.w16_format.specs.Data.{far_of};
ghost use Rattle.w16_loader.specs.Entries.{named_of};
ghost use Rattle.w16_loader.specs.Naming.{free_handles};
ghost use Rattle.w16_loader.specs.Registry.{in_world, owner_in, IsLowest};
ghost use Rattle.w16_loader.specs.Binding.{with_values};
ghost use Rattle.w16_loader.specs.Tags as tags;

use crate::entry::{Entry, Loaded, NOWHERE};
use crate::places::Places;
use crate::table::SegmentOf;
use crate::tagged::name_tag;
use crate::{counts, table};
use std::alloc::{AllocError, Allocator, Global};
use std::marker::Model;
use w16_loading::{FIRST_MODULE, MOST_MODULES};
use w16_reloc::Far;

/// The numbers up to the last module handle.
pub(crate) const PLACES: usize = (FIRST_MODULE + MOST_MODULES) as usize;

/// Modules and built-ins by module handle, at most 200, from 33 on. Its value is the finite map of them.
///
/// They stand in a slab, under keys of its own, and a table has the key of each handle. There is room for all of them from the start: no call but the
/// constructor and `builtin` takes memory. For each handle the modules that import it are counted, as modules come and go.
#[derive(Drop)]
pub struct Registry<A: Allocator = Global> {
    counts: Vec<u16, A>,
    entries: Places<A>,
}

impl<A: Allocator> Model for Registry<A> {
    ghost use Rattle.std.specs.Coded.{coded_ℕ};
    ghost use Rattle.std.specs.FinMap as finmap;
    ghost use Rattle.w16_loading.specs.Modules.{Modules};
    ghost use Rattle.w16_loading.specs.Codes.{named_code};
    ghost use Rattle.w16_loader.specs.Registry.{registered, AreCounts, IsTable};

    ghost Value = { Modules };

    ghost coded = { finmap.code coded_ℕ named_code };

    ghost view = { λ r. registered r.entries };

    ghost invariant = { λ r. IsTable r.entries × AreCounts r.entries r.counts.items };
}

impl<A: Allocator> Registry<A> {
    /// What a handle names; none where it is bad.
    pub fn get(&self, handle: u16) -> Option<&Entry<A>>
        ensures { option_map (λ e. named_of e.now) result ≡ finmap.get self.now handle }
    {
        self.entries.get(usize::from(handle))
    }

    /// The module of a handle; none where it is a built-in's, or bad.
    pub fn module(&self, handle: u16) -> Option<&Loaded<A>>
        ensures { option_map (λ m. m.now) result ≡ module_at self.now handle }
    {
        match self.get(handle) {
            Some(Entry::Loaded(loaded)) => Some(loaded),
            _ => None,
        }
    }

    /// How many more modules and built-ins there may be.
    pub fn free_count(&self) -> usize
        ensures { result ≡ free_modules self.now }
    {
        usize::from(MOST_MODULES) - self.entries.taken()
    }

    /// The lowest free handle from a number on; none where all are taken.
    pub fn free_from(&self, from: u16) -> Option<u16>
        ensures found { IfSome result (λ handle. IsFreeModule self.now handle) }
        ensures after { IfSome result (λ handle. from ≤ handle) }
        ensures lowest { IfSome result (λ handle. (lower : ℕ) → from ≤ lower → lower < handle → IsFreeModule self.now lower → ⊥) }
        ensures none { IfNone result ((handle : ℕ) → from ≤ handle → IsFreeModule self.now handle → ⊥) }
    {
        for handle in from.max(FIRST_MODULE)..FIRST_MODULE + MOST_MODULES {
            if self.get(handle).is_none() {
                return Some(handle);
            }
        }
        None
    }

    /// `GetModuleHandle`: the handle of the module or built-in of a name, in any case of letters; none where there is none.
    pub fn handle_of(&self, name: &[u8]) -> Option<u16>
        ensures { result ≡ handle_named self.now name.now }
    {
        self.handle_tagged(name_tag(name), name)
    }

    /// The handle of a name whose tag is given.
    pub(crate) fn handle_tagged(&self, tag: u32, name: &[u8]) -> Option<u16>
        requires { tag ≡ tags.name_tag name.now }
        ensures { result ≡ handle_named self.now name.now }
    {
        table::first_named(&self.entries, tag, name)
    }

    /// How many modules import what a handle names; a module doesn't count itself.
    pub fn importers(&self, handle: u16) -> usize
        ensures many { result ≡ loading.importers self.now handle }
        ensures few { result ≤ FIRST_MODULE + MOST_MODULES }
    {
        let place = handle as usize;
        if place >= self.counts.len() {
            return table::importers(&self.entries, handle);
        }
        usize::from(self.counts[place])
    }

    /// `GetModuleUsage`: explicit uses and importers together; 0 of a bad handle.
    pub fn usage(&self, handle: u16) -> u16
        ensures { result ≡ loading.usage self.now handle }
    {
        match self.get(handle) {
            None => 0,
            Some(entry) => (entry.uses() as usize + self.importers(handle)) as u16,
        }
    }

    /// Whether it is a module that nobody uses: it has no explicit use, and no other imports it.
    fn is_idle(&self, handle: u16) -> bool
        ensures { result ≡ loading.is_idle self.now handle }
    {
        self.module(handle).is_some() && self.usage(handle) == 0
    }

    /// A module that nobody uses: it has no explicit use, and no other imports it. None where each is used. It goes over the handles once.
    pub fn first_idle(&self) -> Option<u16>
        ensures found { IfSome result (λ handle. loading.is_idle self.now handle ≡ true) }
        ensures none { IfNone result ((handle : ℕ) → loading.is_idle self.now handle ≡ false) }
    {
        let _ = &self.entries;
        for handle in 0..FIRST_MODULE + MOST_MODULES {
            if self.is_idle(handle) {
                return Some(handle);
            }
        }
        None
    }

    /// `GetProcAddress` by ordinal: nowhere of a bad handle, and where there is no entry; a built-in's ordinals lead to its handle.
    pub fn proc_address_by_ordinal(&self, handle: u16, ordinal: u16) -> Far
        ensures { far_of result ≡ loading.address_at (finmap.get self.now) handle ordinal }
    {
        match self.get(handle) {
            None => NOWHERE,
            Some(entry) => entry.address_by_ordinal(handle, ordinal),
        }
    }

    /// `GetProcAddress` by name, in any case of letters: nowhere of a bad handle, and where no entry has the name.
    pub fn proc_address_by_name(&self, handle: u16, name: &[u8]) -> Far
        ensures { far_of result ≡ loading.address_named (finmap.get self.now) handle name.now }
    {
        match self.get(handle) {
            None => NOWHERE,
            Some(entry) => entry.address_by_name(name),
        }
    }

    /// The segment whose object is in a slot; none where no module has it.
    pub fn segment_of(&self, slot: u16) -> Option<SegmentOf>
        ensures { owner_in result ≡ segment_among (finmap.entries self.now) slot }
    {
        table::segment_of(&self.entries, slot)
    }

    /// A free handle names something from now on.
    fn put(&mut self, handle: u16, entry: Entry<A>)
        requires { IsFreeModule self.old handle }
        ensures { self.new ≡ finmap.insert self.old handle (named_of entry) }
    {
        let place = handle as usize;
        counts::recount(&mut self.counts, place, &[], counts::imports_of(&entry));
        self.entries.put(place, entry);
    }

    /// A free handle names a module from now on. It takes no memory.
    pub fn insert(&mut self, handle: u16, loaded: Box<Loaded<A>, A>)
        requires { IsFreeModule self.old handle }
        ensures { self.new ≡ finmap.insert self.old handle (loaded_as loaded.value) }
    {
        self.put(handle, Entry::Loaded(loaded));
    }

    /// Takes a module away, whose handle is free from now on; none, and nothing changes, where the handle is a built-in's, or bad.
    pub fn remove(&mut self, handle: u16) -> Option<Box<Loaded<A>, A>>
        ensures found { option_map (λ loaded. loaded.value) result ≡ module_at self.old handle }
        ensures gone { OnSome result (self.new ≡ finmap.remove self.old handle) }
        ensures inside { OnSome result ((FIRST_MODULE ≤ handle) × (handle < FIRST_MODULE + MOST_MODULES)) }
        ensures none { IfNone result (self.new ≡ self.old) }
    {
        let place = handle as usize;
        match table::take_module(&mut self.entries, place) {
            None => None,
            Some(loaded) => {
                counts::recount(&mut self.counts, place, loaded.imports(), &[]);
                Some(loaded)
            }
        }
    }

    /// One explicit use more of what a handle names, as a load of it asks; whether it had fewer than 65,000. A built-in counts none.
    pub fn use_again(&mut self, handle: u16) -> bool
        ensures { (rest : LoadingWorld) → load.used_again false (in_world rest self.old) handle (finmap.get self.old handle) ≡ (Says (if result then handle else 0), in_world rest self.new) }
    {
        let place = handle as usize;
        match table::take_module(&mut self.entries, place) {
            None => true,
            Some(mut loaded) => {
                let had_room = loaded.use_again();
                self.entries.put(place, Entry::Loaded(loaded));
                had_room
            }
        }
    }

    /// One explicit use less of a module, if it has one. The module stays, whether it is still used or not.
    pub fn end_use(&mut self, handle: u16)
        ensures { (rest : LoadingWorld) → in_world rest self.new ≡ free.used_less (in_world rest self.old) handle }
    {
        let place = handle as usize;
        match table::take_module(&mut self.entries, place) {
            None => {}
            Some(mut loaded) => {
                loaded.end_use();
                self.entries.put(place, Entry::Loaded(loaded));
            }
        }
    }

    /// Gives a module the values of its relocation records, for each segment those of its records; a handle that names none changes nothing.
    pub fn set_values(&mut self, handle: u16, values: Vec<Vec<Far, A>, A>)
        ensures { self.new ≡ with_values self.old handle (map (λ v. map far_of v.items) values.items) }
    {
        let place = handle as usize;
        match table::take_module(&mut self.entries, place) {
            None => {}
            Some(mut loaded) => {
                loaded.set_values(values);
                self.entries.put(place, Entry::Loaded(loaded));
            }
        }
    }

    /// What its memory is taken from.
    pub(crate) fn allocator(&self) -> &A {
        self.entries.allocator()
    }

    /// The handle if it is a built-in's, else 0.
    fn built_in(&self, handle: u16) -> u16
        ensures { result ≡ built_in (finmap.get self.now handle) handle }
    {
        match self.get(handle) {
            Some(Entry::BuiltIn(_)) => handle,
            _ => 0,
        }
    }

    /// The lowest free handles, that many, the lowest first; all of them where there are fewer. An error is that memory ran out.
    pub fn free_handles(&self, alloc: A, count: usize) -> Result<Vec<u16, A>, AllocError>
        ensures lowest { IfOk result (λ made. made.items ≡ take count (free_handles self.now)) }
        ensures many { IfOk result (λ made. count ≤ free_modules self.now → length made.items ≡ count) }
    {
        let mut handles = Vec::with_capacity(alloc, count.min(self.entries.len()))?;
        for handle in FIRST_MODULE..FIRST_MODULE + MOST_MODULES {
            if handles.len() < count && self.get(handle).is_none() {
                handles.push(handle)?;
            }
        }
        Ok(handles)
    }
}

impl<A: Allocator + Clone> Registry<A> {
    /// Nothing is loaded, and there is no built-in. An error is that memory ran out.
    pub fn new(alloc: A) -> Result<Registry<A>, AllocError>
        ensures { IfOk result (λ made. made ≡ finmap.empty) }
    {
        let counts = Vec::from_elem(alloc.clone()?, 0, PLACES)?;
        let entries = Places::untaken(alloc, PLACES)?;
        Ok(Registry { counts, entries })
    }

    /// A copy of a name, in memory of the allocator from which the registry has its own. An error is that memory ran out.
    pub(crate) fn copy_of(&self, name: &[u8]) -> Result<Vec<u8, A>, AllocError>
        ensures { IfOk result (λ copy. copy.items ≡ name.now) }
    {
        let alloc = self.entries.allocator().clone()?;
        Vec::from_slice(alloc, name)
    }

    /// `Builtin`: the handle of the built-in of a name, the same for the same name in any case of letters; a new one has the lowest free handle.
    /// 0 where a loaded module has the name, or where no handle is free. An error is that memory ran out, and changes nothing.
    pub fn builtin(&mut self, name: &[u8]) -> Result<u16, AllocError>
        ensures step { IfOk result (λ handle. (rest : LoadingWorld) → GivesBuiltIn (in_world rest self.old) name.now handle (in_world rest self.new)) }
        ensures lowest { IfOk result (λ handle. handle_named self.old name.now ≡ None → IsLowest self.old handle) }
        ensures err { OnErr result (self.new ≡ self.old) }
    {
        if let Some(handle) = self.handle_of(name) {
            return Ok(self.built_in(handle));
        }
        let Some(handle) = self.free_from(FIRST_MODULE) else {
            return Ok(0);
        };
        let name = self.copy_of(name)?;
        self.put(handle, Entry::BuiltIn(name));
        Ok(handle)
    }
}
