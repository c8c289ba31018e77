//! Which slot's object is a resource that is loaded.
ghost use Rattle.std.specs.Prelude.{◌≡◌, ℕ, ◌<◌, ◌≤◌, ◌==◌, ◌&&◌, None, IfOk, IfSome, find, is_some, option_map};
ghost use Rattle.std.specs.FinMap as finmap;
ghost use Rattle.w16_resource.specs.Loads.{load_in};

use crate::listing::{Load, first_of, reach};
use std::alloc::{AllocError, Allocator, Global};
use std::marker::Model;

/// The slots that objects may have are below it.
const PLACES: usize = 8_192;

/// The resources that are loaded, by the slots of their objects. Its value is the finite map of their loads.
///
/// No call but the constructor takes memory of the host.
#[derive(Drop)]
pub struct Resources<A: Allocator = Global> {
    /// By slot, up to the highest that ever had one.
    loads: Vec<Option<Load>, A>,
}

impl<A: Allocator> Model for Resources<A> {
    ghost use Rattle.std.specs.Prelude.{◌≤◌, length, vec_capacity};
    ghost use Rattle.std.specs.Coded.{coded_ℕ};
    ghost use Rattle.std.specs.Ordering.{nat_cmp};
    ghost use Rattle.std.specs.FinMap as finmap;
    ghost use Rattle.std.specs.FinMap.{FinMap};
    ghost use Rattle.w16_loading.specs.Modules.{Load};
    ghost use Rattle.w16_loading.specs.Codes.{load_code};
    ghost use Rattle.w16_resource.specs.Loads.{loads_in};

    ghost Value = { FinMap nat_cmp Load };

    ghost coded = { finmap.code coded_ℕ load_code };

    ghost view = { λ s. loads_in s.loads.items };

    ghost invariant = { λ s. (8192 ≤ vec_capacity s.loads) × (length s.loads.items ≤ 8192) };
}

impl<A: Allocator> Resources<A> {
    /// Nothing is loaded. An error is that memory ran out.
    pub fn new(alloc: A) -> Result<Resources<A>, AllocError>
        ensures { IfOk result (λ made. made ≡ finmap.empty) }
    {
        let loads = Vec::with_capacity(alloc, PLACES)?;
        Ok(Resources { loads })
    }

    /// Whether a slot's object is a resource that is loaded.
    pub fn owns(&self, slot: u16) -> bool
        ensures { result ≡ is_some (finmap.get self.now slot) }
    {
        self.load_at(slot).is_some()
    }

    /// The load of a slot's object; none where it is no resource.
    pub fn load_at(&self, slot: u16) -> Option<Load>
        ensures { option_map load_in result ≡ finmap.get self.now slot }
    {
        self.loads.get(usize::from(slot)).copied().flatten()
    }

    /// The first slot that has a load of a module and a place, and that load.
    pub(crate) fn first_of(&self, handle: u16, place: u16) -> Option<(u16, Load)>
        ensures first { option_map (λ found. (found.0, load_in found.1)) result ≡ find (λ e. (e.1.handle == handle) && (e.1.place == place)) (finmap.entries self.now) }
        ensures few { IfSome result (λ found. found.0 < 8192) }
    {
        first_of(self.loads.as_slice(), handle, place)
    }

    /// One more than the highest slot that ever had a load.
    pub(crate) fn end(&self) -> u16
        ensures few { result ≤ 8192 }
        ensures all { (slot : ℕ) → result ≤ slot → finmap.get self.now slot ≡ None }
    {
        self.loads.len() as u16
    }

    /// A slot has this load from now on, whatever it had. It takes no memory.
    pub(crate) fn put(&mut self, slot: u16, load: Load)
        requires { slot < 8192 }
        ensures { self.new ≡ finmap.insert self.old slot (load_in load) }
    {
        reach(&mut self.loads, slot);
        self.loads[usize::from(slot)] = Some(load);
    }

    /// A slot has no load from now on.
    pub(crate) fn remove(&mut self, slot: u16)
        ensures { self.new ≡ finmap.remove self.old slot }
    {
        let place = usize::from(slot);
        if place < self.loads.len() {
            self.loads[place] = None;
        }
    }
}
