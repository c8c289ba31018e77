//! Loads in a list by slot.
ghost use Rattle.std.specs.Prelude.{◌≡◌, ℕ, ◌<◌, ◌≤◌, ◌==◌, ◌&&◌, None, IfSome, find, length, option_map, slice_index_or, vec_capacity};
ghost use Rattle.w16_resource.specs.Loads.{listed, load_in};

use std::alloc::Allocator;

/// A resource that is loaded: the handle of its module, its place in the module's table, and how often it was loaded.
#[derive(Clone, Copy, Debug, PartialEq, Eq)]
pub struct Load {
    pub handle: u16,
    pub place: u16,
    pub loads: u16,
}

/// The first slot that has a load of a module and a place, and that load.
pub fn first_of(loads: &[Option<Load>], handle: u16, place: u16) -> Option<(u16, Load)>
    requires { length loads.now ≤ 8192 }
    ensures first { option_map (λ found. (found.0, load_in found.1)) result ≡ find (λ e. (e.1.handle == handle) && (e.1.place == place)) (listed loads.now) }
    ensures few { IfSome result (λ found. found.0 < 8192) }
{
    for (slot, load) in loads.iter().enumerate() {
        if let Some(load) = load
            && load.handle == handle
            && load.place == place
        {
            return Some((slot as u16, *load));
        }
    }
    None
}

/// Lengthens the list to include a slot. No load changes, and no memory is taken.
pub fn reach<A: Allocator>(loads: &mut Vec<Option<Load>, A>, slot: u16)
    requires slot { slot < 8192 }
    requires room { 8192 ≤ vec_capacity loads.old }
    requires few { length loads.old.items ≤ 8192 }
    ensures same { (q : ℕ) → slice_index_or loads.new.items q None ≡ slice_index_or loads.old.items q None }
    ensures long { slot < length loads.new.items }
    ensures few { length loads.new.items ≤ 8192 }
    ensures room { 8192 ≤ vec_capacity loads.new }
{
    while loads.len() <= usize::from(slot) {
        loads.push_reserved(None);
    }
}
