//! The machine's parts as one value.
ghost use Rattle.std.specs.Prelude.{◌≡◌, if◌then◌else◌};
ghost use Rattle.std.specs.FinMap as finmap;
ghost use Rattle.w16_machine.specs.Local.{has_range, left_in};

use std::alloc::Allocator;
use std::marker::Model;
use w16_local::LocalHeaps;
use w16_resource::Loading;
use w16_store::Store;

/// All of the machine: what is loaded, the local heaps, and DS. Its value is the world that a script sees, also between a call and the sweep of
/// local heaps after it.
#[derive(Drop)]
pub struct Parts<S: Store + Drop, A: Allocator + Copy> {
    pub loading: Loading<S, A>,
    pub locals: LocalHeaps<A>,
    pub ds: u16,
}

impl<S: Store + Drop, A: Allocator + Copy> Model for Parts<S, A> {
    ghost use Rattle.w16_machine.specs.World.{World};
    ghost use Rattle.w16_kernel.specs.Codes.{world_code};
    ghost use Rattle.w16_kernel.specs.Parts.{world_of};

    ghost Value = { World };

    ghost coded = { world_code };

    ghost view = { λ p. world_of p.loading p.locals p.ds };
}

/// Tells the store that a call begins.
pub fn refresh<S: Store + Drop, A: Allocator + Copy>(parts: &mut Parts<S, A>)
    ensures { parts.new ≡ parts.old }
{
    parts.loading.store.refresh();
}

/// Takes away all local heaps whose segments lost bytes of theirs.
pub fn sweep_all<S: Store + Drop, A: Allocator + Copy>(parts: &mut Parts<S, A>)
    ensures { parts.new ≡ record parts.old { heaps = left_in parts.old.loading.handles.heap parts.old.heaps } }
{
    parts.locals.sweep(&parts.loading.global);
}

/// Takes away the local heap in one slot's object, if its segment lost bytes of its.
pub fn sweep_slot<S: Store + Drop, A: Allocator + Copy>(parts: &mut Parts<S, A>, slot: u16)
    ensures { parts.new ≡ record parts.old { heaps = if has_range parts.old.loading.handles.heap parts.old.heaps slot then parts.old.heaps else finmap.remove parts.old.heaps slot } }
{
    parts.locals.sweep_slot(&parts.loading.global, slot);
}
