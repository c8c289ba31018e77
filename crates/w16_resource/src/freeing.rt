//! Loads of resources that end.
ghost use Rattle.std.specs.Prelude.{◌≡◌, ◌<◌};
ghost use Rattle.w16_loading.specs.Free.{without_orphans};
ghost use Rattle.w16_loading.specs.Resource.{free_resource};
ghost use Rattle.w16_resource.specs.Loads.{without_orphan};

use crate::listing::Load;
use crate::parts::Loading;
use std::alloc::Allocator;
use w16_loader::release_slot;
use w16_store::Store;

/// The bits of `GlobalFlags` that count locks.
const LOCKS: u16 = 0xff;

impl<S: Store + Drop, A: Allocator + Copy> Loading<S, A> {
    /// `FreeResource`: 0, and a resource has a load less; with the last its object goes. 1 for a handle of no resource, and for the last load while
    /// the object is locked; then all is as it was.
    pub fn free_resource(&mut self, handle: u16) -> u16
        ensures freed { (result, self.new) ≡ free_resource self.old handle }
        ensures unread { (self.new.files ≡ self.old.files) × (self.new.failures ≡ self.old.failures) }
    {
        self.global.reveal_handles();
        let Some((slot, load)) = self.named(handle) else {
            return 1;
        };
        if load.loads > 1 {
            let loads = load.loads - 1;
            self.resources.put(slot, Load { loads, ..load });
            return 0;
        }
        if self.global.global_flags(handle) & LOCKS > 0 {
            return 1;
        }
        release_slot(&mut self.global, slot);
        self.resources.remove(slot);
        0
    }

    /// The resources of modules that are gone go, with their objects, locked or not. It is due after `FreeLibrary` and `FreeModule`.
    pub fn sweep_resources(&mut self)
        ensures { self.new ≡ without_orphans self.old }
    {
        for slot in 0..self.resources.end() {
            self.sweep_slot(slot);
        }
    }

    /// The resource in a slot goes, with its object, where its module is gone.
    fn sweep_slot(&mut self, slot: u16)
        requires { slot < 8192 }
        ensures { self.new ≡ without_orphan self.old slot }
    {
        let Some(load) = self.resources.load_at(slot) else {
            return;
        };
        if self.registry.module(load.handle).is_none() {
            release_slot(&mut self.global, slot);
            self.resources.remove(slot);
        }
    }
}
