//! Locks of resources, which fetch those that have no bytes.
ghost use Rattle.std.specs.Prelude.{◌≡◌, ◌<◌, ℕ, true, Some, option_map, IfSome, IfErr};
ghost use Rattle.w16_store.specs.Later.{IsLater, RoseIf};
ghost use Rattle.w16_loading.specs.Fewest.{FewestOver};
ghost use Rattle.w16_model.specs.Commands.Family.{OfResources};
ghost use Rattle.w16_model.specs.Commands.Command.{LockResource};
ghost use Rattle.w16_loading.specs.Modules.{LoadingWorld};
ghost use Rattle.w16_loading.specs.Resource.{lock_outcome, slot_of_resource};
ghost use Rattle.w16_format.specs.Ne.{ne_format};
ghost use Rattle.w16_resource.specs.Loads.{load_in};
ghost use Rattle.w16_resource.specs.Parts.{IsLoadingOver, dword_in};
ghost use Rattle.w16_loader.specs.Devices.{is_of_device};
ghost use Rattle.w16_loading.specs.Families.AnyCommand.{any};

use crate::listing::Load;
use crate::parts::Loading;
use std::alloc::Allocator;
use w16_loading::FetchFault;
use w16_model::names::selector_of;
use w16_store::Store;

/// What a lock answers where the object got no bytes.
fn refusal(fault: FetchFault) -> Result<u32, FetchFault>
    ensures told { IfErr result (λ f. f ≡ fault) }
    ensures answer { (handle : ℕ) (world : LoadingWorld) → (dword_in result, world) ≡ lock_outcome (Some fault) handle world }
{
    match fault {
        FetchFault::NoRoom => Ok(0),
        FetchFault::Store | FetchFault::Damaged => Err(fault),
    }
}

impl<S: Store + Drop, A: Allocator + Copy> Loading<S, A> {
    /// `LockResource`: as `GlobalLock`, a far pointer to the first byte of a resource's object, which is fetched before where it has no bytes. 0 for
    /// a handle of no resource, and where there is no room for it. An error is why it got no bytes otherwise.
    pub fn lock_resource(&mut self, handle: u16) -> Result<u32, FetchFault>
        ensures step { IsLoadingOver S.is_honest self.old → FewestOver S.is_honest ne_format self.old (any _ (LockResource handle)) (dword_in result) self.new }
        ensures stays { IsLater self.old.files self.old.failures self.new.files self.new.failures }
        ensures device { IfErr result (RoseIf is_of_device self.old.failures self.new.failures) }
    {
        let Some((slot, _)) = self.named(handle) else {
            return Ok(0);
        };
        if self.global.segment(selector_of(slot)).is_some() {
            return Ok(self.global.global_lock(handle));
        }
        match self.fetch_resource(handle) {
            Ok(()) => Ok(self.global.global_lock(handle)),
            Err(fault) => refusal(fault),
        }
    }

    /// The slot and the load of the resource whose object's handle this is, exactly; none where it is no resource's.
    pub(crate) fn named(&self, handle: u16) -> Option<(u16, Load)>
        ensures named { option_map (λ found. (found.0, load_in found.1)) result ≡ slot_of_resource self.now handle }
        ensures few { IfSome result (λ found. found.0 < 8192) }
    {
        let slot = self.global.slot_of_handle(handle)?;
        let load = self.resources.load_at(slot)?;
        Some((slot, load))
    }
}
