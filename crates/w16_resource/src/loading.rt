//! Loads of resources.
ghost use Rattle.std.specs.Prelude.{◌≡◌, ◌≤◌, ◌<◌, ℕ, true, false, IfErr, Some};
ghost use Rattle.w16_store.specs.Later.{IsLater, RoseIf};
ghost use Rattle.w16_model.specs.Calls.{rounded_size};
ghost use Rattle.w16_loading.specs.Fewest.{FewestOver};
ghost use Rattle.w16_model.specs.Commands.Family.{OfResources};
ghost use Rattle.w16_model.specs.Commands.Command.{LoadResource};
ghost use Rattle.w16_loading.specs.File as file;
ghost use Rattle.w16_loading.specs.Modules.{LoadingWorld};
ghost use Rattle.w16_loading.specs.Replies.{Reply};
ghost use Rattle.w16_loading.specs.Replies.Reply.{Word};
ghost use Rattle.w16_loading.specs.Resource.{loaded_again, resource_outcome};
ghost use Rattle.w16_format.specs.Ne.{ne_format};
ghost use Rattle.w16_format.specs.Tables.{has, kind_of_flags};
ghost use Rattle.w16_resource.specs.Loads.{load_in};
ghost use Rattle.w16_resource.specs.Parts.{IsLoadingOver, word_in};
ghost use Rattle.w16_resource.specs.Sources.{IsFirstLoad, is_long};
ghost use Rattle.w16_loader.specs.Devices.{is_of_device};
ghost use Rattle.w16_loading.specs.Families.AnyCommand.{any};

use crate::fetching::is_too_long;
use crate::finding::source_of;
use crate::listing::Load;
use crate::parts::Loading;
use crate::resources::Resources;
use std::alloc::Allocator;
use w16_loader::release_slot;
use w16_loading::{FetchFault, MOST_USES};
use w16_model::names::{handle_of, slot_of};
use w16_model::{GRAIN, Kind, Owned, REACH};
use w16_ne::ResourceFlags;
use w16_store::Store;

/// Whether a resource has a flag.
fn has(flags: ResourceFlags, flag: ResourceFlags) -> bool
    ensures { result ≡ has flags.0 flag.0 }
{
    flags.0 & flag.0 != 0
}

/// The kind of a resource's object.
fn kind_of(flags: ResourceFlags) -> Kind
    ensures { result ≡ kind_of_flags flags.0 true }
{
    if !has(flags, ResourceFlags::MOVEABLE) {
        Kind::Fixed
    } else if has(flags, ResourceFlags::DISCARDABLE) {
        Kind::Discardable
    } else {
        Kind::Moveable
    }
}

/// What a resource's object is to its module: that many bytes, in whole grains, that may be written.
fn owned_for(len: u32) -> Owned
    requires { is_long len ≡ false }
    ensures owned { result ≡ record { size = rounded_size len; code = false } }
    ensures some { 0 < result.size }
    ensures small { result.size ≤ REACH }
{
    Owned {
        size: len.div_ceil(GRAIN) * GRAIN,
        code: false,
    }
}

/// What a load answers where its object got no bytes.
fn refusal(fault: FetchFault) -> Result<u16, FetchFault>
    ensures told { IfErr result (λ f. f ≡ fault) }
    ensures answer { (handle : ℕ) (made old : LoadingWorld) → (word_in result, old) ≡ resource_outcome (Some fault) handle made old }
{
    match fault {
        FetchFault::NoRoom => Ok(0),
        FetchFault::Store | FetchFault::Damaged => Err(fault),
    }
}

impl<S: Store + Drop, A: Allocator + Copy> Loading<S, A> {
    /// `LoadResource`: the handle of a resource's object, by its place in its module's table, from 1, which has a load more now; it is the same
    /// handle as long as the resource is loaded. The first load makes the object, which its module owns, of as many bytes as the resource has in
    /// whole grains, and fetches them; no other load fetches. Its kind is as of code with the same flags, but it may be written.
    ///
    /// 0 for a handle of no module, a place that its table doesn't have, a resource of 0 bytes or more than 65,536, a resource that has 65,000 loads,
    /// and, at a first load, where no slot is free, or no room. An error is that the device failed (`Store`), or that the file reads otherwise than
    /// it did when the module was loaded (`Damaged`). The file is read before room is asked for. After 0 and after an error all is as it was.
    pub fn load_resource(&mut self, handle: u16, place: u16) -> Result<u16, FetchFault>
        ensures step { IsLoadingOver S.is_honest self.old
            → FewestOver S.is_honest ne_format self.old (any _ (LoadResource handle place)) (word_in result) self.new }
        ensures stays { IsLater self.old.files self.old.failures self.new.files self.new.failures }
        ensures device { IfErr result (RoseIf is_of_device self.old.failures self.new.failures) }
    {
        let Some(source) = source_of(&self.registry, handle, place) else {
            return Ok(0);
        };
        let len = source.resource.len;
        if is_too_long(len) {
            return Ok(0);
        }
        let kind = kind_of(source.resource.flags);
        match self.resources.first_of(handle, place) {
            Some((slot, load)) => Ok(self.resources.load_again(slot, load, kind)),
            None => self.load_new(handle, place, kind, len),
        }
    }

    /// The first load of a resource, which has this kind and so many bytes. Its object goes again where it gets no bytes.
    fn load_new(&mut self, handle: u16, place: u16, kind: Kind, len: u32) -> Result<u16, FetchFault>
        requires { is_long len ≡ false }
        ensures step { (r : file.Resource) → IsLoadingOver S.is_honest self.old → IsFirstLoad self.old handle place r → r.kind ≡ kind → r.length_in ≡ len
            → FewestOver S.is_honest ne_format self.old (any _ (LoadResource handle place)) (word_in result) self.new }
        ensures stays { IsLater self.old.files self.old.failures self.new.files self.new.failures }
        ensures device { IfErr result (RoseIf is_of_device self.old.failures self.new.failures) }
    {
        let Some(name) = self.global.take_owned(kind, owned_for(len)) else {
            return Ok(0);
        };
        let slot = slot_of(name);
        let loads = 1;
        self.resources.put(
            slot,
            Load {
                handle,
                place,
                loads,
            },
        );
        match self.fetch_resource(name) {
            Ok(()) => Ok(name),
            Err(fault) => {
                release_slot(&mut self.global, slot);
                self.resources.remove(slot);
                refusal(fault)
            }
        }
    }
}

impl<A: Allocator + Copy> Resources<A> {
    /// One load more of a resource that is loaded: its object's handle, or 0 where it has 65,000 loads.
    fn load_again(&mut self, slot: u16, load: Load, kind: Kind) -> u16
        requires { slot < 8192 }
        ensures { (rest : LoadingWorld) (r : file.Resource) → r.kind ≡ kind → ◌≡◌ {A = Reply × LoadingWorld} (Word result, record rest { loads = self.new })
            (loaded_again (record rest { loads = self.old }) r (slot, load_in load)) }
    {
        if u32::from(load.loads) >= MOST_USES {
            return 0;
        }
        let loads = load.loads + 1;
        self.put(slot, Load { loads, ..load });
        handle_of(kind, slot)
    }
}
