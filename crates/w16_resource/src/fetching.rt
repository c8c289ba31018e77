//! Fetches of resources: an object that has no bytes gets those of its module's file.
ghost use Rattle.std.specs.Prelude.{◌≡◌, ◌<◌, ◌/◌, ℕ, List, length, take, drop, true, false, IfErr, IfSome, IfNone, OnOk, OnErr, IsSome, IsSomeAnd, MatchResult, None, Some};
ghost use Rattle.std.specs.FinMap as finmap;
ghost use Rattle.w16_store.specs.Files.{file_of};
ghost use Rattle.w16_store.specs.Later.{IsLater, RoseIf};
ghost use Rattle.w16_ne.specs.Resources.{entry_of};
ghost use Rattle.w16_global.specs.Owned.{LacksBytes};
ghost use Rattle.w16_loading.specs.declared.FetchFault.TheVariants.{Store as store_fails};
ghost use Rattle.w16_loading.specs.Fill.{is_of_read};
ghost use Rattle.w16_loading.specs.Modules.{LoadingWorld};
ghost use Rattle.w16_loading.specs.Resource.{resource_at};
ghost use Rattle.w16_loader.specs.Fetching.{fault_in};
ghost use Rattle.w16_loader.specs.Registry.{in_world};
ghost use Rattle.w16_resource.specs.Parts.{FetchesResource, IsLoadingOver};
ghost use Rattle.w16_resource.specs.Sources.{IsSourceAt, is_long};
ghost use Rattle.w16_loader.specs.Devices.{is_of_device};

use crate::finding::{ResourceSource, source_of};
use crate::parts::Loading;
use crate::resources::Resources;
use std::alloc::Allocator;
use w16_loader::{Registry, SegmentWork, fetch_fault, give_bytes};
use w16_loading::{FetchFault, LARGEST_OWNED};
use w16_model::names::slot_of;
use w16_reloc::{Scratch, read_part};
use w16_store::Store;

/// Whether a resource of that many bytes in its file can't be loaded: it has none, or more than an object that a module owns.
pub(crate) fn is_too_long(len: u32) -> bool
    ensures { result ≡ is_long len }
{
    len == 0 || len > LARGEST_OWNED
}

/// Reads the bytes of a resource into the scratch, those that the file has: the last unit may end past its end. `Store` where the device failed;
/// `Damaged` where the file reads otherwise than it did, or ends before the resource, and for a resource that can't be loaded.
pub(crate) fn read<S: Store, A: Allocator>(
    source: &ResourceSource<'_>,
    store: &mut S,
    scratch: &mut Scratch<A>,
) -> Result<(), FetchFault>
    ensures stays { IsLater (S.files store.old) (S.failures store.old) (S.files store.new) (S.failures store.new) }
    ensures device { IfErr result (RoseIf is_of_device (S.failures store.old) (S.failures store.new)) }
    ensures faults { IfErr result (λ fault. is_of_read fault ≡ true) }
    ensures exact { (file : List ℕ) → S.is_honest → file_of (S.files store.old) source.now.file.now ≡ Some file
        → is_long source.now.resource.len ≡ false → source.now.resource.place < length file
        → MatchResult result (λ _. scratch.new.held.bytes ≡ take source.now.resource.len (drop source.now.resource.place file))
        (λ fault. fault ≡ store_fails) }
{
    let resource = source.resource;
    if is_too_long(resource.len) {
        return Err(FetchFault::Damaged);
    }
    if let Err(fault) = read_part(
        store,
        source.file,
        u64::from(resource.place),
        resource.len as usize,
        scratch,
    ) {
        return Err(fetch_fault(fault));
    }
    if scratch.bytes().is_empty() {
        return Err(FetchFault::Damaged);
    }
    Ok(())
}

impl<S: Store + Drop, A: Allocator + Copy> Loading<S, A> {
    /// Gives the object of a resource, which has no bytes, those of its file, and zeros after them. The file is read before room is asked for.
    ///
    /// Others slide and are discarded for it, as few as can be, as for an allocation with no flags; a discardable object becomes the newest in the
    /// order of use. `Store` where the store's device failed; `Damaged` where the file reads otherwise than it did when the module was loaded;
    /// `NoRoom` where no gap could hold it. After each of these the heap is as it was; so it is after an error for a handle that names no resource
    /// without bytes. The scratch holds anything afterwards.
    pub fn fetch_resource(&mut self, handle: u16) -> Result<(), FetchFault>
        ensures step { IsLoadingOver S.is_honest self.old → LacksBytes self.old.handles handle → IsSome (finmap.get self.old.loads (handle / 8))
            → FetchesResource S.is_honest self.old (handle / 8) (fault_in result) self.new }
        ensures refused { OnErr result (self.new.handles ≡ self.old.handles) }
        ensures named { OnOk result (LacksBytes self.old.handles handle) }
        ensures stays { IsLater self.old.files self.old.failures self.new.files self.new.failures }
        ensures device { IfErr result (RoseIf is_of_device self.old.failures self.new.failures) }
    {
        self.global.reveal_handles();
        let Some(source) = self.resources.source_at(&self.registry, slot_of(handle)) else {
            return Err(FetchFault::Damaged);
        };
        read(&source, &mut self.store, &mut self.scratch)?;
        let work = SegmentWork {
            data: self.scratch.bytes(),
            records: &[],
            values: &[],
        };
        if !give_bytes(&mut self.global, handle, &work) {
            return Err(FetchFault::NoRoom);
        }
        Ok(())
    }
}

impl<A: Allocator + Copy> Resources<A> {
    /// Where the bytes of a slot's resource come from; none where none is loaded there.
    fn source_at<'a>(&self, registry: &'a Registry<A>, slot: u16) -> Option<ResourceSource<'a>>
        ensures found { IfSome result (λ source. IsSomeAnd (finmap.get self.now slot)
            (λ load. IsSourceAt registry.now load.handle load.place source.file.now (entry_of source.resource))) }
        ensures none { IfNone result (IfSome (finmap.get self.now slot)
            (λ load. (rest : LoadingWorld) → resource_at (in_world rest registry.now) load.handle load.place ≡ None)) }
    {
        let load = self.load_at(slot)?;
        source_of(registry, load.handle, load.place)
    }
}
