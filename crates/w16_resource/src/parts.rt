//! The parts of the machine that loads and fetches are over, as one value.
use crate::resources::Resources;
use std::alloc::Allocator;
use std::marker::Model;
use w16_global::Global16;
use w16_loader::Registry;
use w16_reloc::Scratch;
use w16_store::Store;

/// The global heap, the modules by handle, the loads of their resources, the store of their files, and room for one segment of a file. Loads take
/// their memory from the allocator. Its value is the world that a load or a fetch sees.
#[derive(Drop)]
pub struct Loading<S: Store + Drop, A: Allocator + Copy> {
    pub alloc: A,
    pub global: Global16<A>,
    pub registry: Registry<A>,
    pub resources: Resources<A>,
    pub store: S,
    pub scratch: Scratch<A>,
}

impl<S: Store + Drop, A: Allocator + Copy> Model for Loading<S, A> {
    ghost use Rattle.w16_loading.specs.Modules.{LoadingWorld};
    ghost use Rattle.w16_loading.specs.Codes.{world_code};
    ghost use Rattle.w16_resource.specs.Parts.{loading_of};

    ghost Value = { LoadingWorld };

    ghost coded = { world_code };

    ghost view = { λ l. loading_of l.global.handles l.registry l.resources (S.files l.store) (S.failures l.store) };
}
