//! What a module's table says of its resources.
ghost use Rattle.std.specs.Prelude.{◌≡◌, IfSome, IfNone, None};
ghost use Rattle.w16_ne.specs.Resources.{entry_of, label_of};
ghost use Rattle.w16_loading.specs.Modules.{LoadingWorld};
ghost use Rattle.w16_loading.specs.Resource as resource;
ghost use Rattle.w16_format.specs.Tables.{label_in};
ghost use Rattle.w16_loader.specs.Registry.{in_world};
ghost use Rattle.w16_resource.specs.Sources.{IsSourceAt};

use std::alloc::Allocator;
use w16_loader::Registry;
use w16_ne::{Resource, ResourceName};

/// Where a resource's bytes come from.
#[derive(Clone, Copy)]
pub(crate) struct ResourceSource<'a> {
    /// The name of its module's file.
    pub(crate) file: &'a [u8],
    /// What that file said of it when the module was loaded.
    pub(crate) resource: Resource<'a>,
}

/// Where the bytes of a module's resource come from, by its place in the module's table, from 1; none where no module has the handle, and where its
/// table has no such place.
pub(crate) fn source_of<A: Allocator>(
    registry: &Registry<A>,
    handle: u16,
    place: u16,
) -> Option<ResourceSource<'_>>
    ensures found { IfSome result (λ source. IsSourceAt registry.now handle place source.file.now (entry_of source.resource)) }
    ensures none { IfNone result ((rest : LoadingWorld) → resource.resource_at (in_world rest registry.now) handle place ≡ None) }
{
    let loaded = registry.module(handle)?;
    let (_, resource) = loaded.module().resource(usize::from(place))?;
    Some(ResourceSource {
        file: loaded.file(),
        resource,
    })
}

/// `FindResource`: the place of a resource in its module's table, from 1, of the first of this name and type; 0 where there is none, and where no
/// module has the handle. Names and types are numbers, or texts in any case of letters.
pub fn find_resource<A: Allocator>(
    registry: &Registry<A>,
    handle: u16,
    name: ResourceName<'_>,
    kind: ResourceName<'_>,
) -> u16
    ensures { (rest : LoadingWorld) → result ≡ resource.find_resource (in_world rest registry.now) handle (label_in (label_of name.entry)) (label_in (label_of kind.entry)) }
{
    match registry.module(handle) {
        None => 0,
        Some(loaded) => loaded.module().place_of(kind, name).unwrap_or(0),
    }
}

/// `SizeofResource`: how many bytes a resource has in its file, whole units, by its place in its module's table; 0 where there is none.
pub fn size_of_resource<A: Allocator>(registry: &Registry<A>, handle: u16, place: u16) -> u32
    ensures { (rest : LoadingWorld) → result ≡ resource.size_of_resource (in_world rest registry.now) handle place }
{
    match source_of(registry, handle, place) {
        None => 0,
        Some(source) => source.resource.len,
    }
}
