//! What a machine tells of its objects, for those who look at it.
ghost use Rattle.std.specs.Prelude.{◌≡◌, option_map, slice_get};
ghost use Rattle.w16_model.specs.Handles.{handle_of};
ghost use Rattle.w16_model.specs.declared.Kind.TheVariants.{Discardable};
ghost use Rattle.w16_loading.specs.Owner.{owner_of};
ghost use Rattle.w16_kernel.specs.Facts.{facts_of, source_in};

use crate::kernel::Kernel;
use std::alloc::Allocator;
use w16_model::Span;
use w16_store::Store;

/// Of which module an object is.
#[derive(Debug, Clone, Copy, PartialEq, Eq)]
pub enum Source {
    /// A segment of the module of this handle, by its number from 1.
    Segment { handle: u16, number: usize },
    /// A resource of the module of this handle, by its place in the module's table.
    Resource { handle: u16, place: u16 },
}

/// What is told of an object.
#[derive(Debug, Clone, Copy, PartialEq, Eq)]
pub struct Facts {
    /// What `GlobalFlags` answers.
    pub flags: u16,
    /// None of an object of the script.
    pub source: Option<Source>,
    /// The part of its bytes that a local heap has.
    pub local: Option<Span>,
}

impl<S: Store + Drop, A: Allocator + Copy> Kernel<S, A> {
    /// Of which module the object of a slot is.
    fn source_of(&self, slot: u16) -> Option<Source>
        ensures { result ≡ source_in (owner_of self.now.loading slot) }
    {
        if let Some(load) = self.parts.loading.resources.load_at(slot) {
            return Some(Source::Resource {
                handle: load.handle,
                place: load.place,
            });
        }
        let segment = self.parts.loading.registry.segment_of(slot)?;
        Some(Source::Segment {
            handle: segment.handle,
            number: segment.number,
        })
    }

    /// What is told of the object of a handle; none where no object has it.
    pub fn facts(&self, handle: u16) -> Option<Facts>
        ensures { result ≡ facts_of self.now handle }
    {
        let slot = self.parts.loading.global.slot_of_handle(handle)?;
        Some(Facts {
            flags: self.parts.loading.global.global_flags(handle),
            source: self.source_of(slot),
            local: self
                .parts
                .locals
                .heap_range(&self.parts.loading.global, handle),
        })
    }

    /// The handle of the i-th object of the order of use, the least recently used first, from 0; none after the last. It goes over those before it.
    pub fn in_order(&self, i: usize) -> Option<u16>
        ensures { result ≡ option_map (handle_of Discardable) (slice_get self.now.loading.handles.heap.order i) }
    {
        self.parts.loading.global.in_order(i)
    }
}
