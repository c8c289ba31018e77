//! Looks at what selectors reach, which are no use of it: nothing of the heap changes.
ghost use Rattle.std.specs.Prelude.{◌≡◌, IfErr, OnErr, OnOk, None, Some, length};
ghost use Rattle.w16_model.specs.Bytes.{part};
ghost use Rattle.w16_model.specs.Far.{far_at, far_bytes, far_fault};
ghost use Rattle.w16_selectors.specs.Descriptors as selectors;
ghost use Rattle.w16_global.specs.Peek.{selector_descriptor};

use crate::global::Global16;
use crate::loan::Place;
use std::alloc::Allocator;
use w16_model::FarFault;
use w16_model::names::offset_in;
use w16_selectors::SelKind;

/// What a selector tells: where in memory the bytes begin that it reaches, and the offset of the last of them, both 0 where its object has no
/// bytes.
#[derive(Clone, Copy, Debug, PartialEq, Eq)]
pub struct Descriptor {
    pub base: u32,
    pub limit: u32,
    /// The object's handle.
    pub object: u16,
    /// Whether the object has bytes.
    pub present: bool,
    /// Whether it is code, which can't be written.
    pub code: bool,
}

impl<A: Allocator + Copy> Global16<A> {
    /// Copies as many bytes as the buffer has, with the faults of [`Global16::far_place`], and is no use of the object.
    pub fn far_peek(&self, selector: u16, offset: u16, buffer: &mut [u8]) -> Result<(), FarFault>
        ensures length { length buffer.new ≡ length buffer.old }
        ensures ok { OnOk result ((far_fault self.now.handles selector offset (length buffer.old) ≡ None)
            × (buffer.new ≡ part (far_bytes self.now.handles selector) (far_at self.now.handles selector offset) (length buffer.old))) }
        ensures err { IfErr result (λ fault. far_fault self.now.handles selector offset (length buffer.old) ≡ Some fault) }
        ensures kept { OnErr result (buffer.new ≡ buffer.old) }
    {
        let reached = self.reach(selector, offset, buffer.len(), false)?;
        let place = Place {
            slot: reached.slot,
            at: reached.at,
            count: buffer.len() as u32,
        };
        buffer.copy_from_slice(self.bytes(place));
        Ok(())
    }

    /// What a selector tells, without a use of its object; none where no object has it.
    pub fn descriptor(&self, selector: u16) -> Option<Descriptor>
        ensures { result ≡ selector_descriptor self.now.handles selector }
    {
        let found = self.selectors.find(selector)?;
        Some(Descriptor {
            base: found.base,
            limit: found.limit,
            object: offset_in(self.global_handle(selector)),
            present: found.present,
            code: is_code(found.kind),
        })
    }
}

/// Whether a segment is code.
fn is_code(kind: SelKind) -> bool
    ensures { result ≡ selectors.is_code kind }
{
    kind == SelKind::Code
}
