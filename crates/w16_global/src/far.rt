//! Far access: bytes at selector:offset. An access is checked once, by the selector's descriptor, and its bytes are then the object's.
ghost use Rattle.std.specs.Prelude.{◌≡◌, ◌<◌, ◌^◌, Some, None, min, OnOk, IfOk, IfErr};
ghost use Rattle.w16_model.specs.Far.{far_at, far_slot};
ghost use Rattle.w16_global.specs.Access.{access_fault};

use crate::global::Global16;
use std::alloc::Allocator;
use w16_model::names::slot_of;
use w16_model::{FarFault, REACH};

/// Where an access begins: in an object, by its first slot, at so many bytes after its begin.
#[derive(Clone, Copy, Debug)]
pub(crate) struct Reached {
    pub slot: u16,
    pub at: u32,
}

impl<A: Allocator + Copy> Global16<A> {
    /// Where an access to `n` bytes begins, or its first fault.
    pub(crate) fn reach(
        &self,
        selector: u16,
        offset: u16,
        n: usize,
        write: bool,
    ) -> Result<Reached, FarFault>
        ensures ok { IfOk result (λ r. (r.slot ≡ far_slot self.now.handles selector) × (r.at ≡ far_at self.now.handles selector offset) × (access_fault self.now.handles write selector offset n ≡ None)) }
        ensures few { OnOk result (n < 2 ^ 32) }
        ensures err { IfErr result (λ fault. access_fault self.now.handles write selector offset n ≡ Some fault) }
    {
        self.selectors
            .resolve(selector, offset, count_of(n), write)?;
        let slot = slot_of(selector);
        let number = self.selectors.number_at(slot);
        Ok(Reached {
            slot: slot - number as u16,
            at: REACH * number as u32 + offset as u32,
        })
    }
}

/// `n` as a `u32`, saturating: the largest `u32` is more bytes than any object has.
fn count_of(n: usize) -> u32
    ensures { result ≡ min n 4294967295 }
{
    u32::try_from(n).unwrap_or(u32::MAX)
}
