//! Bytes of objects, lent without a copy.
ghost use Rattle.std.specs.Prelude.{◌≡◌, ◌+◌, ◌≤◌, ℕ, List, Some, true, length, OnErr, IfOk, IfErr};
ghost use Rattle.std.specs.Borrow.{sem};
ghost use Rattle.w16_model.specs.Bytes.{part};
ghost use Rattle.w16_model.specs.Handles.{Gives};
ghost use Rattle.w16_model.specs.Far as access;
ghost use Rattle.w16_region.specs.Lending.{LendsFrom, LendsWhole};
ghost use Rattle.w16_region.specs.contracts.region.Region.{the_row as region_row};
ghost use Rattle.w16_global.specs.Access.{access_fault};
ghost use Rattle.w16_global.specs.Loans.{IsPlaceIn, after_loan, left_of, lent_bytes, region_after, with_bytes_there};

use crate::global::Global16;
use std::alloc::Allocator;
use w16_model::FarFault;
use w16_region::{Region, Space};

/// A part of a memory, to be written. What is known of it afterwards is that it is as many bytes: a loan of the memory's own would leave any list
/// of numbers.
pub(crate) fn lend_part<A: Allocator>(memory: &mut Region<A>, at: u32, size: u32) -> &mut [u8]
    requires { at + size ≤ length memory.old.bytes.items }
    ensures* writes_back { sem 𝓛 (LendsFrom (region_row A.row A.Allocator) (λ r at new. region_after size r at (left_of (part r.bytes.items at size) new)) memory.entry at result) }
    ensures value { result.now ≡ part memory.old.bytes.items at size }
{
    memory.view_mut(at, size)
}

/// Bytes of an object, from an offset on, that a far access has reached.
#[derive(Clone, Copy, Debug)]
pub struct Place {
    pub(crate) slot: u16,
    pub(crate) at: u32,
    pub(crate) count: u32,
}

impl<A: Allocator + Copy> Global16<A> {
    ghost use Rattle.w16_global.specs.contracts.global.Global16.{the_row};

    /// A far access to bytes that are to be read, or to be written: where they are, without a copy. It is a use of the object, or it tells the first
    /// fault: `BadSelector` where no object has the selector, `ReadOnly` where code is to be written, with bytes or without, `NotPresent` where the
    /// object has no bytes, `Limit` where a byte is past what the selector reaches of it.
    pub fn far_place(
        &mut self,
        selector: u16,
        offset: u16,
        count: usize,
        write: bool,
    ) -> Result<Place, FarFault>
        // The bytes there are what a read gives.
        ensures read { IfOk result (λ place. Gives (access.far_read self.old.handles selector offset count) (access.FarAnswer.Bytes (lent_bytes self.new.handles place)) self.new.handles) }

        // Other bytes there are what a write of them leaves.
        ensures written { IfOk result (λ place. write ≡ true → (bytes : List ℕ) → length bytes ≡ count
            → Gives (access.far_write self.old.handles selector offset bytes) access.FarAnswer.Done (with_bytes_there self.new.handles place bytes)) }
        ensures there { IfOk result (λ place. IsPlaceIn self.new.handles place × (place.count ≡ count)) }
        ensures err { IfErr result (λ fault. access_fault self.old.handles write selector offset count ≡ Some fault) }
        ensures count { self.new.written ≡ self.old.written }
        ensures kept { OnErr result (self.new ≡ self.old) }
    {
        let reached = self.reach(selector, offset, count, write)?;
        self.touch(reached.slot);
        Ok(Place {
            slot: reached.slot,
            at: reached.at,
            count: count as u32,
        })
    }

    /// The bytes at a place, to be read.
    pub fn bytes(&self, place: Place) -> &[u8]
        requires { IsPlaceIn self.now.handles place }
        ensures { result.now ≡ lent_bytes self.now.handles place }
    {
        self.objects.part(place.slot as u32, place.at, place.count)
    }

    /// The bytes at a place, to be written. They count as written, and what is left there is what a far write would have left.
    pub fn bytes_mut(&mut self, place: Place) -> &mut [u8]
        requires { IsPlaceIn self.old.handles place }
        ensures value { result.now ≡ lent_bytes self.old.handles place }
        ensures* writes_back { sem 𝓛 (LendsWhole (the_row A.row A.Allocator A.Clone) (after_loan place) self.entry result) }
    {
        self.objects.lend(place.slot as u32, place.at, place.count)
    }
}
