//! How many discards make room, by trying each number.
ghost use Rattle.std.specs.Prelude.{◌≡◌, IfOk};
ghost use Rattle.w16_model.specs.Gap.{ArePlaced};
ghost use Rattle.w16_model.specs.Discards as defined;
ghost use Rattle.w16_model.specs.Discards.{snapshot};

use super::{Snapshot, is_pinned};
use crate::{Block, RoomOptions};
use std::alloc::{AllocError, Global};

impl<'a> Snapshot<'a> {
    /// The ids of what a request about an object, or about none, may discard, the one used longest
    /// ago first. An error says that memory for the list is missing.
    pub fn eligible(&self, alloc: Global, about: Option<u32>) -> Result<Vec<u32>, AllocError>
        ensures { IfOk result
            (λ ids. ids.items ≡ defined.eligible self.now.blocks.now self.now.order.now about) }
    {
        self.order
            .iter()
            .copied()
            .filter(|&id| !self.is_pinned_id(id) && !is_about(about, id))
            .collect(alloc)
    }

    /// The room where the object that the request is about and the first `count` eligible ones
    /// aren't counted. An error says that memory is missing.
    pub fn room_for(
        &self,
        alloc: Global,
        count: usize,
        about: Option<u32>,
    ) -> Result<u32, AllocError>
        requires { ArePlaced self.now.lo self.now.hi self.now.blocks.now }
        ensures { IfOk result
            (λ room. room
            ≡ defined.room_for (snapshot self.now.lo self.now.hi self.now.blocks.now self.now.order.now)
            count about) }
    {
        let eligible = self.eligible(alloc, about)?;
        let discarded = &eligible[..count.min(eligible.len())];
        let blocks = self.blocks_without(alloc, discarded, about)?;
        let left = Snapshot {
            blocks: &blocks,
            ..*self
        };
        Ok(left.room())
    }

    /// The least number of discards that makes room for `size` bytes, if there is one.
    /// An error says that memory is missing.
    pub fn needed(
        &self,
        alloc: Global,
        size: u32,
        about: Option<u32>,
    ) -> Result<Option<usize>, AllocError>
        requires { ArePlaced self.now.lo self.now.hi self.now.blocks.now }
        ensures { IfOk result
            (λ count. count
            ≡ defined.needed (snapshot self.now.lo self.now.hi self.now.blocks.now self.now.order.now)
            size about) }
    {
        let most = self.eligible(alloc, about)?.len();
        for count in 0..=most {
            if size <= self.room_for(alloc, count, about)? {
                return Ok(Some(count));
            }
        }
        Ok(None)
    }

    /// The number of discards by which a request for `size` bytes is answered, or `None` where it
    /// is refused. An error says that memory is missing.
    pub fn prefix(
        &self,
        alloc: Global,
        size: u32,
        about: Option<u32>,
        options: RoomOptions,
    ) -> Result<Option<usize>, AllocError>
        requires { ArePlaced self.now.lo self.now.hi self.now.blocks.now }
        ensures { IfOk result
            (λ count. count
            ≡ defined.prefix_for (snapshot self.now.lo self.now.hi self.now.blocks.now self.now.order.now)
            size about options) }
    {
        if !options.compact {
            return Ok((size <= self.longest_hole()).then_some(0));
        }
        if !options.discard {
            return Ok((size <= self.room_for(alloc, 0, about)?).then_some(0));
        }
        self.needed(alloc, size, about)
    }

    /// Whether an object's block and the hole directly after it have `size` bytes together. They
    /// haven't where no block is the object's.
    pub fn fits_in_place(&self, size: u32, id: u32) -> bool
        requires { ArePlaced self.now.lo self.now.hi self.now.blocks.now }
        ensures { result
            ≡ defined.fits_in_place (snapshot self.now.lo self.now.hi self.now.blocks.now self.now.order.now)
            size id }
    {
        for block in self.blocks {
            if block.id == id {
                let hole = self.hole_after(block.at + block.size);
                return u64::from(size) <= u64::from(block.size) + u64::from(hole);
            }
        }
        false
    }

    /// The number of discards by which an object that has bytes, and may move, grows to `size`
    /// bytes, or `None` where it doesn't (`GlobalReAlloc`). One that may not move grows where it
    /// fits in place. An error says that memory is missing.
    pub fn growth(
        &self,
        alloc: Global,
        size: u32,
        id: u32,
        options: RoomOptions,
    ) -> Result<Option<usize>, AllocError>
        requires { ArePlaced self.now.lo self.now.hi self.now.blocks.now }
        ensures { IfOk result
            (λ count. count
            ≡ defined.growth_for (snapshot self.now.lo self.now.hi self.now.blocks.now self.now.order.now)
            size id options) }
    {
        if options.compact {
            return self.prefix(alloc, size, Some(id), options);
        }
        let fits = self.fits_in_place(size, id) || size <= self.longest_hole();
        Ok(fits.then_some(0))
    }

    /// Whether this is the id of a pinned block.
    fn is_pinned_id(&self, id: u32) -> bool
        ensures { result ≡ defined.is_pinned_id self.now.blocks.now id }
    {
        self.blocks
            .iter()
            .any(|block| block.id == id && is_pinned(block))
    }

    /// The blocks without those of these ids, and without that of the request's object.
    fn blocks_without(
        &self,
        alloc: Global,
        ids: &[u32],
        about: Option<u32>,
    ) -> Result<Vec<Block>, AllocError>
        ensures { IfOk result
            (λ blocks. blocks.items
            ≡ defined.blocks_without self.now.blocks.now ids.now about) }
    {
        self.blocks
            .iter()
            .copied()
            .filter(|block| !is_member(block.id, ids) && !is_about(about, block.id))
            .collect(alloc)
    }
}

/// Whether the id is one of these.
fn is_member(id: u32, ids: &[u32]) -> bool
    ensures { result ≡ defined.is_member id ids.now }
{
    ids.contains(&id)
}

/// Whether the request is about this object.
fn is_about(about: Option<u32>, id: u32) -> bool
    ensures { result ≡ defined.is_about about id }
{
    about == Some(id)
}
