//! The members of an order, one after another.
ghost use Rattle.std.specs.Prelude.{◌≡◌, ◌-◌, ◌≤◌, length, drop, slice_get};
ghost use Rattle.std.specs.Iterator.{YieldsFirst, item_count};

use crate::Order;
use std::alloc::{Allocator, Global};

/// The members of an order from one on, the oldest first.
#[derive(Drop)]
pub struct OldestFirst<'a, A: Allocator = Global> {
    pub(crate) order: &'a Order<A>,
    /// The one that comes next, if one does.
    pub(crate) next: Option<u32>,
    /// How many come, with that one.
    pub(crate) left: usize,
}

impl<'a, A: Allocator> Iterator for OldestFirst<'a, A> {
    type Item = u32;

    ghost can_next = { λ s. let ids = s.order.now.ids in (s.left ≤ length ids) × (s.next ≡ slice_get ids (length ids - s.left)) };

    ghost next_gives = { YieldsFirst (λ s. drop (length s.order.now.ids - s.left) s.order.now.ids) };

    ghost remaining = { item_count (λ s. drop (length s.order.now.ids - s.left) s.order.now.ids) };

    fn next(&mut self) -> Option<u32> {
        let id = self.next?;
        self.next = self.order.next(id);
        self.left -= 1;
        Some(id)
    }
}
