//! The order of use of a heap's discardable objects: their ids, each at most once, oldest first.
//!
//! No call but the constructor takes memory, and each but [`Order::nth`] takes constant time.
#![tactic(auto)]

ghost use Rattle.std.specs.Prelude.{◌≡◌, ◌+◌, ◌<◌, ℕ, [], Some, None, false, length, slice_get, slice_index, slice_set, IfOk};
ghost use Rattle.std.specs.List.{range_with_len, swap};
ghost use Rattle.w16_model.specs.Discards.{is_member};
ghost use Rattle.w16_model.specs.Changes.{newest, oldest, without};
ghost use Rattle.w16_lru.specs.Uses.{AreUses, at_end, renamed};

mod oldest_first;

pub use oldest_first::OldestFirst;
use std::alloc::{AllocError, Allocator, Global};
use std::marker::Model;

/// The ends of an order.
#[derive(Clone, Copy, Debug)]
pub enum End {
    Oldest,
    Newest,
}

/// The ids below a number that are in use, oldest first.
///
/// They are linked in a ring by two tables, with a place for each id and one for `cap`, which stands
/// between the newest and the oldest.
#[derive(Drop)]
pub struct Order<A: Allocator = Global> {
    /// The successor of each. An id that is no member is linked to itself.
    after: Vec<u32, A>,
    /// The predecessor of each: where one table leads, the other leads back.
    before: Vec<u32, A>,
    /// The ids are below it.
    cap: u32,
    /// How many ids are members.
    members: usize,
}

impl<A: Allocator> Model for Order<A> {
    ghost use Rattle.w16_lru.specs.Uses.{Uses};
    ghost use Rattle.w16_lru.specs.Representation.{IsRing, ids_of, uses_of};

    ghost Value = { Uses };

    ghost view = { λ s. uses_of s.cap s.after.items s.members };

    ghost invariant = { λ s. IsRing s.cap s.after.items s.before.items (ids_of s.cap s.after.items s.members) };
}

impl<A: Allocator> Order<A> {
    /// No member yet, of ids below `cap`. An error is that there was no memory.
    pub fn with_room(alloc: A, cap: u32) -> Result<Order<A>, AllocError>
    where
        A: Copy,
        ensures { IfOk result (λ made. made ≡ record { cap = cap; ids = [] }) }
    {
        let after = each_alone(alloc, cap)?;
        let before = each_alone(alloc, cap)?;
        Ok(Order {
            after,
            before,
            cap,
            members: 0,
        })
    }

    /// How many members there are.
    pub fn len(&self) -> usize
        ensures { result ≡ length self.now.ids }
    {
        self.members
    }

    /// Whether an id is a member.
    pub fn contains(&self, id: u32) -> bool
        ensures { result ≡ is_member id self.now.ids }
    {
        id < self.cap && self.after[id as usize] != id
    }

    /// How many members there are beside an id, which needn't be one.
    pub fn len_without(&self, id: u32) -> usize
        ensures { result ≡ length (without id self.now.ids) }
    {
        if id >= self.cap || self.after[id as usize] == id {
            return self.members;
        }
        self.members - 1
    }

    /// The i-th member, the oldest first, from 0; none behind the newest. It walks there from the
    /// oldest.
    pub fn nth(&self, i: usize) -> Option<u32>
        ensures value { result ≡ slice_get self.now.ids i }
        ensures uses { AreUses self.now }
    {
        if i >= self.members {
            return None;
        }
        let mut id = self.after[self.cap as usize];
        for _k in 0..i {
            id = self.after[id as usize];
        }
        Some(id)
    }

    /// The oldest member; none where there is no member.
    pub fn first(&self) -> Option<u32>
        ensures value { result ≡ slice_get self.now.ids 0 }
        ensures uses { AreUses self.now }
    {
        let oldest = self.after[self.cap as usize];
        if oldest == self.cap {
            return None;
        }
        Some(oldest)
    }

    /// The member directly behind a member; none behind the newest, nor for what is no member.
    pub fn next(&self, id: u32) -> Option<u32>
        ensures behind { (i : ℕ) → slice_get self.now.ids i ≡ Some id → result ≡ slice_get self.now.ids (i + 1) }
        ensures none { is_member id self.now.ids ≡ false → result ≡ None }
        ensures uses { AreUses self.now }
    {
        if id >= self.cap {
            return None;
        }
        let next = self.after[id as usize];
        if next == self.cap || next == id {
            return None;
        }
        Some(next)
    }

    /// The members, the oldest first, each found from the one before.
    pub fn oldest_first(&self) -> OldestFirst<'_, A>
        ensures order { result.order.now ≡ self.now }
        ensures left { result.left ≡ length self.now.ids }
        ensures uses { AreUses self.now }
        ensures next { result.next ≡ slice_get self.now.ids 0 }
    {
        OldestFirst {
            order: self,
            next: self.first(),
            left: self.len(),
        }
    }

    /// An id becomes the newest member, whether it was one or not.
    pub fn newest(&mut self, id: u32)
        requires { id < self.old.cap }
        ensures value { self.new ≡ record self.old { ids = newest id self.old.ids } }
        ensures uses { AreUses self.new }
    {
        self.to_end(id, End::Newest);
    }

    /// An id becomes the oldest member, whether it was one or not.
    pub fn oldest(&mut self, id: u32)
        requires { id < self.old.cap }
        ensures value { self.new ≡ record self.old { ids = oldest id self.old.ids } }
        ensures uses { AreUses self.new }
    {
        self.to_end(id, End::Oldest);
    }

    /// An id becomes the member at an end, whether it was one or not.
    pub fn to_end(&mut self, id: u32, end: End)
        requires { id < self.old.cap }
        ensures value { self.new ≡ record self.old { ids = at_end end id self.old.ids } }
        ensures uses { AreUses self.new }
    {
        self.remove(id);
        let front = match end {
            End::Oldest => self.cap,
            End::Newest => self.before[self.cap as usize],
        };
        exchange(&mut self.after, &mut self.before, front, id);
        self.members += 1;
    }

    /// An id is no member any more, if it was one.
    pub fn remove(&mut self, id: u32)
        ensures value { self.new ≡ record self.old { ids = without id self.old.ids } }
        ensures uses { AreUses self.new }
    {
        if id >= self.cap || self.after[id as usize] == id {
            return;
        }
        let front = self.before[id as usize];
        exchange(&mut self.after, &mut self.before, front, id);
        self.members -= 1;
    }

    /// An id that is no member takes the place of another, which is none any more. Where the other was
    /// none, nothing changes.
    pub fn rename(&mut self, id: u32, to: u32)
        requires id { id < self.old.cap }
        requires to { to < self.old.cap }
        requires free { is_member to self.old.ids ≡ false }
        ensures value { self.new ≡ record self.old { ids = renamed id to self.old.ids } }
        ensures uses { AreUses self.new }
    {
        let behind = self.after[id as usize];
        if behind == id {
            return;
        }
        let front = self.before[id as usize];
        relink(&mut self.after, front, id, to);
        relink(&mut self.before, behind, id, to);
    }
}

/// A table of the numbers up to `cap`, each linked to itself.
fn each_alone<A: Allocator>(alloc: A, cap: u32) -> Result<Vec<u32, A>, AllocError>
    ensures { IfOk result (λ links. links.items ≡ range_with_len 0 (cap + 1)) }
{
    let mut links = Vec::with_capacity(alloc, cap as usize + 1)?;
    for id in 0..=cap {
        links.push(id)?;
    }
    Ok(links)
}

/// Exchanges what comes behind `front` and behind `id`. So an id that was alone comes directly behind
/// `front`, and an id that was directly behind `front` is alone.
fn exchange(after: &mut [u32], before: &mut [u32], front: u32, id: u32)
    requires front { front < length after.old }
    requires id { id < length after.old }
    requires behind_front { slice_index after.old front < length before.old }
    requires behind_id { slice_index after.old id < length before.old }
    ensures after { after.new ≡ swap after.old front id }
    ensures before { before.new ≡ swap before.old (slice_index after.old front) (slice_index after.old id) }
{
    before.swap(after[front as usize] as usize, after[id as usize] as usize);
    after.swap(front as usize, id as usize);
}

/// Gives `to` the link of `id`, and `from`, which is linked to `id`, is linked to `to`. So `id` is alone.
fn relink(links: &mut [u32], from: u32, id: u32, to: u32)
    requires from { from < length links.old }
    requires id { id < length links.old }
    requires to { to < length links.old }
    ensures { links.new ≡ slice_set (slice_set (slice_set links.old to (slice_index links.old id)) from to) id id }
{
    links[to as usize] = links[id as usize];
    links[from as usize] = to;
    links[id as usize] = id;
}
