//! One heap of objects by id, over memory that its caller has: where each object's bytes stand, which keep their address, and the order of
//! use by which discardable ones are discarded.
//!
//! An id has no object, an absent one, or one with bytes. What is proved of the calls is stated over the heap that the arena's table stands
//! for in a memory. No call but [`Arena::new`] takes memory of the host.
#![tactic(auto)]

ghost use Rattle.std.specs.Prelude.{◌≡◌, ◌≢◌, ◌<◌, ◌≤◌, ◌⊎◌, ℕ, [], length, replicate, slice_get, Some, None, IfOk, IfSome, IfNone};
ghost use Rattle.w16_model.specs.Changes.{without};
ghost use Rattle.w16_model.specs.Heap.{IsMultiple};
ghost use Rattle.w16_model.specs.Table.{block_with, entry_at, IsSound};
ghost use Rattle.w16_holes.specs.Holes.{add_span};
ghost use Rattle.w16_arena.specs.State.{empty_table, holes_in};

mod bytes;
mod discards;
mod ends;
mod growth;
mod in_place;
mod modify;
mod new_place;
mod objects;
mod reallocate;
mod rename;
mod requests;
mod walk;
mod without_discard;

pub use new_place::Placed;
pub use requests::NoRoom;
use std::alloc::{AllocError, Allocator};
use std::marker::Model;
use w16_blocks::Blocks;
use w16_compact::GapRooms;
use w16_holes::{HoleList, Holes};
use w16_lru::Order;
use w16_model::{Block, Entry, Span};
use w16_region::Space;
pub use without_discard::Compacted;

/// Objects by id, without their bytes. One whose entry has no block is absent.
#[derive(Drop)]
pub struct Arena<H: HoleList> {
    /// By id.
    pub(crate) entries: Vec<Option<Entry>, H::Alloc>,
    pub(crate) blocks: Blocks<H>,
    /// The discardable objects with bytes.
    pub(crate) order: Order<H::Alloc>,
    /// For the search of those to discard.
    pub(crate) gap_rooms: GapRooms<H::Alloc>,
    /// What the last request discarded.
    pub(crate) discarded: Vec<u32, H::Alloc>,
}

impl<H: HoleList> Model for Arena<H> {
    ghost use Rattle.std.specs.Prelude.{vec_capacity};
    ghost use Rattle.w16_arena.specs.State.{ArenaState, table_of};
    ghost use Rattle.w16_arena.specs.Representation.{ArenaInvariant};

    ghost Value = { ArenaState };

    ghost view = { λ s. record { table = table_of s.entries.items s.blocks s.order.ids; discarded = s.discarded.items } };

    ghost invariant = { λ s. ArenaInvariant s.entries.items s.blocks s.order s.gap_rooms (vec_capacity s.discarded) };
}

impl<H: HoleList> Arena<H> {
    /// No object yet, of ids below `cap`, between `lo` and `hi`, at multiples of the grain. `holes` have all of that as one hole. An error
    /// is that there was no memory.
    pub fn new(
        alloc: H::Alloc,
        cap: u32,
        holes: H,
        lo: u32,
        hi: u32,
        grain: u32,
    ) -> Result<Arena<H>, AllocError>
    where
        H: Drop,
        requires bounds { lo ≤ hi }
        requires some { 0 < grain }
        requires grained { IsMultiple grain lo }
        requires range { H.range holes ≡ record { lo = lo; hi = hi; grain = grain } }
        requires whole { H.holes holes ≡ add_span lo hi [] }
        ensures { IfOk result (λ made. made ≡ record { table = empty_table cap lo hi grain; discarded = [] }) }
    {
        let entries = no_entries(alloc, cap)?;
        let blocks = Blocks::with_room(alloc, cap, holes, lo, hi, grain)?;
        let order = Order::with_room(alloc, cap)?;
        let gap_rooms = GapRooms::with_room(alloc, cap)?;
        let discarded = Vec::with_capacity(alloc, cap as usize)?;
        Ok(Arena {
            entries,
            blocks,
            order,
            gap_rooms,
            discarded,
        })
    }

    /// How many ids there are, from 0.
    pub fn cap(&self) -> u32
        ensures { result ≡ length self.now.table.entries }
    {
        self.blocks.cap()
    }

    /// What the objects stand between, in bytes of the memory.
    pub fn bounds(&self) -> Span
        ensures { result ≡ record { from = self.now.table.lo; to = self.now.table.hi } }
    {
        self.blocks.bounds()
    }

    /// How many objects the order of use has beside one, which needn't be in it.
    pub fn order_len_without(&self, id: u32) -> usize
        ensures { result ≡ length (without id self.now.table.order) }
    {
        self.order.len_without(id)
    }

    /// The i-th object of the order of use, the least recently used first, from 0; none after the last. It goes over those before it.
    pub fn in_order(&self, i: usize) -> Option<u32>
        ensures { result ≡ slice_get self.now.table.order i }
    {
        self.order.nth(i)
    }

    /// What is known of an object beside its bytes, if it is there.
    pub fn entry(&self, id: u32) -> Option<Entry>
        ensures value { result ≡ entry_at self.now.table id }
        ensures sound { IsSound self.now.table }
    {
        self.entries.get(id as usize).copied().flatten()
    }

    /// An object's block, if it has bytes.
    pub fn block(&self, id: u32) -> Option<Block>
        ensures value { result ≡ block_with self.now.table.blocks id }
        ensures sound { IsSound self.now.table }
    {
        if id >= self.blocks.cap() {
            return None;
        }
        self.blocks.find(id)
    }

    /// The block that begins at an address, if one does.
    pub fn block_beginning_at(&self, place: u32) -> Option<Block>
        ensures found { IfSome result (λ b. (b.at ≡ place) × (block_with self.now.table.blocks b.id ≡ Some b)) }
        ensures none { IfNone result ((q : ℕ) → IfSome (block_with self.now.table.blocks q) (λ c. c.at ≢ place)) }
        ensures sound { IsSound self.now.table }
    {
        self.blocks.beginning_at(place)
    }

    /// The lowest block at or above an address, if there is one.
    pub fn next_block<S: Space>(&self, space: &S, from: u32) -> Option<Block>
    where
        H: Holes<S>,
        requires kept { H.are_in (holes_in self.now.table) (S.bytes space.now) }
        ensures found { IfSome result (λ b. (from ≤ b.at) × (block_with self.now.table.blocks b.id ≡ Some b)) }
        ensures lowest { IfSome result (λ b. (q : ℕ) → IfSome (block_with self.now.table.blocks q) (λ c. (c.at < from) ⊎ (b.at ≤ c.at))) }
        ensures none { IfNone result ((q : ℕ) → IfSome (block_with self.now.table.blocks q) (λ c. c.at < from)) }
        ensures sound { IsSound self.now.table }
    {
        self.blocks.next_from(space, from)
    }

    /// The ids that the last request discarded, oldest first.
    pub fn discarded(&self) -> &[u32]
        ensures { result.now ≡ self.now.discarded }
    {
        &self.discarded
    }
}

/// The entries of so many ids, where no object is yet.
fn no_entries<A: Allocator>(alloc: A, cap: u32) -> Result<Vec<Option<Entry>, A>, AllocError>
    ensures { IfOk result (λ entries. entries.items ≡ replicate cap None) }
{
    vec![in alloc; None; cap as usize]
}
