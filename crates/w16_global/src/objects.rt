//! The objects of the global heap: an arena over memory of its own.
ghost use Rattle.std.specs.Prelude.{◌≡◌, ◌≢◌, ◌+◌, ◌-◌, ◌%◌, ◌^◌, ◌<◌, ◌≤◌, ◌⊎◌, ℕ, [], Ok, Err, None, Some, length, IfOk, IfErr, OnOk, IfSome, IfNone, IsSomeAnd, option_map, unwrap_or, is_some, take, if◌then◌else◌, IsSome, slice_get};
ghost use Rattle.std.specs.FinMap as finmap;
ghost use Rattle.std.specs.Borrow.{sem};
ghost use Rattle.w16_region.specs.Lending.{LendsWhole};
ghost use Rattle.w16_model.specs.{Heap.IsHeap, Heap.IsMultiple, Heap.bytes_at, Heap.object_at, Law.IsFirstItem, Law.by_its_id, Law.empty_heap};
ghost use Rattle.w16_model.specs.Changes.{with_object, removed, without};
ghost use Rattle.w16_model.specs.Request.{Allocates, Compacts, Reallocates, compaction_prefix, moved_bytes};
ghost use Rattle.w16_model.specs.OneObject.{after_discard, after_modify, after_lock, after_unlock, after_touch, after_newest, after_oldest};
ghost use Rattle.w16_model.specs.Far.{after_write};
ghost use Rattle.w16_model.specs.Resizes.{rehoused};
ghost use Rattle.w16_model.specs.Walk.{IsItem};
ghost use Rattle.w16_model.specs.Bytes.{part};
ghost use Rattle.w16_region.specs.Bytes.{counted};
ghost use Rattle.w16_arena.specs.State.{entry_of};
ghost use Rattle.w16_arena.specs.Asked.{HasDiscarded, HasDiscardedFor, IsStill, first_eligible};
ghost use Rattle.w16_global.specs.Lent.{Lends};
ghost use Rattle.w16_global.specs.Parts.{HasPart};
ghost use Rattle.w16_global.specs.Shown.{ShowsObjects};

use crate::lend::{Work, work_over};
use crate::loan::lend_part;
use std::alloc::{AllocError, Allocator};
use std::marker::Model;
use w16_arena::{Arena, Compacted, Placed};
use w16_holes::ThreadedHoles;
use w16_model::{Block, Entry, GRAIN, Item, Kind, Refusal, RoomOptions};
use w16_region::{Region, Space, reveal_bytes};

/// The objects of the global heap: where they are, and their bytes. Its holes are kept in the free bytes.
#[derive(Drop)]
pub(crate) struct Objects<A: Allocator + Copy> {
    arena: Arena<ThreadedHoles<A>>,
    memory: Region<A>,
}

impl<A: Allocator + Copy> Model for Objects<A> {
    ghost use Rattle.w16_global.specs.Parts.{Holding, holding_code, holding_of, AreParts};

    ghost Value = { Holding };

    ghost coded = { holding_code };

    ghost view = { λ s. holding_of s.arena s.memory.bytes.items s.memory.written };

    ghost invariant = { λ s. AreParts s.arena s.memory.bytes.items };
}

impl<A: Allocator + Copy> Objects<A> {
    ghost use Rattle.w16_global.specs.contracts.objects.Objects.{the_row};
    ghost use Rattle.w16_global.specs.Loans.{after_lent};

    /// No object yet, ids below `cap`, and so many bytes of memory, a multiple of the grain.
    pub fn new(alloc: A, cap: u32, size: u32) -> Result<Objects<A>, AllocError>
        requires few { cap ≤ 8192 }
        requires grained { size % GRAIN ≡ 0 }
        ensures { IfOk result (λ made. made ≡ record { cap = cap; heap = empty_heap 0 size GRAIN; discarded = []; written = 0 }) }
    {
        let mut memory = Region::new(alloc, size)?;
        let holes = ThreadedHoles::new(alloc, &mut memory, 0, size, GRAIN)?;
        let arena = Arena::new(alloc, cap, holes, 0, size, GRAIN)?;
        reveal_bytes(&memory);
        Ok(Objects { arena, memory })
    }

    /// What is known of an object beside its bytes, if it is there.
    pub fn entry(&self, id: u32) -> Option<Entry>
        ensures value { result ≡ option_map entry_of (object_at self.now.heap id) }
        ensures sound { IsHeap self.now.heap }
        ensures low { self.now.heap.lo ≡ 0 }
        ensures grain { self.now.heap.grain ≡ GRAIN }
    {
        self.arena.entry(id)
    }

    /// The size of an object, if it has bytes.
    pub fn size(&self, id: u32) -> Option<u32>
        ensures { result ≡ option_map length (bytes_at self.now.heap id) }
    {
        self.arena.block(id).map(|block| block.size)
    }

    /// How many discardable objects with bytes there are beside one.
    pub fn discardable_beside(&self, id: u32) -> usize
        ensures { result ≡ length (without id self.now.heap.order) }
    {
        self.arena.order_len_without(id)
    }

    /// The i-th object of the order of use, the least recently used first, from 0; none after the last.
    pub fn in_order(&self, i: usize) -> Option<u32>
        ensures { result ≡ slice_get self.now.heap.order i }
    {
        self.arena.in_order(i)
    }

    /// The lowest block at or above an address, if there is one.
    pub fn next_block(&self, from: u32) -> Option<Block>
        ensures found { IfSome result (λ b. (from ≤ b.at) × (finmap.get self.now.heap.places b.id ≡ Some b.at) × (option_map length (bytes_at self.now.heap b.id) ≡ Some b.size)) }
        ensures lowest { IfSome result (λ b. (q : ℕ) → IfSome (finmap.get self.now.heap.places q) (λ at. (at < from) ⊎ (b.at ≤ at))) }
        ensures none { IfNone result ((q : ℕ) → IfSome (finmap.get self.now.heap.places q) (λ at. at < from)) }
        ensures inside { IfSome result (λ b. (0 < b.size) × (b.at + b.size < 2 ^ 32)) }
        ensures sound { IsHeap self.now.heap }
    {
        self.arena.next_block(&self.memory, from)
    }

    /// The first part of the heap that begins at an address or above it, named by ids.
    pub fn walk_from(&self, from: u32) -> Option<Item>
        ensures found { IsFirstItem by_its_id self.now.heap from result }
        ensures inside { IfSome result (λ item. (0 < item.size) × (item.at + item.size < 2 ^ 32)) }

        // No part begins inside it.
        ensures apart { IfSome result (λ item. (other : Item) → IsItem by_its_id self.now.heap other → item.at < other.at → item.at + item.size ≤ other.at) }
    {
        self.arena.walk_from(&self.memory, from)
    }

    /// A new object of so many bytes, a multiple of the grain, if there is room for it as the options have it.
    pub fn alloc(&mut self, id: u32, size: u32, kind: Kind, options: RoomOptions) -> Option<Placed>
        requires id { id < self.old.cap }
        requires free { object_at self.old.heap id ≡ None }
        requires some { 0 < size }
        requires rounded { IsMultiple GRAIN size }
        ensures allocated { Allocates self.old.heap id size kind 0 options (is_some result) self.new.heap }
        ensures placed { IfSome result (λ p. finmap.get self.new.heap.places id ≡ Some p.at) }
        ensures inside { IfSome result (λ p. p.at + size < 2 ^ 32) }
        ensures discarded { IfSome result (λ _. HasDiscarded self.old.heap id size options self.new.discarded) }
        ensures still { IfSome result (λ p. (q : ℕ) → q ≢ id → IsStill p.slid self.old.heap self.new.heap q) }
        ensures moved { IfSome result (λ p. p.moved ≡ moved_bytes self.old.heap self.new.heap) }
        ensures few { IfSome result (λ p. p.moved < 2 ^ 32) }
        ensures written { IfSome result (λ p. self.new.written ≡ counted (counted self.old.written p.moved) (if options.zero then size else 0)) }
        ensures cap { self.new.cap ≡ self.old.cap }
        ensures refused { IfNone result (self.new ≡ self.old) }
    {
        let placed = self
            .arena
            .alloc(&mut self.memory, id, size, kind, options)
            .ok()?;
        reveal_bytes(&self.memory);
        Some(placed)
    }

    /// So many bytes for an object that is there, above 0 and a multiple of the grain, if there is room for them as the options have it.
    pub fn realloc(&mut self, id: u32, size: u32, options: RoomOptions) -> Option<Placed>
        requires object { IsSome (object_at self.old.heap id) }
        requires some { 0 < size }
        requires rounded { IsMultiple GRAIN size }
        ensures reallocated { Reallocates self.old.heap id size options (is_some result) self.new.heap }
        ensures placed { IfSome result (λ p. finmap.get self.new.heap.places id ≡ Some p.at) }
        ensures inside { IfSome result (λ p. p.at + size < 2 ^ 32) }
        ensures discarded { IfSome result (λ _. HasDiscardedFor self.old.heap id size options self.new.discarded) }
        ensures still { IfSome result (λ p. (q : ℕ) → q ≢ id → IsStill p.slid self.old.heap self.new.heap q) }
        ensures moved { IfSome result (λ p. p.moved ≡ moved_bytes self.old.heap self.new.heap) }
        ensures few { IfSome result (λ p. p.moved < 2 ^ 32) }
        ensures written { IfSome result (λ p. self.new.written ≡ counted (counted self.old.written p.moved)
            (if options.zero then size - unwrap_or (option_map length (bytes_at self.old.heap id)) 0 else 0)) }
        ensures cap { self.new.cap ≡ self.old.cap }
        ensures refused { IfNone result (self.new ≡ self.old) }
    {
        let place = self
            .arena
            .realloc(&mut self.memory, id, size, options)
            .ok()?;
        reveal_bytes(&self.memory);
        Some(place)
    }

    /// The ids that the last request discarded, oldest first.
    pub fn discarded(&self) -> &[u32]
        ensures { result.now ≡ self.now.discarded }
    {
        self.arena.discarded()
    }

    /// Makes room for `n` bytes, and answers the length of the longest hole that there is then. For 0 bytes it only answers what could be made
    /// (GlobalCompact).
    pub fn compact(&mut self, n: u32) -> Compacted
        ensures compacted { Compacts self.old.heap n result.room self.new.heap }
        ensures discarded { 0 < n → self.new.discarded ≡ first_eligible self.old.heap (compaction_prefix self.old.heap n) None }
        ensures none { n ≡ 0 → self.new.discarded ≡ [] }
        ensures still { (q : ℕ) → IsStill result.slid self.old.heap self.new.heap q }
        ensures moved { result.moved ≡ moved_bytes self.old.heap self.new.heap }
        ensures few { result.moved < 2 ^ 32 }
        ensures written { self.new.written ≡ counted self.old.written result.moved }
        ensures cap { self.new.cap ≡ self.old.cap }
    {
        let compacted = self.arena.compact(&mut self.memory, n);
        reveal_bytes(&self.memory);
        compacted
    }

    /// A new object that is absent.
    pub fn enter(&mut self, id: u32, kind: Kind)
        requires id { id < self.old.cap }
        requires free { object_at self.old.heap id ≡ None }
        ensures { self.new ≡ record self.old { heap = with_object self.old.heap id (record { kind = kind; locks = 0; bytes = None }) } }
    {
        self.arena.enter(id, kind);
    }

    /// An object gets another slot, which none has. It stays what it is, where it stands, and when it was used.
    pub fn rehouse(&mut self, id: u32, to: u32)
        requires object { IsSome (object_at self.old.heap id) }
        requires inside { to < self.old.cap }
        requires free { object_at self.old.heap to ≡ None }
        ensures { self.new ≡ record self.old { heap = rehoused self.old.heap id to } }
    {
        self.arena.rename(id, to);
        reveal_bytes(&self.memory);
    }

    /// Takes an object away, absent or not, locked or not.
    pub fn release(&mut self, id: u32)
        ensures { self.new ≡ record self.old { heap = removed self.old.heap id } }
    {
        self.arena.release(&mut self.memory, id);
        reveal_bytes(&self.memory);
    }

    /// A discardable object that isn't locked gives up its bytes, if it has any.
    pub fn discard(&mut self, id: u32) -> Result<(), Refusal>
        ensures ok { OnOk result (after_discard self.old.heap id ≡ Ok self.new.heap) }
        ensures err { IfErr result (λ r. (after_discard self.old.heap id ≡ Err r) × (self.new ≡ self.old)) }
        ensures cap { self.new.cap ≡ self.old.cap }
        ensures written { self.new.written ≡ self.old.written }
    {
        let discarded = self.arena.discard(&mut self.memory, id);
        reveal_bytes(&self.memory);
        discarded
    }

    /// A moveable object becomes discardable, or a discardable one moveable. A fixed one stays so, and none becomes fixed.
    pub fn modify(&mut self, id: u32, kind: Kind) -> Result<(), Refusal>
        ensures ok { OnOk result (after_modify self.old.heap id kind ≡ Ok self.new.heap) }
        ensures err { IfErr result (λ r. (after_modify self.old.heap id kind ≡ Err r) × (self.new ≡ self.old)) }
        ensures cap { self.new.cap ≡ self.old.cap }
        ensures written { self.new.written ≡ self.old.written }
    {
        self.arena.modify(id, kind)
    }

    /// One lock more. An absent object isn't locked, a fixed one counts none, and a count of 255 is full.
    pub fn lock(&mut self, id: u32) -> Result<(), Refusal>
        ensures ok { OnOk result (after_lock self.old.heap id ≡ Ok self.new.heap) }
        ensures err { IfErr result (λ r. (after_lock self.old.heap id ≡ Err r) × (self.new ≡ self.old)) }
        ensures cap { self.new.cap ≡ self.old.cap }
        ensures written { self.new.written ≡ self.old.written }
    {
        self.arena.lock(id)
    }

    /// One lock less, if there is one. A fixed object counts none.
    pub fn unlock(&mut self, id: u32) -> Result<(), Refusal>
        ensures ok { OnOk result (after_unlock self.old.heap id ≡ Ok self.new.heap) }
        ensures err { IfErr result (λ r. (after_unlock self.old.heap id ≡ Err r) × (self.new ≡ self.old)) }
        ensures cap { self.new.cap ≡ self.old.cap }
        ensures written { self.new.written ≡ self.old.written }
    {
        self.arena.unlock(id)
    }

    /// An object was used: a discardable one with bytes becomes the newest.
    pub fn touch(&mut self, id: u32)
        ensures { self.new ≡ record self.old { heap = after_touch self.old.heap id } }
    {
        self.arena.touch(id);
    }

    /// A discardable object with bytes becomes the newest in the order of use.
    pub fn to_newest(&mut self, id: u32) -> Result<(), Refusal>
        ensures ok { OnOk result (after_newest self.old.heap id ≡ Ok self.new.heap) }
        ensures err { IfErr result (λ r. (after_newest self.old.heap id ≡ Err r) × (self.new ≡ self.old)) }
        ensures cap { self.new.cap ≡ self.old.cap }
        ensures written { self.new.written ≡ self.old.written }
    {
        self.arena.to_newest(id)
    }

    /// A discardable object with bytes becomes the oldest in the order of use.
    pub fn to_oldest(&mut self, id: u32) -> Result<(), Refusal>
        ensures ok { OnOk result (after_oldest self.old.heap id ≡ Ok self.new.heap) }
        ensures err { IfErr result (λ r. (after_oldest self.old.heap id ≡ Err r) × (self.new ≡ self.old)) }
        ensures cap { self.new.cap ≡ self.old.cap }
        ensures written { self.new.written ≡ self.old.written }
    {
        self.arena.to_oldest(id)
    }

    /// A part of an object's bytes, from an offset on.
    pub fn part(&self, id: u32, at: u32, n: u32) -> &[u8]
        requires { HasPart self.now.heap id at n }
        ensures { result.now ≡ part (unwrap_or (bytes_at self.now.heap id) []) at n }
    {
        let Some(block) = self.arena.block(id) else {
            unreachable!();
        };
        self.memory.view(block.at + at, n)
    }

    /// The whole memory.
    pub fn memory(&self) -> &[u8]
        ensures shown { ShowsObjects result.now self.now.heap }
        ensures long { length result.now ≡ self.now.heap.hi }
    {
        self.memory.view(0, self.memory.len())
    }

    /// A part of an object's bytes, from an offset on, lent to be written.
    pub fn lend(&mut self, id: u32, at: u32, n: u32) -> &mut [u8]
        requires { HasPart self.old.heap id at n }
        ensures value { result.now ≡ part (unwrap_or (bytes_at self.old.heap id) []) at n }
        ensures* writes_back { sem 𝓛 (LendsWhole (the_row A.row A.Allocator A.Clone) (after_lent id at n) self.entry result) }
    {
        let Some(block) = self.arena.block(id) else {
            unreachable!();
        };
        lend_part(&mut self.memory, block.at + at, n)
    }

    /// Does a work on an object's bytes.
    pub fn with_bytes<T, W: Work<T>>(&mut self, id: u32, work: &W, state: &mut T) -> W::Answer
        requires { IsSomeAnd (bytes_at self.old.heap id) (λ bytes. W.may work.now state.old bytes) }
        ensures { (lent : Lends self.old.heap id (λ bytes after. (count : ℕ) × W.does work.now state.old bytes result state.new after 0 count))
            × (self.new ≡ record self.old { heap = after_write self.old.heap id 0 lent.after; written = counted self.old.written (length lent.bytes) }) }
    {
        let Some(size) = self.size(id) else {
            unreachable!();
        };
        work_over(work, state, self.lend(id, 0, size))
    }

    /// How many bytes of the memory were slid, filled or lent to be written so far.
    pub fn written(&self) -> u64
        ensures { result ≡ self.now.written }
    {
        self.memory.written()
    }
}
