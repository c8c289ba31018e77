//! Holes in the memory itself.
ghost use Rattle.std.specs.Prelude.{◌≡◌, ◌+◌, ◌-◌, ◌<◌, ◌≤◌, [], length, IfOk, IfErr, IfSome};
ghost use Rattle.w16_model.specs.Heap.{IsMultiple};
ghost use Rattle.w16_model.specs.Table.{IsSameOutside};
ghost use Rattle.w16_model.specs.Bytes.{part};
ghost use Rattle.w16_region.specs.Bytes.{counted};
ghost use Rattle.w16_holes.specs.Holes.{AreHoles, AreSameBut, IsFree, IsPart, IsPlace, last_before, slid_down, add_span};
ghost use Rattle.w16_holes.specs.Thread.{AreThreaded, MayPass, first_of, next_above, put_words, put_hole, put_link, threaded_stay};

use crate::{HoleList, Holes, SideHoles};
use std::alloc::{AllocError, Allocator, Global};
use std::marker::Model;
use w16_region::{Region, Space};

/// What the last hole has in place of the next.
const NO_HOLE: u32 = 0xffff_ffff;

/// Writes a hole's two words: its size, and where the next one begins.
fn set_words<A: Allocator>(space: &mut Region<A>, at: u32, size: u32, next: u32)
    requires { at + 8 ≤ length space.old.bytes.items }
    ensures bytes { space.new.bytes.items ≡ put_words space.old.bytes.items at size next }
    ensures length { length space.new.bytes.items ≡ length space.old.bytes.items }
    ensures written { space.new.written ≡ space.old.written }
{
    space.set_word(at, size);
    space.set_word(at + 4, next);
}

/// Makes what lies between two places a hole before the hole `next`, if anything lies there, and
/// tells which hole is the first from there on.
fn set_hole<A: Allocator>(space: &mut Region<A>, from: u32, to: u32, next: u32) -> u32
    requires { from < to → from + 8 ≤ length space.old.bytes.items }
    ensures bytes { space.new.bytes.items ≡ put_hole space.old.bytes.items from to next }
    ensures first { result ≡ first_of next (add_span from to []) }
    ensures length { length space.new.bytes.items ≡ length space.old.bytes.items }
    ensures written { space.new.written ≡ space.old.written }
{
    if from < to {
        set_words(space, from, to - from, next);
        return from;
    }
    next
}

/// Links a hole, if there is one, to another.
fn link<A: Allocator>(space: &mut Region<A>, hole: Option<u32>, next: u32)
    requires { IfSome hole (λ at. at + 8 ≤ length space.old.bytes.items) }
    ensures bytes { space.new.bytes.items ≡ put_link space.old.bytes.items hole next }
    ensures length { length space.new.bytes.items ≡ length space.old.bytes.items }
    ensures written { space.new.written ≡ space.old.written }
{
    if let Some(begin) = hole {
        space.set_word(begin + 4, next);
    }
}

/// Where the first hole begins that begins above a place, `NO_HOLE` where none does, by the last
/// one that begins below it.
fn next_above<A: Allocator + Copy>(
    side: &SideHoles<A>,
    space: &Region<A>,
    place: u32,
    below: Option<u32>,
) -> u32
    requires place { IsPlace side.now.range place }
    requires below { below ≡ last_before place side.now.holes }
    requires ordered { AreHoles side.now.range.lo side.now.range.hi side.now.holes }
    requires kept { AreThreaded side.now.holes space.now.bytes.items }
    ensures { result ≡ next_above place side.now.holes }
{
    if side.at(space, place) > 0 {
        return space.word_at(place + 4);
    }
    match below {
        Some(begin) => space.word_at(begin + 4),
        None => side.lowest(space, 0).unwrap_or(NO_HOLE),
    }
}

/// Where the hole begins that has a part, by the last one that begins below it.
fn hole_of<A: Allocator + Copy>(
    side: &SideHoles<A>,
    space: &Region<A>,
    place: u32,
    n: u32,
    below: Option<u32>,
) -> Option<u32>
    requires part { IsPart side.now.range place n }
    requires free { IsFree place (place + n) side.now.holes }
    requires below { below ≡ last_before place side.now.holes }
    requires ordered { AreHoles side.now.range.lo side.now.range.hi side.now.holes }
    ensures { result ≡ last_before (place + n) side.now.holes }
{
    if side.at(space, place) > 0 {
        return Some(place);
    }
    below
}

/// Slides `n` used bytes down over the whole hole that lies between. The hole then lies behind them, joined with the one that began there, if one
/// did: so one link changes, and its words are written there.
fn pass<A: Allocator + Copy>(
    side: &mut SideHoles<A>,
    space: &mut Region<A>,
    from: u32,
    to: u32,
    n: u32,
)
    requires { MayPass side.old space.old.bytes.items from to n }
    ensures holes { side.new.holes ≡ slid_down from to n side.old.holes }
    ensures range { side.new.range ≡ side.old.range }
    ensures kept { AreThreaded side.new.holes space.new.bytes.items }
    ensures contents { part space.new.bytes.items to n ≡ part space.old.bytes.items from n }
    ensures bytes { AreSameBut to n side.old.holes side.new.holes space.old.bytes.items space.new.bytes.items }
    ensures written { space.new.written ≡ counted space.old.written n }
{
    let below = side.below(to);
    let next = next_above(side, space, from + n, Some(to));
    let end = from + n + side.at(space, from + n);
    link(space, below.begin, to + n);
    space.slide(from, to, n);
    set_words(space, to + n, end - (to + n), next);
    side.pass(from, to, n);
}

/// Holes in the memory itself, as a thread through the free bytes: each hole has its size as a
/// double word where it begins, and behind it as another where the next hole begins, FFFFFFFF for
/// the last. Both have their lowest byte first.
///
/// The thread is what is promised. Beside it lengths are kept as [`SideHoles`] keeps them, so that
/// a hole, and the one below it, are found without a walk.
#[derive(Drop)]
pub struct ThreadedHoles<A: Allocator = Global> {
    side: SideHoles<A>,
}

impl<A: Allocator> Model for ThreadedHoles<A> {
    ghost use Rattle.w16_holes.specs.Holes.{Free};
    ghost use Rattle.w16_holes.specs.Thread.{HasRoom};

    ghost Value = { Free };

    ghost view = { λ s. s.side };

    ghost invariant = { λ s. HasRoom s.side.range };
}

impl<A: Allocator> ThreadedHoles<A> {
    /// The range [lo, hi) of a memory, all free, at multiples of the grain, which is a multiple of
    /// 8: so each hole has room for its two words. Only they are written. What stands beside the
    /// memory is taken here, all that it ever has; fails where there is not enough, and then
    /// nothing is written.
    pub fn new(
        alloc: A,
        space: &mut Region<A>,
        lo: u32,
        hi: u32,
        grain: u32,
    ) -> Result<ThreadedHoles<A>, AllocError>
        requires bounds { lo ≤ hi }
        requires inside { hi ≤ length space.old.bytes.items }
        requires some { 0 < grain }
        requires low { IsMultiple grain lo }
        requires high { IsMultiple grain hi }
        requires wide { IsMultiple 8 grain }
        ensures value { IfOk result (λ made. made ≡ record { range = record { lo = lo; hi = hi; grain = grain }; holes = add_span lo hi [] }) }
        ensures kept { IfOk result (λ made. AreThreaded made.holes space.new.bytes.items) }
        ensures bytes { IsSameOutside lo hi space.old.bytes.items space.new.bytes.items }
        ensures length { length space.new.bytes.items ≡ length space.old.bytes.items }
        ensures written { space.new.written ≡ space.old.written }
        ensures err { IfErr result (λ _. space.new.bytes.items ≡ space.old.bytes.items) }
    {
        let side = SideHoles::new(alloc, lo, hi, grain)?;
        set_hole(space, lo, hi, NO_HOLE);
        Ok(ThreadedHoles { side })
    }
}

impl<A: Allocator + Copy> HoleList for ThreadedHoles<A> {
    type Alloc = A;

    ghost range = { λ h. h.range };

    ghost holes = { λ h. h.holes };

    fn set_end(&mut self, end: u32) {
        self.side.set_end(end);
    }
}

impl<A: Allocator + Copy> Holes<Region<A>> for ThreadedHoles<A> {
    ghost are_in = { λ hs bytes. AreThreaded hs bytes };

    ghost stay = { λ hs old new kept same. threaded_stay hs old new kept same };

    fn lowest(&self, space: &Region<A>, n: u32) -> Option<u32> {
        self.side.lowest(space, n)
    }

    fn at(&self, space: &Region<A>, place: u32) -> u32 {
        self.side.at(space, place)
    }

    fn ending_at(&self, space: &Region<A>, place: u32) -> u32 {
        self.side.ending_at(space, place)
    }

    fn longest(&self, space: &Region<A>) -> u32 {
        self.side.longest(space)
    }

    fn take(&mut self, space: &mut Region<A>, place: u32, n: u32) {
        let below = self.side.below(place);
        if let Some(begin) = hole_of(&self.side, space, place, n, below.begin) {
            let end = begin + space.word_at(begin);
            let next = space.word_at(begin + 4);
            let behind = set_hole(space, place + n, end, next);
            link(space, below.begin, behind);
            // Where nothing stays free before the part, these four bytes are the part's own.
            space.set_word(begin, place - begin);
            self.side.take_out(place, n, below.unit);
        }
    }

    fn put(&mut self, space: &mut Region<A>, place: u32, n: u32) {
        let below = self.side.below(place);
        let next = next_above(&self.side, space, place + n, below.begin);
        let end = place + n + self.side.at(space, place + n);
        let from = place - self.side.length_below(place, below.unit);
        // Where the hole below is joined, its words are written anew after this.
        link(space, below.begin, from);
        set_words(space, from, end - from, next);
        self.side.put_back(place, n, below.unit);
    }

    fn slide_down(&mut self, space: &mut Region<A>, from: u32, to: u32, size: u32) {
        self.side.reveal_order();
        if self.side.at(space, to) == from - to {
            pass(&mut self.side, space, from, to, size);
        } else {
            let apart = size.min(from - to);
            self.take(space, to, apart);
            space.slide(from, to, size);
            self.put(space, from + size - apart, apart);
        }
    }
}
