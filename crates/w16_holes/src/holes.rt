//! What code over holes is generic in.
ghost use Rattle.std.specs.Prelude.{◌≡◌, ◌+◌, ◌<◌, ◌≤◌, List, ℕ, length};
ghost use Rattle.w16_model.specs.Bytes.{part};
ghost use Rattle.w16_region.specs.Bytes.{counted};
ghost use Rattle.w16_model.specs.declared.Span.{Span};
ghost use Rattle.w16_holes.specs.Holes.{Range, AreHoles, IsFree, IsUsed, IsPlace, IsPart, lowest, length_at, length_to, longest, taken, joined, slid_down, AreSameIn, AreSameOutside, AreSameBut};

use std::alloc::Allocator;
use w16_region::Space;

/// The highest end that a range may be given later, in bytes: where a segment of the largest size ends.
pub const LAST_END: u32 = 65_536;

/// What is known of holes apart from any space: their range, and the list of them by address.
pub trait HoleList {
    /// Where memory comes from that is kept beside them.
    type Alloc: Allocator + Copy;

    /// The bounds of the range, and its grain.
    ghost range: { Self → Range };

    /// The holes, by address.
    ghost holes: { Self → List Span };

    /// Moves the end of the range up to `end`, at most [`LAST_END`]. No hole has a byte of what is new until `put` makes it one. No memory
    /// is taken.
    fn set_end(&mut self, end: u32)
        requires later { (range self.old).hi ≤ end }
        requires reserved { end ≤ LAST_END }
        ensures range { range self.new ≡ record (range self.old) { hi = end } }
        ensures holes { holes self.new ≡ holes self.old };
}

/// The holes of a range of a space: its parts that are free, by address. No two touch.
///
/// They may be kept beside the space, or in the free bytes themselves, as a thread from hole to
/// hole. So each call is lent the space, and what it promises is the same for both:
/// - `are_in` says what a list of holes leaves in the bytes of a space, as its thread, and nothing
///   where the holes are kept beside it. Each call asks for it, and `take` and `put` leave it.
/// - It speaks of lists of holes and of bytes alone, so that who keeps other lists that tell the
///   holes, as blocks do, can say it of those.
/// - `take` and `put` change bytes of holes alone: of those before `take`, of those after `put`. So
///   no byte in use is written, and links, which `written` doesn't count, may be. `slide_down` is a
///   slide between the two, in one call.
/// - Who writes elsewhere keeps the holes: `stay` asks only that the bytes in the holes do.
pub trait Holes<S: Space>: HoleList {
    /// What is kept of a list of holes in the bytes of a space.
    ghost are_in: { List Span → List ℕ → Type 0 };

    /// Where the lowest hole of at least `n` bytes begins. Each hole has a byte, so for 0 it is the
    /// lowest there is.
    fn lowest(&self, space: &S, n: u32) -> Option<u32>
        requires { are_in (Self.holes self.now) (S.bytes space.now) }
        ensures { result ≡ lowest n (Self.holes self.now) };

    /// The length of the hole that begins at a place, 0 where none does.
    fn at(&self, space: &S, place: u32) -> u32
        requires kept { are_in (Self.holes self.now) (S.bytes space.now) }
        requires place { IsPlace (Self.range self.now) place }
        ensures { result ≡ length_at place (Self.holes self.now) };

    /// The length of the hole that ends at a place, 0 where none does.
    fn ending_at(&self, space: &S, place: u32) -> u32
        requires kept { are_in (Self.holes self.now) (S.bytes space.now) }
        requires place { IsPlace (Self.range self.now) place }
        ensures { result ≡ length_to place (Self.holes self.now) };

    /// The length of the longest hole, 0 where there is none.
    fn longest(&self, space: &S) -> u32
        requires { are_in (Self.holes self.now) (S.bytes space.now) }
        ensures value { result ≡ longest (Self.holes self.now) }
        ensures ordered { AreHoles (Self.range self.now).lo (Self.range self.now).hi (Self.holes self.now) };

    /// Takes `n` bytes from a place on, which are a part of one hole.
    fn take(&mut self, space: &mut S, place: u32, n: u32)
        requires kept { are_in (Self.holes self.old) (S.bytes space.old) }
        requires part { IsPart (Self.range self.old) place n }
        requires free { IsFree place (place + n) (Self.holes self.old) }
        ensures holes { Self.holes self.new ≡ taken place (place + n) (Self.holes self.old) }
        ensures range { Self.range self.new ≡ Self.range self.old }
        ensures kept { are_in (Self.holes self.new) (S.bytes space.new) }
        ensures bytes { AreSameOutside (Self.holes self.old) (S.bytes space.old) (S.bytes space.new) }
        ensures written { S.written space.new ≡ S.written space.old }
        ensures lenders { S.lenders space.new ≡ S.lenders space.old };

    /// Puts `n` bytes from a place on, which meet no hole, and joins them with the holes that they
    /// touch. They lie in the space, as a hole's own words may be written there.
    fn put(&mut self, space: &mut S, place: u32, n: u32)
        requires kept { are_in (Self.holes self.old) (S.bytes space.old) }
        requires part { IsPart (Self.range self.old) place n }
        requires used { IsUsed place (place + n) (Self.holes self.old) }
        requires inside { place + n ≤ length (S.bytes space.old) }
        ensures holes { Self.holes self.new ≡ joined place (place + n) (Self.holes self.old) }
        ensures range { Self.range self.new ≡ Self.range self.old }
        ensures kept { are_in (Self.holes self.new) (S.bytes space.new) }
        ensures bytes { AreSameOutside (Self.holes self.new) (S.bytes space.old) (S.bytes space.new) }
        ensures written { S.written space.new ≡ S.written space.old }
        ensures lenders { S.lenders space.new ≡ S.lenders space.old };

    /// Slides `size` used bytes down over free ones, from one place to another: what their new place has beyond the old one is taken, and what
    /// the old one has beyond the new is put. They count as written, once. Bytes outside the holes of before and after stay, but for those of
    /// the new place.
    fn slide_down(&mut self, space: &mut S, from: u32, to: u32, size: u32)
        requires kept { are_in (Self.holes self.old) (S.bytes space.old) }
        requires down { to < from }
        requires new { IsPart (Self.range self.old) to size }
        requires old { IsPart (Self.range self.old) from size }
        requires free { IsFree to from (Self.holes self.old) }
        requires used { IsUsed from (from + size) (Self.holes self.old) }
        requires inside { from + size ≤ length (S.bytes space.old) }
        ensures holes { Self.holes self.new ≡ slid_down from to size (Self.holes self.old) }
        ensures range { Self.range self.new ≡ Self.range self.old }
        ensures kept { are_in (Self.holes self.new) (S.bytes space.new) }
        ensures contents { part (S.bytes space.new) to size ≡ part (S.bytes space.old) from size }
        ensures bytes { AreSameBut to size (Self.holes self.old) (Self.holes self.new) (S.bytes space.old) (S.bytes space.new) }
        ensures written { S.written space.new ≡ counted (S.written space.old) size }
        ensures lenders { S.lenders space.new ≡ S.lenders space.old };

    /// Where the bytes in the holes stay, so does what is kept of the holes.
    ghost stay: { (hs : List Span) (old new : List ℕ) → are_in hs old → AreSameIn hs old new → are_in hs new };
}
