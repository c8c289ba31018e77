//! Holes beside the memory.
ghost use Rattle.std.specs.Prelude.{◌≡◌, ◌+◌, ◌*◌, ◌-◌, ◌^◌, ◌<◌, ◌≤◌, ◌∷◌, [], ℕ, length, slice_index, option_map, IfOk};
ghost use Rattle.w16_model.specs.Heap.{IsMultiple};
ghost use Rattle.w16_holes.specs.Holes.{AreHoles, IsFree, IsUsed, IsPlace, IsPart, last_before, length_at, length_to, taken, joined, slid_down, add_span};
ghost use Rattle.w16_holes.specs.Cells.{IsApart, IsInside, IsBeginOf};
ghost use Rattle.w16_tree.specs.Last.{last_below};

use crate::{HoleList, Holes, LAST_END, units_in};
use std::alloc::{AllocError, Allocator, Global};
use std::marker::Model;
use w16_region::Space;
use w16_tree::Maxima;

/// In which unit a place lies that begins one.
fn unit_of(place: u32, lo: u32, grain: u32) -> usize
    requires some { 0 < grain }
    requires from { lo ≤ place }
    requires low { IsMultiple grain lo }
    requires grained { IsMultiple grain place }
    ensures { grain * result ≡ place - lo }
{
    units_in(place - lo, grain) as usize
}

/// How many bytes lie before a unit.
fn bytes_before(unit: usize, grain: u32) -> u32
    requires some { 0 < grain }
    requires small { grain * unit < 2 ^ 32 }
    ensures { result ≡ grain * unit }
{
    unit as u32 * grain
}

/// Where the last hole begins that begins below a place, if there is one: in which unit, and at which address.
#[derive(Clone, Copy)]
pub(crate) struct Below {
    pub(crate) unit: Option<usize>,
    pub(crate) begin: Option<u32>,
}

/// The unit where the last hole begins that begins in a unit or below it, by the one below it, which only counts where none begins there.
fn last_to<A: Allocator>(lengths: &Maxima<A>, unit: usize, below: Option<usize>) -> Option<usize>
    requires inside { unit < length lengths.now }
    requires below { slice_index lengths.now unit ≡ 0 → below ≡ last_below lengths.now unit }
    ensures { result ≡ last_below lengths.now (unit + 1) }
{
    if lengths.get(unit) > 0 {
        Some(unit)
    } else {
        below
    }
}

/// The unit where the hole begins that ends where a unit begins, or that unit where none does, by the last one that begins below it.
fn begin_of<A: Allocator>(
    lengths: &Maxima<A>,
    grain: u32,
    unit: usize,
    below: Option<usize>,
) -> usize
    requires some { 0 < grain }
    requires small { grain * unit < 2 ^ 32 }
    requires inside { unit ≤ length lengths.now }
    requires apart { IsApart grain lengths.now }
    requires fits { IsInside grain (2 ^ 32 - 1) lengths.now }
    requires below { below ≡ last_below lengths.now unit }
    ensures { IsBeginOf grain unit lengths.now result }
{
    let end = bytes_before(unit, grain);
    match below {
        Some(begin) if bytes_before(begin, grain) + lengths.get(begin) == end => begin,
        _ => unit,
    }
}

/// Holes beside the memory, of which no byte is read or written: the length of each hole lies in a
/// tree of maxima, at the unit of grain where the hole begins.
#[derive(Drop)]
pub struct SideHoles<A: Allocator = Global> {
    lengths: Maxima<A>,
    lo: u32,
    hi: u32,
    grain: u32,
}

impl<A: Allocator> Model for SideHoles<A> {
    ghost use Rattle.w16_holes.specs.Holes.{Free};
    ghost use Rattle.w16_holes.specs.Cells.{spans, AreCells};

    ghost Value = { Free };

    ghost view = { λ s. record { range = record { lo = s.lo; hi = s.hi; grain = s.grain }; holes = spans s.grain s.lo s.lengths } };

    ghost invariant = { λ s. AreCells (record { lo = s.lo; hi = s.hi; grain = s.grain }) s.lengths };
}

impl<A: Allocator> SideHoles<A> {
    /// The range [lo, hi), all free, at multiples of the grain. All the memory that it ever has is
    /// taken here, for an end at [`LAST_END`] too; fails where there is not enough.
    pub fn new(alloc: A, lo: u32, hi: u32, grain: u32) -> Result<SideHoles<A>, AllocError>
        requires bounds { lo ≤ hi }
        requires some { 0 < grain }
        requires grained { IsMultiple grain lo }
        ensures { IfOk result (λ made. made ≡ record { range = record { lo = lo; hi = hi; grain = grain }; holes = add_span lo hi [] }) }
    {
        let units = ((hi.max(LAST_END) - lo) / grain) as usize;
        let mut lengths = Maxima::zeros(alloc, units + 1)?;
        lengths.set(0, hi - lo);
        Ok(SideHoles {
            lengths,
            lo,
            hi,
            grain,
        })
    }

    /// Where the last hole begins that begins below a place.
    pub(crate) fn below(&self, place: u32) -> Below
        requires { IsPlace self.now.range place }
        ensures value { result.begin ≡ last_before place self.now.holes }
        ensures unit { option_map (λ k. self.now.range.lo + self.now.range.grain * k) result.unit ≡ last_before place self.now.holes }
        ensures ordered { AreHoles self.now.range.lo self.now.range.hi self.now.holes }
    {
        let unit = unit_of(place, self.lo, self.grain);
        let Some(begin) = self.lengths.last_below(unit) else {
            return Below {
                unit: None,
                begin: None,
            };
        };
        Below {
            unit: Some(begin),
            begin: Some(self.lo + bytes_before(begin, self.grain)),
        }
    }

    /// The length of the hole that ends at a place, 0 where none does. The last hole below the place is known.
    pub(crate) fn length_below(&self, place: u32, below: Option<usize>) -> u32
        requires place { IsPlace self.now.range place }
        requires below { option_map (λ k. self.now.range.lo + self.now.range.grain * k) below ≡ last_before place self.now.holes }
        ensures { result ≡ length_to place self.now.holes }
    {
        let unit = unit_of(place, self.lo, self.grain);
        let begin = begin_of(&self.lengths, self.grain, unit, below);
        place - self.lo - bytes_before(begin, self.grain)
    }

    /// Takes `n` bytes from a place on, which are a part of one hole. The last hole below the place is known, or a hole begins there.
    pub(crate) fn take_out(&mut self, place: u32, n: u32, below: Option<usize>)
        requires below { length_at place self.old.holes ≡ 0 → option_map (λ k. self.old.range.lo + self.old.range.grain * k) below ≡ last_before place self.old.holes }
        requires part { IsPart self.old.range place n }
        requires free { IsFree place (place + n) self.old.holes }
        ensures holes { self.new.holes ≡ taken place (place + n) self.old.holes }
        ensures range { self.new.range ≡ self.old.range }
    {
        let unit = unit_of(place, self.lo, self.grain);
        let next = unit_of(place + n, self.lo, self.grain);
        if let Some(begin) = last_to(&self.lengths, unit, below) {
            let from = bytes_before(begin, self.grain);
            let end = from + self.lengths.get(begin);
            // The rest first: as long as the whole hole is told, it goes no further up than to what the two have in common.
            self.lengths.set(next, end - (place + n - self.lo));
            self.lengths.set(begin, place - self.lo - from);
        }
    }

    /// Puts `n` bytes from a place on, which meet no hole, and joins them with the holes that they
    /// touch. The last hole below the place is known.
    pub(crate) fn put_back(&mut self, place: u32, n: u32, below: Option<usize>)
        requires below { option_map (λ k. self.old.range.lo + self.old.range.grain * k) below ≡ last_before place self.old.holes }
        requires part { IsPart self.old.range place n }
        requires used { IsUsed place (place + n) self.old.holes }
        ensures holes { self.new.holes ≡ joined place (place + n) self.old.holes }
        ensures range { self.new.range ≡ self.old.range }
    {
        let unit = unit_of(place, self.lo, self.grain);
        let next = unit_of(place + n, self.lo, self.grain);
        let begin = begin_of(&self.lengths, self.grain, unit, below);
        let end = place + n - self.lo + self.lengths.get(next);
        // The whole hole first: then the one that is joined goes no further up than to what the two have in common.
        self.lengths
            .set(begin, end - bytes_before(begin, self.grain));
        self.lengths.set(next, 0);
    }
}

impl<A: Allocator> SideHoles<A> {
    /// Tells the prover that the holes are ordered, and lie below 4 GiB, as they always do. It does nothing else.
    pub(crate) fn reveal_order(&self)
        ensures ordered { AreHoles self.now.range.lo self.now.range.hi self.now.holes }
        ensures small { self.now.range.hi < 2 ^ 32 }
    {
        let _ = &self.lo;
    }

    /// Moves the `size` used bytes at `from` down to `to`, over the whole hole that lies between. The hole then lies behind them, joined with
    /// the hole that began there, if one did.
    pub(crate) fn pass(&mut self, from: u32, to: u32, size: u32)
        requires down { to < from }
        requires whole { length_at to self.old.holes ≡ from - to }
        requires new { IsPart self.old.range to size }
        requires old { IsPart self.old.range from size }
        requires used { IsUsed from (from + size) self.old.holes }
        ensures holes { self.new.holes ≡ slid_down from to size self.old.holes }
        ensures range { self.new.range ≡ self.old.range }
    {
        let unit = unit_of(to, self.lo, self.grain);
        let behind = unit_of(to + size, self.lo, self.grain);
        let next = unit_of(from + size, self.lo, self.grain);
        let above = self.lengths.get(next);
        self.lengths.set(behind, from - to + above);
        self.lengths.set(unit, 0);
        self.lengths.set(next, 0);
    }
}

impl<A: Allocator + Copy> HoleList for SideHoles<A> {
    type Alloc = A;

    ghost range = { λ h. h.range };

    ghost holes = { λ h. h.holes };

    fn set_end(&mut self, end: u32) {
        self.hi = end;
    }
}

impl<S: Space, A: Allocator + Copy> Holes<S> for SideHoles<A> {
    ghost are_in = { λ hs bytes. Unit {0} };

    ghost stay = { λ hs old new kept same. tt };

    fn lowest(&self, _space: &S, n: u32) -> Option<u32> {
        match self.lengths.first_at_least(n.max(1)) {
            Some(unit) => Some(self.lo + bytes_before(unit, self.grain)),
            None => None,
        }
    }

    fn at(&self, _space: &S, place: u32) -> u32 {
        self.lengths.get(unit_of(place, self.lo, self.grain))
    }

    fn ending_at(&self, _space: &S, place: u32) -> u32 {
        self.length_below(place, self.below(place).unit)
    }

    fn longest(&self, _space: &S) -> u32 {
        self.lengths.max()
    }

    fn take(&mut self, space: &mut S, place: u32, n: u32) {
        if self.at(space, place) > 0 {
            self.take_out(place, n, None);
        } else {
            let below = self.below(place);
            self.take_out(place, n, below.unit);
        }
    }

    fn put(&mut self, _space: &mut S, place: u32, n: u32) {
        let below = self.below(place);
        self.put_back(place, n, below.unit);
    }

    fn slide_down(&mut self, space: &mut S, from: u32, to: u32, size: u32) {
        self.reveal_order();
        // Where the hole begins there, as it does where blocks are gathered, no look below it is needed.
        if self.at(space, to) == from - to {
            space.slide(from, to, size);
            self.pass(from, to, size);
        } else {
            let apart = size.min(from - to);
            self.take(space, to, apart);
            space.slide(from, to, size);
            self.put(space, from + size - apart, apart);
        }
    }
}
