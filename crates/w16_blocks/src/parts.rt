//! The parts of a range: its blocks, and the holes between them.
use crate::{Block, Blocks, Span};
use w16_holes::{HoleList, Holes, units_over};
use w16_region::Space;

/// A part of a range: a block, or a hole between blocks.
#[derive(Clone, Copy, Debug, PartialEq, Eq)]
pub enum Part {
    Hole(Span),
    Block(Block),
}

impl<H: HoleList> Blocks<H> {
    ghost use Rattle.std.specs.Prelude.{IfSome, IfNone};
    ghost use Rattle.w16_blocks.specs.Layout.{IsOrdered, holes_of};
    ghost use Rattle.w16_blocks.specs.Parts.{IfHole, IfBlock, IsFirstHole, IsFirstBlock, IsBehindAll};

    /// The first block or hole that begins at an address or above it; none after the last. It looks at each unit of grain from there on, so
    /// a walk asks from the end of the part before.
    pub fn part_from<S: Space>(&self, space: &S, at: u32) -> Option<Part>
    where
        H: Holes<S>,
        requires { H.are_in (holes_of self.now) (S.bytes space.now) }
        ensures hole { IfSome result (λ part. IfHole part (IsFirstHole self.now at)) }
        ensures block { IfSome result (λ part. IfBlock part (IsFirstBlock self.now at)) }
        ensures none { IfNone result (IsBehindAll self.now at) }
        ensures ordered { IsOrdered self.now }
    {
        let first = units_over(at.saturating_sub(self.lo), self.grain) as usize;
        for unit in first..self.units() {
            let begin = self.begins[unit] as usize;
            if begin > 0 {
                return Some(Part::Block(self.slots[begin - 1]));
            }
            let place = self.lo + unit as u32 * self.grain;
            let hole = self.holes.at(space, place);
            if hole > 0 {
                return Some(Part::Hole(Span {
                    from: place,
                    to: place + hole,
                }));
            }
        }
        None
    }
}
