//! One suite that every kind of holes runs, and the kinds' own tests.
ghost use Rattle.std.specs.Prelude.{◌≡◌, ◌+◌, ◌≤◌, ◌∷◌, [], IsTrue, length};
ghost use Rattle.w16_holes.specs.Holes.{IsPlace, Range};
ghost use Rattle.w16_holes.specs.Thread.{AreThreaded};

use std::test::Fail;
use w16_holes::{Holes, SideHoles, ThreadedHoles};
use w16_region::{Region, Space};

/// A look at the holes of 256 bytes, at grain 32.
#[derive(Clone, Copy)]
enum Look {
    Lowest(u32),
    Longest,
    At(u32),
    EndingAt(u32),
}

/// Whether a place is one of the range, or its end.
fn is_place(place: u32) -> bool
    ensures { IsTrue result → IsPlace (record { lo = 0; hi = 256; grain = 32 }) place }
{
    place <= 256 && place % 32 == 0
}

/// What a look finds; `None` at a place that is none.
fn found<H: Holes<Region>>(holes: &H, space: &Region, look: Look) -> Option<u32>
    requires kept { H.are_in (H.holes holes.now) space.now.bytes.items }
    requires range { H.range holes.now ≡ record { lo = 0; hi = 256; grain = 32 } }
{
    match look {
        Look::Lowest(n) => holes.lowest(space, n),
        Look::Longest => Some(holes.longest(space)),
        Look::At(place) if is_place(place) => Some(holes.at(space, place)),
        Look::EndingAt(place) if is_place(place) => Some(holes.ending_at(space, place)),
        _ => None,
    }
}

/// Whether each look of a table finds what it should.
fn tells<H: Holes<Region>>(holes: &H, space: &Region, looks: &[(Look, Option<u32>)]) -> bool
    requires kept { H.are_in (H.holes holes.now) space.now.bytes.items }
    requires range { H.range holes.now ≡ record { lo = 0; hi = 256; grain = 32 } }
{
    for (look, answer) in looks {
        if found(holes, space, *look) != *answer {
            return false;
        }
    }
    true
}

/// The third unit is taken.
const ONE_TAKEN: &[(Look, Option<u32>)] = &[
    (Look::Lowest(0), Some(0)),
    (Look::Lowest(64), Some(0)),
    (Look::Lowest(65), Some(96)),
    (Look::Lowest(161), None),
    (Look::Longest, Some(160)),
    (Look::At(64), Some(0)),
    (Look::At(96), Some(160)),
    (Look::EndingAt(64), Some(64)),
    (Look::EndingAt(96), Some(0)),
    (Look::EndingAt(256), Some(160)),
];

/// The first two and the fifth are taken too.
const FOUR_TAKEN: &[(Look, Option<u32>)] = &[(Look::At(96), Some(32)), (Look::At(160), Some(96))];

/// The first is put back.
const ONE_PUT: &[(Look, Option<u32>)] = &[(Look::At(0), Some(32))];

/// The next two too, which joins it with the fourth.
const THREE_PUT: &[(Look, Option<u32>)] = &[(Look::At(0), Some(128))];

/// All are.
const ALL_PUT: &[(Look, Option<u32>)] = &[(Look::Longest, Some(256))];

/// Whether the suite's looks find what they should, from one hole of 256 bytes at grain 32 on.
fn takes_and_puts<H: Holes<Region>>(holes: &mut H, space: &mut Region) -> bool
    requires kept { H.are_in (H.holes holes.old) space.old.bytes.items }
    requires inside { 256 ≤ length space.old.bytes.items }
    requires range { H.range holes.old ≡ record { lo = 0; hi = 256; grain = 32 } }
    requires whole { H.holes holes.old ≡ record { from = 0; to = 256 } ∷ [] }
{
    holes.take(space, 64, 32);
    let mut right = tells(holes, space, ONE_TAKEN);
    holes.take(space, 0, 64);
    holes.take(space, 128, 32);
    right &= tells(holes, space, FOUR_TAKEN);
    holes.put(space, 0, 32);
    right &= tells(holes, space, ONE_PUT);
    holes.put(space, 32, 64);
    right &= tells(holes, space, THREE_PUT);
    holes.put(space, 128, 32);
    right && tells(holes, space, ALL_PUT)
}

/// The third unit has slid down to the first, and what was free before it has joined the hole behind it.
const ONE_SLID: &[(Look, Option<u32>)] = &[(Look::At(0), Some(0)), (Look::At(32), Some(224))];

/// Whether used bytes slide down over the free ones before them, from one hole of 256 bytes at grain 32 on.
fn slides<H: Holes<Region>>(holes: &mut H, space: &mut Region) -> bool
    requires kept { H.are_in (H.holes holes.old) space.old.bytes.items }
    requires inside { 256 ≤ length space.old.bytes.items }
    requires range { H.range holes.old ≡ record { lo = 0; hi = 256; grain = 32 } }
    requires whole { H.holes holes.old ≡ record { from = 0; to = 256 } ∷ [] }
{
    holes.take(space, 64, 32);
    holes.slide_down(space, 64, 0, 32);
    tells(holes, space, ONE_SLID)
}

#[test]
fn side_holes(rt: HostRuntime) -> Result<(), Fail> {
    let mut space = Region::new(rt.alloc(), 256)?;
    let mut holes = SideHoles::new(rt.alloc(), 0, 256, 32)?;
    assert!(rt; takes_and_puts(&mut holes, &mut space));
    Ok(())
}

#[test]
fn threaded_holes(rt: HostRuntime) -> Result<(), Fail> {
    let mut space = Region::new(rt.alloc(), 256)?;
    let mut holes = ThreadedHoles::new(rt.alloc(), &mut space, 0, 256, 32)?;
    assert!(rt; takes_and_puts(&mut holes, &mut space));
    Ok(())
}

#[test]
fn side_holes_slide(rt: HostRuntime) -> Result<(), Fail> {
    let mut space = Region::new(rt.alloc(), 256)?;
    let mut holes = SideHoles::new(rt.alloc(), 0, 256, 32)?;
    assert!(rt; slides(&mut holes, &mut space));
    Ok(())
}

/// Whether these are the bytes from a place on.
fn shows(space: &Region, at: u32, bytes: &[u8]) -> bool
    requires { at + 8 ≤ length space.now.bytes.items }
{
    space.view(at, 8) == bytes
}

/// Whether each hole has its size and where the next one begins in its own bytes, and none of them counts as written.
fn has_words(holes: &mut ThreadedHoles, space: &mut Region) -> bool
    requires kept { AreThreaded holes.old.holes space.old.bytes.items }
    requires inside { 256 ≤ length space.old.bytes.items }
    requires whole { holes.old ≡ record { range = record { lo = 0; hi = 256; grain = 32 }; holes = record { from = 0; to = 256 } ∷ [] } }
{
    let mut right = shows(space, 0, &[0, 1, 0, 0, 255, 255, 255, 255]);
    holes.take(space, 64, 32);
    right &= shows(space, 0, &[64, 0, 0, 0, 96, 0, 0, 0]);
    right &= shows(space, 96, &[160, 0, 0, 0, 255, 255, 255, 255]);
    right && space.written() == 0
}

#[test]
fn holes_lie_in_their_own_bytes(rt: HostRuntime) -> Result<(), Fail> {
    let mut space = Region::new(rt.alloc(), 256)?;
    let mut holes = ThreadedHoles::new(rt.alloc(), &mut space, 0, 256, 32)?;
    assert!(rt; has_words(&mut holes, &mut space));
    Ok(())
}
