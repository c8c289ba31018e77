//! Holes.
use super::cases::{Case, tables};
use std::alloc::{AllocError, Global};
use std::test::Fail;
use w16_model::{Snapshot, Span};

/// Whether a hole ends at its place.
fn is_hole(heap: &Snapshot<'_>, hole: Span) -> bool {
    heap.is_placed() && heap.hole_end(hole.from) == hole.to
}

/// Whether holes are just those that are wanted, and end there.
fn are_holes(heap: &Snapshot<'_>, holes: &[Span], wanted: &[Span]) -> bool {
    for hole in wanted {
        if !is_hole(heap, *hole) {
            return false;
        }
    }
    holes == wanted
}

/// Whether a heap has just the holes that are wanted, and the longest of them.
fn has_holes(alloc: Global, case: &Case) -> Result<bool, AllocError> {
    let heap = case.heap;
    if !heap.is_placed() {
        return Ok(false);
    }
    let holes = heap.holes(alloc)?;
    Ok(are_holes(&heap, &holes, case.holes) && heap.longest_hole() == case.room.0)
}

#[test]
fn finds_holes(rt: HostRuntime) -> Result<(), Fail> {
    for cases in tables() {
        for case in cases {
            let found = has_holes(rt.alloc(), case)?;
            assert!(rt; found, "{}", case.name);
        }
    }
    Ok(())
}
