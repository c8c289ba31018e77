//! Gaps, and the room that they have.
use super::cases::{Case, tables};
use std::alloc::{AllocError, Global};
use std::test::Fail;
use w16_model::{Snapshot, Span};

/// Whether a gap ends at its place, and its loose blocks have so many bytes.
fn is_gap(heap: &Snapshot<'_>, gap: Span, loose: u32) -> bool {
    heap.is_placed()
        && heap.gap_end(gap.from) == gap.to
        && heap.loose_between(gap.from, gap.to) == loose
}

/// Whether gaps are just those that are wanted, with their loose blocks.
fn are_gaps(heap: &Snapshot<'_>, gaps: &[Span], wanted: &[(Span, u32)]) -> bool {
    for (i, (gap, loose)) in wanted.iter().enumerate() {
        if gaps.get(i).copied() != Some(*gap) || !is_gap(heap, *gap, *loose) {
            return false;
        }
    }
    gaps.len() == wanted.len()
}

/// Whether a heap has just the gaps that are wanted, and the room.
fn has_gaps(alloc: Global, case: &Case) -> Result<bool, AllocError> {
    let heap = case.heap;
    if !heap.is_placed() {
        return Ok(false);
    }
    let gaps = heap.gaps(alloc)?;
    Ok(are_gaps(&heap, &gaps, case.gaps) && heap.room() == case.room.1)
}

#[test]
fn finds_gaps(rt: HostRuntime) -> Result<(), Fail> {
    for cases in tables() {
        for case in cases {
            let found = has_gaps(rt.alloc(), case)?;
            assert!(rt; found, "{}", case.name);
        }
    }
    Ok(())
}
