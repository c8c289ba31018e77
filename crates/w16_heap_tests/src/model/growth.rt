//! Objects that grow.
use super::{MAY_MOVE, NO_COMPACT, THREE};
use crate::options::{DISCARDING, SLIDING};
use std::alloc::{AllocError, Global};
use std::test::Fail;
use w16_model::{Block, Hold, RoomOptions, Snapshot};

/// An object that grows: the heap, the bytes that it is to have, and its id, each with what may be done.
struct Growth {
    name: &'static str,
    heap: Snapshot<'static>,
    asked: (u32, u32, RoomOptions),
    /// Whether the hole directly after it is long enough.
    fits: bool,
    /// The number of discards by which it grows, or none where it doesn't.
    count: Option<usize>,
}

static GROWTHS: &[Growth] = &[
    Growth {
        name: "up to the heap's end, and nothing moves",
        heap: heap!(0, 96, &[loose!(32, 0, 32)], &[]),
        asked: (96, 32, NO_COMPACT),
        fits: true,
        count: Some(0),
    },
    Growth {
        name: "a grain more than the hole behind it, though a hole in front has as much",
        heap: heap!(0, 128, &[loose!(32, 32, 32), pinned!(33, 96, 32)], &[]),
        asked: (96, 32, NO_COMPACT),
        fits: false,
        count: None,
    },
    Growth {
        name: "over both holes beside it",
        heap: heap!(0, 128, &[loose!(32, 32, 32), pinned!(33, 96, 32)], &[]),
        asked: (96, 32, DISCARDING),
        fits: false,
        count: Some(0),
    },
    Growth {
        name: "into a hole elsewhere",
        heap: heap!(0, 128, &[loose!(32, 0, 32), pinned!(33, 32, 32)], &[]),
        asked: (64, 32, NO_COMPACT),
        fits: false,
        count: Some(0),
    },
    Growth {
        name: "in place of the object used longest ago",
        heap: heap!(0, 96, THREE, &[33, 34]),
        asked: (64, 32, DISCARDING),
        fits: false,
        count: Some(1),
    },
    Growth {
        name: "in place of none, where none may be discarded",
        heap: heap!(0, 96, THREE, &[33, 34]),
        asked: (64, 32, SLIDING),
        fits: false,
        count: None,
    },
    Growth {
        name: "never in place of itself",
        heap: heap!(0, 64, &[loose!(32, 0, 32), loose!(33, 32, 32)], &[32]),
        asked: (64, 32, DISCARDING),
        fits: false,
        count: None,
    },
    Growth {
        name: "of a locked object that may move, over the gaps beside it",
        heap: heap!(0, 96, &[pinned!(32, 32, 32)], &[]),
        asked: (96, 32, MAY_MOVE),
        fits: false,
        count: Some(0),
    },
];

/// Whether an object grows in place, and by as many discards, as is wanted.
fn grows(alloc: Global, growth: &Growth) -> Result<bool, AllocError> {
    let heap = growth.heap;
    let (size, id, options) = growth.asked;
    if !heap.is_placed() {
        return Ok(false);
    }
    let count = heap.growth(alloc, size, id, options)?;
    Ok(heap.fits_in_place(size, id) == growth.fits && count == growth.count)
}

#[test]
fn counts_discards_of_growth(rt: HostRuntime) -> Result<(), Fail> {
    for growth in GROWTHS {
        let counted = grows(rt.alloc(), growth)?;
        assert!(rt; counted, "{}", growth.name);
    }
    Ok(())
}
