//! Small heaps with requests.
use super::{MAY_MOVE, NO_COMPACT, THREE};
use crate::options::{DISCARDING, SLIDING};
use w16_model::{Block, Hold, RoomOptions, Snapshot, Span};

/// A heap, what is asked of it, and what has to be decided.
pub struct Case {
    pub name: &'static str,
    pub heap: Snapshot<'static>,
    /// The bytes, the object that they are for, and what may be done.
    pub asked: (u32, Option<u32>, RoomOptions),
    pub holes: &'static [Span],
    /// Each gap, with the bytes of its loose blocks.
    pub gaps: &'static [(Span, u32)],
    /// The longest hole, and the room with all blocks counted.
    pub room: (u32, u32),
    pub eligible: &'static [u32],
    /// The room without the object, after 0, 1, 2 and more discards, and last after all.
    pub rooms: &'static [u32],
    /// The number of discards that is needed, and the one that answers the request, or none where it is refused.
    pub discards: (Option<usize>, Option<usize>),
}

/// Heaps of a few objects, none of them discardable.
static PLAIN: &[Case] = &[
    Case {
        name: "the whole of an empty heap is one hole",
        heap: heap!(0, 4096, &[], &[]),
        asked: (4096, Some(32), DISCARDING),
        holes: &[span!(0, 4096)],
        gaps: &[(span!(0, 4096), 0)],
        room: (4096, 4096),
        eligible: &[],
        rooms: &[4096],
        discards: (Some(0), Some(0)),
    },
    Case {
        name: "a full heap has room for nothing",
        heap: heap!(0, 4096, &[loose!(32, 0, 4096)], &[]),
        asked: (32, Some(33), DISCARDING),
        holes: &[],
        gaps: &[(span!(0, 4096), 4096)],
        room: (0, 0),
        eligible: &[],
        rooms: &[0],
        discards: (None, None),
    },
    Case {
        name: "a request for more than the heap is refused",
        heap: heap!(0, 4096, &[], &[]),
        asked: (4128, Some(32), DISCARDING),
        holes: &[span!(0, 4096)],
        gaps: &[(span!(0, 4096), 0)],
        room: (4096, 4096),
        eligible: &[],
        rooms: &[4096],
        discards: (None, None),
    },
    Case {
        name: "two short holes are one where the object between them may slide",
        heap: heap!(0, 128, &[loose!(32, 0, 32), loose!(34, 64, 32)], &[]),
        asked: (64, Some(33), DISCARDING),
        holes: &[span!(32, 64), span!(96, 128)],
        gaps: &[(span!(0, 128), 64)],
        room: (32, 64),
        eligible: &[],
        rooms: &[64],
        discards: (Some(0), Some(0)),
    },
    Case {
        name: "a locked object between two short holes stays there",
        heap: heap!(0, 128, &[loose!(32, 0, 32), pinned!(34, 64, 32)], &[]),
        asked: (64, Some(33), DISCARDING),
        holes: &[span!(32, 64), span!(96, 128)],
        gaps: &[(span!(0, 64), 32), (span!(96, 128), 0)],
        room: (32, 32),
        eligible: &[],
        rooms: &[32],
        discards: (None, None),
    },
];

/// Heaps with discardable objects, and with others that are requested there.
static DISCARDABLE: &[Case] = &[
    Case {
        name: "nothing is discarded while a hole is long enough",
        heap: heap!(0, 96, &[loose!(32, 0, 32), loose!(33, 32, 32)], &[32, 33]),
        asked: (32, Some(34), DISCARDING),
        holes: &[span!(64, 96)],
        gaps: &[(span!(0, 96), 64)],
        room: (32, 32),
        eligible: &[32, 33],
        rooms: &[32, 64, 96],
        discards: (Some(0), Some(0)),
    },
    Case {
        name: "a full heap gives up the object that was used longest ago, and no other",
        heap: heap!(0, 96, THREE, &[33, 32]),
        asked: (32, Some(35), DISCARDING),
        holes: &[],
        gaps: &[(span!(0, 96), 96)],
        room: (0, 0),
        eligible: &[33, 32],
        rooms: &[0, 32, 64],
        discards: (Some(1), Some(1)),
    },
    Case {
        name: "a request that not even all discards would serve is refused",
        heap: heap!(0, 96, THREE, &[32, 33, 34]),
        asked: (128, Some(35), DISCARDING),
        holes: &[],
        gaps: &[(span!(0, 96), 96)],
        room: (0, 0),
        eligible: &[32, 33, 34],
        rooms: &[0, 32, 64, 96],
        discards: (None, None),
    },
    Case {
        name: "a compaction for more than the heap leaves room for the whole heap",
        heap: heap!(0, 96, THREE, &[32, 33, 34]),
        asked: (128, None, DISCARDING),
        holes: &[],
        gaps: &[(span!(0, 96), 96)],
        room: (0, 0),
        eligible: &[32, 33, 34],
        rooms: &[0, 32, 64, 96],
        discards: (None, None),
    },
    Case {
        name: "a locked object with no hole behind it may slide for its own growth",
        heap: heap!(0, 128, &[pinned!(32, 0, 32), loose!(33, 32, 32)], &[]),
        asked: (64, Some(32), MAY_MOVE),
        holes: &[span!(64, 128)],
        gaps: &[(span!(32, 128), 32)],
        room: (64, 64),
        eligible: &[],
        rooms: &[96],
        discards: (Some(0), Some(0)),
    },
    Case {
        name: "an object grows over its own bytes and both holes beside it",
        heap: heap!(0, 128, &[loose!(33, 32, 32), loose!(34, 64, 32)], &[]),
        asked: (96, Some(33), DISCARDING),
        holes: &[span!(0, 32), span!(96, 128)],
        gaps: &[(span!(0, 128), 64)],
        room: (32, 64),
        eligible: &[],
        rooms: &[96],
        discards: (Some(0), Some(0)),
    },
    Case {
        name: "nothing is discarded for a request that may not discard",
        heap: heap!(0, 96, THREE, &[32, 34]),
        asked: (32, Some(35), SLIDING),
        holes: &[],
        gaps: &[(span!(0, 96), 96)],
        room: (0, 0),
        eligible: &[32, 34],
        rooms: &[0, 32, 64],
        discards: (Some(1), None),
    },
    Case {
        name: "the object that was made the oldest is the first to go",
        heap: heap!(0, 96, THREE, &[34, 32]),
        asked: (32, Some(35), DISCARDING),
        holes: &[],
        gaps: &[(span!(0, 96), 96)],
        room: (0, 0),
        eligible: &[34, 32],
        rooms: &[0, 32, 64],
        discards: (Some(1), Some(1)),
    },
    Case {
        name: "a compaction for one byte counts all that sliding can make",
        heap: heap!(0, 128, &[loose!(32, 0, 32), loose!(34, 64, 32)], &[]),
        asked: (1, None, DISCARDING),
        holes: &[span!(32, 64), span!(96, 128)],
        gaps: &[(span!(0, 128), 64)],
        room: (32, 64),
        eligible: &[],
        rooms: &[64],
        discards: (Some(0), Some(0)),
    },
];

/// Heaps of several gaps, and of objects that share one.
static DIVIDED: &[Case] = &[
    Case {
        name: "an object grows in its own gap before anything is discarded",
        heap: heap!(0, 160, THREE, &[33]),
        asked: (96, Some(32), DISCARDING),
        holes: &[span!(96, 160)],
        gaps: &[(span!(0, 160), 96)],
        room: (64, 64),
        eligible: &[33],
        rooms: &[96, 128],
        discards: (Some(0), Some(0)),
    },
    Case {
        name: "two loose objects in a segment share one gap",
        heap: heap!(16, 128, &[loose!(32, 28, 8), loose!(33, 36, 8)], &[]),
        asked: (96, None, DISCARDING),
        holes: &[span!(16, 28), span!(44, 128)],
        gaps: &[(span!(16, 128), 16)],
        room: (84, 96),
        eligible: &[],
        rooms: &[96],
        discards: (Some(0), Some(0)),
    },
    Case {
        name: "a locked discardable object is passed over",
        heap: heap!(
            0,
            96,
            &[pinned!(32, 0, 32), loose!(33, 32, 32), loose!(34, 64, 32)],
            &[32, 33]
        ),
        asked: (32, Some(35), DISCARDING),
        holes: &[],
        gaps: &[(span!(32, 96), 64)],
        room: (0, 0),
        eligible: &[33],
        rooms: &[0, 32],
        discards: (Some(1), Some(1)),
    },
    Case {
        name: "an object isn't discarded for its own growth",
        heap: heap!(0, 96, THREE, &[32, 33]),
        asked: (64, Some(32), DISCARDING),
        holes: &[],
        gaps: &[(span!(0, 96), 96)],
        room: (0, 0),
        eligible: &[33],
        rooms: &[32, 64],
        discards: (Some(1), Some(1)),
    },
    Case {
        name: "the blocks may be listed in any order",
        heap: heap!(0, 128, &[loose!(34, 64, 32), pinned!(32, 0, 32)], &[]),
        asked: (64, Some(33), DISCARDING),
        holes: &[span!(96, 128), span!(32, 64)],
        gaps: &[(span!(32, 128), 32)],
        room: (32, 64),
        eligible: &[],
        rooms: &[64],
        discards: (Some(0), Some(0)),
    },
];

fn plain() -> &'static [Case] {
    PLAIN
}

fn discardable() -> &'static [Case] {
    DISCARDABLE
}

fn divided() -> &'static [Case] {
    DIVIDED
}

/// All cases. Each table has a function that alone names it: what a function names costs a proof more than in proportion to its length.
pub fn tables() -> [&'static [Case]; 3] {
    [plain(), discardable(), divided()]
}
