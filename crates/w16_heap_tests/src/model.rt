//! The plain program at small heaps, with answers that were worked out by hand.

mod cases;
mod discards;
mod gaps;
mod growth;
mod holes;
mod placed;

use crate::options::DISCARDING;
use w16_model::{Block, Hold, RoomOptions};

const MAY_MOVE: RoomOptions = RoomOptions {
    may_move: true,
    ..DISCARDING
};

const NO_COMPACT: RoomOptions = RoomOptions {
    compact: false,
    ..DISCARDING
};

/// Three objects that fill 96 bytes.
const THREE: &[Block] = &[loose!(32, 0, 32), loose!(33, 32, 32), loose!(34, 64, 32)];
