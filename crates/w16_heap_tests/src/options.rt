//! What requests may do to other objects.
use w16_model::RoomOptions;

/// A request that moves no other object.
pub const AS_IT_STANDS: RoomOptions = RoomOptions {
    compact: false,
    discard: false,
    zero: false,
    may_move: false,
};

/// A request that discards no other object.
pub const SLIDING: RoomOptions = RoomOptions {
    compact: true,
    ..AS_IT_STANDS
};

pub const DISCARDING: RoomOptions = RoomOptions {
    discard: true,
    ..SLIDING
};
