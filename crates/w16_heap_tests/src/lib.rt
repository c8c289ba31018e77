//! Tests of the heap's model, and of constructors of the layers that place, slide and discard: calls on these are tried by rows of scripts, in `w16rows`. They stand in a crate of their own, so that what they test is proved once.
#![tactic(auto)]

macro_rules! loose {
    ($id:expr, $at:expr, $size:expr) => {
        Block { id: $id, at: $at, size: $size, hold: Hold::Loose }
    };
}

macro_rules! pinned {
    ($id:expr, $at:expr, $size:expr) => {
        Block { id: $id, at: $at, size: $size, hold: Hold::Pinned }
    };
}

macro_rules! span {
    ($from:expr, $to:expr) => {
        Span { from: $from, to: $to }
    };
}

/// A heap between two bounds, with its blocks and its order of use.
macro_rules! heap {
    ($lo:expr, $hi:expr, $blocks:expr, $order:expr) => {
        Snapshot { lo: $lo, hi: $hi, blocks: $blocks, order: $order }
    };
}

#[cfg(test)]
mod model;
#[cfg(test)]
mod options;
#[cfg(test)]
mod refusals;
