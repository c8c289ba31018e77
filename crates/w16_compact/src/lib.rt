//! Compaction: the loose blocks of a gap slide together, so that one hole is left there.
//!
//! - [`gap_for`] tells where it can make enough room.
//! - [`gather`] makes it there, after the blocks that [`packed_to`] tells, and [`open`] directly after one of the blocks.
//! - [`least_prefix`] tells how many discards it takes first, [`room_after`] how much room a number of them leaves, and [`is_eligible`]
//!   which objects they may be.
//! - [`stretch_for`] tells how much room there would be if the range ended later.
//!
//! No call but [`GapRooms::with_room`] takes memory. What is proved of them is stated over `w16_model`'s gaps and holes.
#![tactic(auto)]

mod gap_rooms;
mod gaps;
mod opening;
mod prefix;
mod reach;
mod slide;
mod stretch;

pub use gap_rooms::GapRooms;
pub use gaps::{Gap, gap_for};
pub use opening::open;
pub use prefix::{is_eligible, least_prefix, room_after};
pub use slide::{gather, packed_to};
pub use stretch::{Stretch, stretch_for};
