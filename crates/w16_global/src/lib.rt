//! The global heap of Windows 3.1: objects by handle and by selector in one memory. No call but the constructor takes memory.
#![tactic(auto)]

mod calls;
mod far;
mod flags;
mod follow;
mod global;
mod lend;
mod loan;
mod memory;
mod objects;
mod owned;
mod peek;
mod realloc;
mod runs;

pub use flags::{GlobalAllocFlags, GlobalReAllocFlags};
pub use global::Global16;
pub use lend::{Segment, Work};
pub use loan::Place;
pub use peek::Descriptor;
pub use w16_model::FarFault;
