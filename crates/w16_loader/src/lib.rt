//! Loading of module files: which module handle names what, loads, uses that end, and fetches of segments.
#![tactic(auto)]

mod binding;
mod closure;
mod counts;
mod ending;
mod entry;
mod fault;
mod filling;
mod found;
mod loading;
mod naming;
mod places;
mod registry;
mod segment;
mod segment_fetch;
mod segment_work;
mod table;
mod tagged;

pub use closure::{Bound, Closure, Followed, close};
pub use ending::{free, release_slot};
pub use entry::{Entry, Loaded, NOWHERE};
pub use fault::{Failure, LoadFault};
pub use found::{Reading, Referent, check_segments, examine_file, meant, read_file};
pub use loading::{LoadAnswer, load};
pub use registry::Registry;
pub use segment_fetch::{SegmentSource, fetch, fetch_fault, give_bytes};
pub use segment_work::SegmentWork;
pub use table::SegmentOf;
pub use tagged::Found;
