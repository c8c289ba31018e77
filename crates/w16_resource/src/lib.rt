//! Resources of modules: which are there, loads of them, locks that fetch them, and their end.
#![tactic(auto)]

mod fetching;
mod finding;
mod freeing;
mod listing;
mod loading;
mod locking;
mod parts;
mod resources;

pub use finding::{find_resource, size_of_resource};
pub use listing::Load;
pub use parts::Loading;
pub use resources::Resources;
