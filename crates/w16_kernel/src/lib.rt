//! The machine of handles, one step per call.
#![tactic(auto)]

mod call;
mod far;
mod growing;
mod kernel;
pub mod laws;
mod load;
mod machine;
mod parts;
mod resource;
mod sizes;
mod step;

pub use call::{Answer, Call, Chunk, Label, Reply};
pub use growing::{AddFault, GrowingStore, MOST_NAME, RemoveFault};
pub use kernel::Kernel;
pub use kernel::facts::{Facts, Source};
pub use kernel::marks::MODULE_HANDLES;
pub use kernel::modules::{Export, Start};
pub use kernel::why::Why;
pub use machine::Machine;
pub use sizes::{MOST_MEMORY, SizeFault, check_sizes};
pub use w16_global::{Descriptor, GlobalAllocFlags, GlobalReAllocFlags, Place};
pub use w16_local::{LocalAllocFlags, LocalReAllocFlags};
pub use w16_machine::access::{MOST_FILLED, MOST_READ};
