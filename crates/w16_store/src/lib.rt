//! Module files by name, from memory or from a folder.
#![tactic(auto)]

mod count;
mod disk;
mod folder;
mod fuse;
mod memory;
mod name;
mod opened;
mod part;
mod places;
mod store;
mod system;
mod window;

pub use count::count_failure;
pub use disk::{Disk, DiskFailure};
pub use folder::{DirFault, DirStore};
pub use fuse::FuseStore;
pub use memory::MemStore;
pub use name::is_named;
pub use part::reveal_bytes;
pub use store::{Store, StoreFault};
pub use system::SystemDisk;
