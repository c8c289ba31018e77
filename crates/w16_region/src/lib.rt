//! Raw memory: a list of bytes that is viewed, filled and slid in parts, and that counts the bytes
//! that were written.
//!
//! - [`Space`] is what code over memory is generic in. Each range lies inside by condition, so no
//!   call refuses one, and no call but `Region::new` takes memory.
//! - [`Region`] is a space with memory of its own, whose double words can be read and set uncounted.
//! - [`Window`] is a space over a slice that was lent.
//! - [`Framed`] is what both are: the bytes of some [`Storage`], and the count.
#![tactic(auto)]

pub use framed::Framed;
pub use region::Region;
pub use space::{Space, reveal_bytes};
pub use storage::Storage;
pub use window::Window;

mod framed;
mod region;
mod space;
mod storage;
mod window;
