//! The free memory of a heap, as holes by address: where the lowest of a length is, a part taken,
//! a part put back and joined with its neighbours.
//!
//! - [`Holes`] is what code over holes is generic in, whether they are kept in the free bytes
//!   themselves or beside them.
//! - [`SideHoles`] keeps them beside the memory, of which no byte is read or written.
//! - [`ThreadedHoles`] keeps them in the memory itself, as a thread from hole to hole.
//! - [`laws`] says what taking and putting means for the free bytes.
#![tactic(auto)]

mod grain;
mod holes;
pub mod laws;
mod side;
mod threaded;

pub use grain::{is_whole, units_in, units_over};
pub use holes::{HoleList, Holes, LAST_END};
pub use side::SideHoles;
pub use threaded::ThreadedHoles;
