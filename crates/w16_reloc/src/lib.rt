//! Relocation: the records of a module's segment, checked, and their values written.
#![tactic(auto)]

mod chain;
mod fault;
mod flags;
mod image;
pub mod laws;
mod marks;
mod reading;
mod record;
mod records;
mod scratch;
mod segment;
mod sites;
mod value;

pub use fault::RelocFault;
pub use image::apply;
pub use record::{Fixup, Part, Record, Target};
pub use scratch::{Scratch, check, read_part};
pub use value::Far;
