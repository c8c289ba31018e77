//! Reads NE files: the tables of a module, or the first fault.
#![tactic(auto)]

mod entry_table;
mod fault;
mod flags;
mod head;
mod imported;
pub mod laws;
mod listing;
mod module_file;
mod name_piece;
mod name_table;
mod names;
mod nonresident;
mod ordinals;
mod part;
mod read;
mod reading;
mod reference_table;
mod resource_blocks;
mod resource_places;
mod resource_rows;
mod resource_table;
mod segment_table;
mod text_window;

pub use entry_table::Entry;
pub use fault::NeFault;
pub use flags::{ResourceFlags, SegmentFlags};
pub use imported::imported_name;
pub use module_file::Module;
pub use part::{FilePart, PartFault};
pub use read::{read_module, read_parts};
pub use resource_places::{Resource, ResourceName};
pub use segment_table::{LARGEST_SEGMENT, SEGMENT_UNIT, Segment};
