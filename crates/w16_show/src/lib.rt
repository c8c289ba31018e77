//! What a module file says, as text and as JSON, with a verdict on it.
#![tactic(auto)]

mod bytes;
mod entries;
mod extract;
mod header;
mod imports;
mod json_file;
mod json_header;
mod json_segments;
mod json_tables;
mod json_values;
mod open;
mod parts;
mod references;
mod relocations;
mod resources;
mod segments;
mod sites;
mod text;
mod verdict;
mod words;

pub use extract::Resources;
pub use json_file::show_json;
pub use parts::Parts;
pub use text::show_text;
pub use verdict::{Unsound, Verdict};
