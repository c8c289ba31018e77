//! What loading asks of a format, and what NE files and their relocations give: one is the other.
#![tactic(auto)]

pub mod laws;
