//! Scripts with the replies that their lines must have, played on machines over module files that are made from text. Tests stand on it, and the
//! program `w16rows`, which plays files of such scripts.
#![tactic(auto)]

pub mod files;
pub mod held;
pub mod lines;
pub mod machine;
pub mod readings;
pub mod texts;
