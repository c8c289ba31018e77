//! What `w16heap` does once its command line is read. It is a library, so that tests see it.
#![tactic(auto)]

mod explain;
mod fault;
mod lines;
mod playing;
mod reason;

pub use fault::{Fault, report};
pub use playing::{play, run_script};
