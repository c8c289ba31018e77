//! The meaning of the machine that a script runs: the world, the table of the commands, the steps and runs, as definitions (`specs/`).
//! Their laws are in `w16_laws`. The heap, its handles and far accesses are defined in `w16_model`; docs/DEFINITIONS.md of the repository reads all aloud.
#![tactic(auto)]

pub mod access;
pub mod local;
pub mod name;
