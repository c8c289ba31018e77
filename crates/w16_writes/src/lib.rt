//! What scripts write through far pointers reads back, over whole runs of the machine: positions, accesses, and the law, as definitions (`specs/`)
//! and their proofs. docs/DEFINITIONS.md of the repository reads all aloud.
#![tactic(auto)]

pub mod laws;
