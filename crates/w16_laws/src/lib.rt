//! The laws of `w16_model`, `w16_loading` and `w16_machine`, each the contract of a function. No code stands on this crate, so nothing else loads it.
#![tactic(auto)]

pub mod loading;
pub mod local;
pub mod machine;
pub mod model;
