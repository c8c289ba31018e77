//! Tests of the calls, from the global heap's to the kernel's, and of the command line, through their public faces. They stand in a crate of their own,
//! so that what they test is proved once.
#![tactic(auto)]

#[cfg(test)]
mod by_calls;
#[cfg(test)]
mod example;
#[cfg(test)]
mod folder;
#[cfg(test)]
mod full;
#[cfg(test)]
mod global;
#[cfg(test)]
mod kernel;
#[cfg(test)]
mod local;
#[cfg(test)]
mod options;
#[cfg(test)]
mod refusals;
