//! Tests of hostile use, from script bytes to reply bytes: devices that fail, stores that lie, files that are cut, change or never end, and scripts
//! that no one wrote.
#![tactic(auto)]

#[cfg(test)]
mod endless;
#[cfg(test)]
mod failures;
#[cfg(test)]
mod generated;
#[cfg(test)]
mod judged;
#[cfg(test)]
mod lies;
#[cfg(test)]
mod stores;
