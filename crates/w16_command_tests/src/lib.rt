//! Tests of the program: what it says on standard error, and its statuses.
#![tactic(auto)]

#[cfg(test)]
mod explained;
#[cfg(test)]
mod faults;
#[cfg(test)]
mod said;
