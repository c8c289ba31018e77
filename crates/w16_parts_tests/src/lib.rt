//! Tests of the heap's parts that stand alone, through their public faces: raw memory and the holes in it, and the constructors where memory is refused. Rows of scripts go over
//! the rest. They stand in a crate of their own, so that what they test is proved once.
#![tactic(auto)]

#[cfg(test)]
mod holes;
#[cfg(test)]
mod refusals;
#[cfg(test)]
mod region;
