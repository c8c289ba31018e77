//! Tests of scripts, through their public faces: what a line is read as, what a reply is printed as, and whole runs. They stand in a crate of their own,
//! so that what they test is proved once.
#![tactic(auto)]

#[cfg(test)]
mod host;
#[cfg(test)]
mod lines;
#[cfg(test)]
mod prints;
#[cfg(test)]
mod registers;
#[cfg(test)]
mod runs;
