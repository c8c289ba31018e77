//! Verdicts on module files.
use w16_ne::PartFault;
use w16_reloc::RelocFault;

/// A segment whose relocation records aren't sound.
#[derive(Debug, Clone, Copy, PartialEq, Eq)]
pub struct Unsound {
    /// The segment's number, from 1.
    pub segment: usize,
    /// The first fault of its records.
    pub fault: RelocFault,
}

/// What is to be said of a file as a whole.
#[derive(Debug, Clone, Copy, PartialEq, Eq)]
pub enum Verdict {
    /// Its module is accepted, and the relocation records of each segment are sound.
    Sound,
    /// Its module is accepted, and this is the first segment that isn't sound.
    NotSound(Unsound),
    /// It has no module that is accepted, and this is its first fault, with the part of the file that it is in.
    NotAccepted(PartFault),
}
