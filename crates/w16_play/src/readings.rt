//! What lines are read as, as a programmer sees it.

use std::alloc::{AllocError, Global};
use w16_script::{Line, MOST_BYTES, Registers, read_line};

/// Registers of which some have numbers, and all others 0.
pub fn filled() -> Registers {
    let mut registers = Registers::new();
    registers.set(0, 0x0107_0003);
    registers.set(1, 262);
    registers.set(5, 1024);
    registers.set(42, 0xffff_ffff);
    registers.set(99, 65_535);
    registers
}

/// What a line is read as with these registers: the one that its reply goes to, and its call; or that it is bad, or silent.
pub fn reading(alloc: Global, line: &[u8]) -> Result<String, AllocError> {
    match read_line(line, &filled(), &mut [0; MOST_BYTES]) {
        Line::Command { target, call } => format!(in alloc; "{target:?} {call:?}"),
        Line::Bad => format!(in alloc; "bad"),
        Line::Silent => format!(in alloc; "silent"),
    }
}
