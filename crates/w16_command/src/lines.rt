//! The lines of a script as a run comes to them.
use std::alloc::{AllocError, Global};
use std::str::from_utf8;
use w16_kernel::Reply;
use w16_script::{Expected, Line, MOST_BYTES, Registers, read_line, why_bad};

/// The lines that were read, and that the run hasn't come to.
#[derive(Drop)]
pub struct Lines {
    text: Vec<u8>,
    /// Where the next line begins, how many come before it, and what the registers have then.
    at: usize,
    number: u32,
    registers: Registers,
    /// Whether the script has ended.
    ended: bool,
}

/// The first line from a place on, and its length with its end. The last one needs none.
fn line_at(text: &[u8], at: usize, ended: bool) -> Option<(&[u8], usize)> {
    let (_, rest) = text.split_at_checked(at)?;
    let length = match rest.iter().position(|byte| *byte == b'\n') {
        Some(length) => length,
        None if ended && !rest.is_empty() => return Some((rest, rest.len())),
        None => return None,
    };
    let (line, _) = rest.split_at_checked(length)?;
    Some((
        line.strip_suffix(b"\r").unwrap_or(line),
        length.saturating_add(1),
    ))
}

/// Says what was expected in a bad line.
fn say_expected(rt: &impl Eprint, number: u32, line: &[u8]) {
    let _ = match why_bad(line) {
        Expected::Name(_) => eprintln!(rt; "line {number}: no command has this name"),
        Expected::Command => eprintln!(rt; "line {number}: a command is missing"),
        Expected::Arguments { name, parameters } => {
            let name = from_utf8(name).unwrap_or("it");
            let takes = if parameters.is_empty() {
                "no arguments"
            } else {
                parameters
            };
            eprintln!(rt; "line {number}: {name} takes {takes}")
        }
    };
}

impl Lines {
    /// Before the first line. It takes room for a piece that a run reads, and a line before it that isn't complete.
    pub fn new(alloc: Global) -> Result<Self, AllocError> {
        Ok(Lines {
            text: Vec::with_capacity(alloc, 65_536 + 4096)?,
            at: 0,
            number: 0,
            registers: Registers::new(),
            ended: false,
        })
    }

    /// Passes the next line, if it is a command, where there is a reply, else if it is none. Whether it did.
    fn pass(&mut self, rt: &impl Eprint, reply: Option<&Reply<'_>>) -> bool {
        let Some((line, length)) = line_at(self.text.as_slice(), self.at, self.ended) else {
            return false;
        };
        let number = self.number.saturating_add(1);
        match (
            read_line(line, &self.registers, &mut [0; MOST_BYTES]),
            reply,
        ) {
            (Line::Command { target, .. }, Some(reply)) => self.registers.store(target, reply),
            (Line::Silent, None) => {}
            (Line::Bad, None) => say_expected(rt, number, line),
            _ => return false,
        }
        self.at = self.at.saturating_add(length);
        self.number = number;
        true
    }

    /// Passes the lines before the next command.
    fn pass_others(&mut self, rt: &impl Eprint) {
        for _ in 0..self.text.len() {
            if !self.pass(rt, None) {
                return;
            }
        }
    }

    /// Takes bytes that were read, where all lines that ended before were run. None say that the script has ended.
    pub fn take(&mut self, rt: &impl Eprint, bytes: &[u8]) {
        self.pass_others(rt);
        let length = self.text.len();
        if self.at <= length {
            self.text.rotate_left(self.at);
            self.text.truncate(length - self.at);
        }
        self.at = 0;
        self.ended = bytes.is_empty();
        // There is room: a run ends at a line that is too long.
        let _ = self.text.extend_from_slice(bytes);
        if self.ended {
            self.pass_others(rt);
        }
    }

    /// Takes the reply to the next command, and gives the number of its line.
    pub fn answer(&mut self, rt: &impl Eprint, reply: &Reply<'_>) -> Option<u32> {
        self.pass_others(rt);
        self.pass(rt, Some(reply)).then_some(self.number)
    }
}
