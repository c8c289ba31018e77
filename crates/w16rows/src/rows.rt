//! Rows, as they stand in files.
//!
//! A row has a name, then settings, and then the lines of a script:
//!
//! ```text
//! # Lines that are empty, or that begin with this sign, say nothing.
//!
//! [a resource that is locked]
//! memory: 64
//! files: TLIB.DLL, TRES.DLL 99=52 as=OTHER.DLL
//! LoadLibrary OTHER.DLL -> 0021
//! LoadResource 0x21 1 -> 0106
//! 255 times: LockResource 0x106 -> 01070000
//! ; A line without an arrow has no reply.
//! Walk -> 00000000 00000020 0106 discardable 255 / 00000020 00000020 free / end
//! ```
//!
//! Behind a line stand an arrow and its reply, and strokes divide the lines of a walk. A count, `times` and a colon before it say how often it comes.
//!
//! | Setting | What it is | If it isn't there |
//! |---|---|---|
//! | `memory` | how many bytes the global heap has | 4,096 |
//! | `selectors` | how many objects there may be | 16 |
//! | `files` | the module files, as `files` of `w16_play` makes them | none |
//! | `kind` | `reading`: the lines are read, and after the arrow stands what each is read as, by `reading` of `w16_play` | the lines are played |
//! | `refusals` | `none`: the row is just played | it is played again with each growth of the run's memory refused in turn |
use std::alloc::{AllocError, Global};
use thiserror::Error;
use w16_kernel::check_sizes;
use w16_play::lines::split;

/// Why a text is no row.
#[derive(Debug, Clone, Copy, PartialEq, Eq, Drop, Error)]
pub enum RowFault {
    #[error("its name has no bracket after it, alone on a line")]
    Name,
    #[error("there is no such setting")]
    Setting,
    #[error("a setting or a count is no number")]
    Number,
    #[error("no machine has so much memory, or so many selectors")]
    Sizes,
    #[error("it has no lines")]
    Lines,
    #[error("the host has no memory")]
    Memory,
}

impl From<AllocError> for RowFault {
    fn from(_error: AllocError) -> RowFault {
        RowFault::Memory
    }
}

/// A script with its replies, and the machine that it is played on.
#[derive(Drop)]
pub struct Row<'a> {
    pub name: &'a str,
    /// Bytes of the global heap.
    pub memory: u32,
    pub selectors: u32,
    pub files: &'a str,
    /// Whether its lines are read, and not played.
    pub is_reading: bool,
    /// Whether it is played with each growth refused in turn too.
    pub has_refusals: bool,
    /// How many of its lines have a reply.
    pub replies: u32,
    /// The lines with their replies, each as often as it comes.
    pub lines: String,
}

/// The number that decimal digits are.
fn number(digits: &str) -> Result<u32, RowFault> {
    match digits.parse::<u32>() {
        Ok(number) => Ok(number),
        Err(_) => Err(RowFault::Number),
    }
}

impl<'a> Row<'a> {
    /// A row without lines.
    fn new(alloc: Global, name: &'a str) -> Row<'a> {
        Row {
            name,
            memory: 4096,
            selectors: 16,
            files: "",
            is_reading: false,
            has_refusals: true,
            replies: 0,
            lines: String::new(alloc),
        }
    }

    /// Puts a line after the others, that many times.
    fn put(&mut self, count: u32, line: &str) -> Result<(), AllocError> {
        for _ in 0..count {
            if !self.lines.is_empty() {
                self.lines.push_str("\n")?;
            }
            self.lines.push_str(line)?;
        }
        if split(line).1.is_some() {
            self.replies = self.replies.saturating_add(count);
        }
        Ok(())
    }

    /// Takes what stands after a colon: what is set, or a line that comes that many times.
    fn set(&mut self, key: &str, value: &'a str) -> Result<(), RowFault> {
        match key {
            "memory" => self.memory = number(value)?,
            "selectors" => self.selectors = number(value)?,
            "files" => self.files = value,
            "kind" if value == "reading" => self.is_reading = true,
            "refusals" if value == "none" => self.has_refusals = false,
            _ => match key.strip_suffix(" times") {
                Some(count) => self.put(number(count)?, value)?,
                None => return Err(RowFault::Setting),
            },
        }
        Ok(())
    }

    /// Takes a line of the file.
    fn take(&mut self, line: &'a str) -> Result<(), RowFault> {
        if line.is_empty() || line.starts_with("#") {
            return Ok(());
        }
        match line.split_once(": ") {
            Some((key, value)) if !line.starts_with(";") && !key.contains(" -> ") => {
                self.set(key, value)?
            }
            _ => self.put(1, line)?,
        }
        Ok(())
    }

    /// Takes all lines of the file that it has, of which one at least is of its script.
    fn take_all(&mut self, lines: &'a str) -> Result<(), RowFault> {
        for line in lines.split('\n') {
            self.take(line)?;
        }
        if self.lines.is_empty() {
            return Err(RowFault::Lines);
        }
        if check_sizes(self.memory, self.selectors).is_err() {
            return Err(RowFault::Sizes);
        }
        Ok(())
    }
}

/// The row of a text, which begins after the bracket before its name.
pub fn row_of(alloc: Global, text: &str) -> Result<Row<'_>, RowFault> {
    let Some((name, lines)) = text.split_once("]\n") else {
        return Err(RowFault::Name);
    };
    let mut row = Row::new(alloc, name);
    row.take_all(lines)?;
    Ok(row)
}
