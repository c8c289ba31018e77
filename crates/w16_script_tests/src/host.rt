//! A host at both ends of a run.
ghost use Rattle.std.specs.Prelude.{◌≡◌, ◌≤◌, length, IfOk};

use arrayvec::ArrayVec;
use std::cell::RefCell;
use std::io::{Error, ErrorKind, Read, Result, Write};

/// A text that many times.
pub type Part<'a> = (u64, &'a [u8]);

/// What a host gives, what it takes, and where it fails.
#[derive(Clone, Copy)]
pub struct Plan<'a> {
    /// What is read, at most that many bytes at once. No part is empty.
    pub text: &'a [Part<'a>],
    pub at_once: usize,
    /// Whether a read fails where the text ends.
    pub breaks: bool,
    /// Whether every second read is interrupted, the first of them too.
    pub interrupts: bool,
    /// That many bytes are taken, at most that many at once, and then a write fails.
    pub room: usize,
    pub room_at_once: usize,
    /// That many flushes are taken, and then one meets this.
    pub flushes: u32,
    pub trouble: ErrorKind,
    /// Whether a read gives bytes of one part at most, and each read and each flush is noted.
    pub talks: bool,
}

/// A host that gives nothing, takes all, and never fails.
pub const PLAN: Plan<'_> = Plan {
    text: &[],
    at_once: usize::MAX,
    breaks: false,
    interrupts: false,
    room: usize::MAX,
    room_at_once: usize::MAX,
    flushes: u32::MAX,
    trouble: ErrorKind::Other,
    talks: false,
};

/// What a host does, and what it notes of it.
#[derive(Drop)]
struct State<'a> {
    /// Its room and its flushes are those that are left.
    plan: Plan<'a>,
    /// Where the next byte is: the part, how often it was given, and the place in it.
    part: usize,
    times: u64,
    at: usize,
    /// Whether the end was told. After it a read fails.
    ended: bool,
    reads: u32,
    notes: ArrayVec<u8, 4096>,
}

impl State<'_> {
    /// Notes what it takes or is asked for.
    fn has_noted(&mut self, text: &[u8]) -> bool {
        self.notes.try_extend_from_slice(text).is_ok()
    }

    /// The next byte of the text, if it may be given together with those of a part.
    fn next(&mut self, with: usize) -> Option<u8> {
        if self.plan.talks && self.part != with {
            return None;
        }
        let (times, text) = *self.plan.text.get(self.part)?;
        let byte = *text.get(self.at)?;
        self.at = self.at.wrapping_add(1);
        if self.at == text.len() {
            self.at = 0;
            self.times = self.times.wrapping_add(1);
        }
        if self.times == times {
            self.times = 0;
            self.part = self.part.wrapping_add(1);
        }
        Some(byte)
    }

    /// How many bytes it gives.
    fn give(&mut self, buf: &mut [u8]) -> usize
        ensures length { length buf.new ≡ length buf.old }
        ensures bound { result ≤ length buf.new }
    {
        let with = self.part;
        let most = buf.len().min(self.plan.at_once);
        for at in 0..most {
            match self.next(with) {
                Some(byte) => buf[at] = byte,
                None => return at,
            }
        }
        most
    }

    /// Whether it can't read, and why.
    fn trouble(&mut self) -> Option<ErrorKind> {
        self.reads = self.reads.wrapping_add(1);
        if self.plan.talks && !self.has_noted(b"read\n") {
            return Some(ErrorKind::Other);
        }
        if self.plan.interrupts && self.reads % 2 == 1 {
            return Some(ErrorKind::Interrupted);
        }
        None
    }

    fn read(&mut self, buf: &mut [u8]) -> Result<usize>
        ensures length { length buf.new ≡ length buf.old }
        ensures bound { IfOk result (λ n. n ≤ length buf.new) }
    {
        if let Some(kind) = self.trouble() {
            return Err(Error::from(kind));
        }
        let count = self.give(buf);
        if count == 0 && (self.ended || self.plan.breaks) {
            return Err(Error::from(ErrorKind::Other));
        }
        self.ended = count == 0;
        Ok(count)
    }

    fn write(&mut self, buf: &[u8]) -> Result<usize>
        ensures { IfOk result (λ n. n ≤ length buf.now) }
    {
        let count = buf.len().min(self.plan.room).min(self.plan.room_at_once);
        if count == 0 || !self.has_noted(&buf[..count]) {
            return Err(Error::from(ErrorKind::Other));
        }
        self.plan.room = self.plan.room.saturating_sub(count);
        Ok(count)
    }

    fn flush(&mut self) -> Result<()> {
        let noted = !self.plan.talks || self.has_noted(b"flush\n");
        match self.plan.flushes.checked_sub(1) {
            Some(left) if noted => {
                self.plan.flushes = left;
                Ok(())
            }
            _ => {
                self.plan.flushes = u32::MAX;
                Err(Error::from(self.plan.trouble))
            }
        }
    }
}

/// A host that follows a plan, and notes in one place what it is asked for, in order.
#[derive(Drop)]
pub struct Host<'a> {
    state: RefCell<State<'a>>,
}

/// Whether a text is these parts, one after another.
fn is_made_of(text: &[u8], parts: &[Part<'_>]) -> bool {
    let mut rest = text;
    for (times, part) in parts {
        for _ in 0..*times {
            let (front, after) = rest.split_at(part.len().min(rest.len()));
            if front != *part {
                return false;
            }
            rest = after;
        }
    }
    rest.is_empty()
}

impl<'a> Host<'a> {
    /// A host that wasn't asked yet.
    pub fn new(plan: Plan<'a>) -> Self {
        Host {
            state: RefCell::new(State {
                plan,
                part: 0,
                times: 0,
                at: 0,
                ended: false,
                reads: 0,
                notes: ArrayVec::new(),
            }),
        }
    }

    /// Whether these are its notes.
    pub fn has_noted(&self, parts: &[Part<'_>]) -> bool {
        match self.state.try_borrow() {
            Ok(state) => is_made_of(state.notes.as_slice(), parts),
            Err(_) => false,
        }
    }

    /// How often it was read.
    pub fn reads(&self) -> u32 {
        match self.state.try_borrow() {
            Ok(state) => state.reads,
            Err(_) => 0,
        }
    }
}

impl Read for &Host<'_> {
    fn read(&mut self, buf: &mut [u8]) -> Result<usize> {
        match self.state.try_borrow_mut() {
            Ok(mut state) => state.read(buf),
            Err(_) => Err(Error::from(ErrorKind::Other)),
        }
    }
}

impl Write for &Host<'_> {
    fn write(&mut self, buf: &[u8]) -> Result<usize> {
        match self.state.try_borrow_mut() {
            Ok(mut state) => state.write(buf),
            Err(_) => Err(Error::from(ErrorKind::Other)),
        }
    }

    fn flush(&mut self) -> Result<()> {
        match self.state.try_borrow_mut() {
            Ok(mut state) => state.flush(),
            Err(_) => Err(Error::from(ErrorKind::Other)),
        }
    }
}
