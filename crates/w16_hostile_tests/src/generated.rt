//! Scripts of all commands that no one wrote, judged by how they end, by the form of each reply, and by each walk.

use crate::judged::are_replies;
use crate::stores::{Hostile, HostileMachine};
use std::alloc::{AllocError, Global};
use std::str::from_utf8;
use std::test::Fail;
use w16_play::files::store_of;
use w16_play::machine::Machine;
use w16_play::texts::ALL;

/// Commands: the form of the reply, names, and what their arguments are.
const COMMANDS: &str = "\
w GlobalAlloc flags size
w GlobalFree|GlobalUnlock|GlobalDiscard|GlobalLRUNewest|GlobalLRUOldest|GlobalFlags|FreeResource handle
d GlobalLock|GlobalSize|GlobalHandle|GetSelectorBase|GetSelectorLimit|LockResource handle
d GlobalCompact size
w GlobalReAlloc handle size flags
b Read pointer count
o Write pointer bytes
o Fill pointer near byte
l Walk
d Moved
w LocalInit handle near size
k DS handle
w LocalAlloc flags near
w LocalReAlloc name near flags
w LocalDiscard|LocalFree|LocalLock|LocalUnlock|LocalSize|LocalFlags name
w LocalHandle|LocalCompact near
w LoadModule|LoadLibrary file
w Builtin|GetModuleHandle module
w FreeLibrary|FreeModule|GetModuleUsage use
d GetProcAddress use label
w FindResource use label label
w LoadResource use place
d SizeofResource use place";

/// Numbers that come one after another from a first, by shifts; none is 0.
#[derive(Clone, Copy)]
struct Numbers(u32);

impl Numbers {
    /// The next number, below a bound.
    fn below(&mut self, bound: u32) -> u32 {
        let mut number = self.0;
        number ^= number.wrapping_mul(8192);
        number ^= number / 131_072;
        number ^= number.wrapping_mul(32);
        self.0 = number;
        number.checked_rem(bound).unwrap_or(0)
    }

    /// One of any length up to 17 bits.
    fn spread(&mut self) -> u32 {
        let length = self.below(18);
        self.below(1u32.wrapping_shl(length))
    }

    /// One of the parts of a text.
    fn part_of<'a>(&mut self, text: &'a str, mark: char) -> &'a str {
        let mut left = self.below(text.split(mark).count().min(100) as u32);
        for part in text.split(mark) {
            if left == 0 {
                return part;
            }
            left = left.saturating_sub(1);
        }
        ""
    }

    /// A number of a kind, which has some.
    fn number_of(&mut self, kind: &Kind) -> u32 {
        let (_, _, first, step, count, slack) = *kind;
        let more = self.spread().checked_rem(slack).unwrap_or(0);
        first
            .wrapping_add(step.wrapping_mul(self.below(count)))
            .wrapping_add(more)
    }

    /// Puts an argument after a line: of texts each time, where it has no numbers, else one time in four.
    fn put(&mut self, alloc: Global, text: &mut String, kind: &Kind) -> Result<(), AllocError> {
        let (_, texts, _, _, count, _) = *kind;
        text.push_str(" ")?;
        if count == 0 || (self.below(4) == 0 && !texts.is_empty()) {
            return text.push_str(self.part_of(texts, ' '));
        }
        put_number(alloc, text, self.number_of(kind))
    }
}

/// Puts a number after a text.
fn put_number(alloc: Global, text: &mut String, number: u32) -> Result<(), AllocError> {
    let digits = format!(in alloc; "{number}")?;
    text.push_str(&digits)
}

/// A kind of argument: its name, texts that it may be, and of numbers the first, the step from one to the next, how many there are, and how much
/// may be added.
type Kind = (&'static str, &'static str, u32, u32, u32, u32);

static KINDS: &[Kind] = &[
    ("handle", "r0.lo r1.lo r0.hi", 262, 8, 18, 2),
    ("pointer", "r0 r1", 0x0107_0000, 0x8_0000, 18, 300),
    (
        "flags",
        "0 2 0x42 0x102 0x142 0x12 0x22 0x82 0x180 0x2002",
        0,
        0,
        0,
        1,
    ),
    ("size", "0 32 4294967295", 0, 0, 1, 131_072),
    ("near", "0 4 64", 0, 0, 1, 65_536),
    ("count", "", 0, 0, 1, 1025),
    ("byte", "", 0, 0, 1, 256),
    (
        "bytes",
        "00 ff4e45 000102030405060708090a0b0c0d0e0f",
        0,
        0,
        0,
        1,
    ),
    ("name", "", 0, 2, 40, 1),
    (
        "file",
        "TLIB.DLL TAPP.EXE TRES.DLL tlib.dll NONE.DLL",
        0,
        0,
        0,
        1,
    ),
    ("module", "TLIB KERNEL tres USER", 0, 0, 0, 1),
    ("use", "r0.lo", 33, 1, 4, 1),
    ("label", "GETA #1 #2 #10 getb #0 r1", 0, 0, 0, 1),
    ("place", "", 0, 1, 3, 1),
];

/// The kind of a name.
fn kind_of(name: &str) -> &'static Kind {
    for kind in KINDS {
        if kind.0 == name {
            return kind;
        }
    }
    &("", "0", 0, 0, 0, 1)
}

/// A script, with the forms of its replies.
#[derive(Drop)]
struct Script {
    text: String,
    forms: String,
}

impl Script {
    /// Puts the arguments of a line after it, of these kinds.
    fn put_arguments(
        &mut self,
        alloc: Global,
        numbers: &mut Numbers,
        kinds: &str,
    ) -> Result<(), AllocError> {
        for kind in kinds.split_ascii_whitespace() {
            numbers.put(alloc, &mut self.text, kind_of(kind))?;
        }
        self.text.push_str("\n")
    }

    /// Puts what stands before a line's name, and the form of its reply: of eight one is silent, one is bad, and two store their reply.
    fn put_front(&mut self, numbers: &mut Numbers, form: &str) -> Result<(), AllocError> {
        let place = numbers.below(8) as usize % 8;
        self.text
            .push_str(["; ", "x", "r0 = ", "r1 = ", "", "", "", ""][place])?;
        self.forms
            .push_str(["", "x", form, form, form, form, form, form][place])
    }

    /// Puts a line after others.
    fn put_line(&mut self, alloc: Global, numbers: &mut Numbers) -> Result<(), AllocError> {
        let command = numbers.part_of(COMMANDS, '\n');
        let (form, rest) = command.split_once(" ").unwrap_or(("", ""));
        let (names, kinds) = rest.split_once(" ").unwrap_or((rest, ""));
        self.put_front(numbers, form)?;
        self.text.push_str(numbers.part_of(names, '|'))?;
        self.put_arguments(alloc, numbers, kinds)
    }

    /// Puts up to 24 lines in place of those that it has, and a walk after them.
    fn put_lines(&mut self, alloc: Global, numbers: &mut Numbers) -> Result<(), AllocError> {
        self.text.clear();
        self.forms.clear();
        for _ in 0..numbers.below(25) {
            self.put_line(alloc, numbers)?;
        }
        self.forms.push_str("l")?;
        self.text.push_str("Walk\n")
    }

    /// Whether it ends as it should on a machine, after all its lines, with a reply of each form.
    fn is_right(&self, machine: &mut HostileMachine, alloc: Global, memory: u32) -> bool {
        let mut output = Vec::new(alloc);
        let is_whole = match machine.play(self.text.as_bytes(), &mut output) {
            Ok(ended) => ended.replies as usize == self.forms.len(),
            Err(_) => false,
        };
        is_whole && are_replies(from_utf8(&output).unwrap_or(""), &self.forms, memory)
    }

    /// Becomes one new script after another, up to 250, until one goes wrong on a machine. Whether all go right.
    fn are_right(
        &mut self,
        machine: &mut HostileMachine,
        alloc: Global,
        memory: u32,
        numbers: &mut Numbers,
    ) -> Result<bool, AllocError> {
        for _ in 0..250u32 {
            self.put_lines(alloc, numbers)?;
            if !self.is_right(machine, alloc, memory) {
                return Ok(false);
            }
        }
        Ok(true)
    }

    /// The same on a new machine of that many bytes.
    fn are_right_anew(
        &mut self,
        alloc: Global,
        memory: u32,
        numbers: &mut Numbers,
    ) -> Result<bool, AllocError> {
        let store = Hostile::failing(store_of(alloc, ALL)?, 0);
        let mut machine = Machine::new(alloc, memory, 16, store)?;
        self.are_right(&mut machine, alloc, memory, numbers)
    }
}

/// 10,000 scripts, 250 on a machine.
#[test]
fn generated_scripts_end_right(rt: HostRuntime) -> Result<(), Fail> {
    let mut numbers = Numbers(2_463_534_242);
    let mut script = Script {
        text: String::new(rt.alloc()),
        forms: String::new(rt.alloc()),
    };
    for number in 0..40usize {
        let memory = [256, 512, 4096, 262_144][number % 4];
        let are_right = script.are_right_anew(rt.alloc(), memory, &mut numbers)?;
        assert!(rt; are_right, "on machine {number}: {}", script.text);
    }
    Ok(())
}
