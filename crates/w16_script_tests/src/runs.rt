//! Whole runs, as tables of hosts with how a run over them ends and what they note.

mod scripts;

use crate::host::{Host, PLAN, Part, Plan};
use scripts::{COUNTED, DIALOGUES, ENDLESS, WRITTEN, scripts};
use std::alloc::Global;
use std::io::{BufWriter, ErrorKind};
use w16_play::machine::Machine;
use w16_script::{Ended, RunFault};
use w16_store::MemStore;

/// A talking host, with how a run over it ends on a machine of 4,096 bytes, and what it notes.
pub struct Dialogue {
    pub name: &'static str,
    /// Whether the writer before the host has a buffer.
    pub buffered: bool,
    pub text: &'static [Part<'static>],
    pub breaks: bool,
    pub room: usize,
    pub flushes: u32,
    pub trouble: ErrorKind,
    pub ended: Result<Ended, RunFault>,
    pub notes: &'static [Part<'static>],
}

/// A host that doesn't talk, with how a run over it ends on a machine of that many bytes.
pub struct Script {
    pub name: &'static str,
    pub text: &'static [Part<'static>],
    /// How many bytes are read at once, in one run after another.
    pub by: &'static [usize],
    pub breaks: bool,
    pub interrupts: bool,
    pub memory: u32,
    pub ended: Result<Ended, RunFault>,
    pub notes: &'static [Part<'static>],
}

/// How a run ended that reads from a host, and writes to it.
fn play(machine: &mut Machine<MemStore>, host: &Host<'_>) -> Result<Ended, RunFault> {
    let mut reader = host;
    let mut writer = host;
    machine.run(&mut reader, &mut writer)
}

/// How it ended where the writer before the host has a buffer; none where that had no memory.
fn play_through_a_buffer(
    machine: &mut Machine<MemStore>,
    alloc: Global,
    host: &Host<'_>,
) -> Option<Result<Ended, RunFault>> {
    let mut reader = host;
    let mut writer = BufWriter::new(alloc, host).ok()?;
    Some(machine.run(&mut reader, &mut writer))
}

/// How a run ended on a new machine of that many bytes. There is none where the machine had no memory.
fn outcome(alloc: Global, memory: u32, host: &Host<'_>) -> Option<Result<Ended, RunFault>> {
    let mut machine = Machine::new(alloc, memory, 16, MemStore::new(alloc)).ok()?;
    Some(play(&mut machine, host))
}

/// How it ended on one of 4,096 bytes where the writer before the host has a buffer.
fn outcome_through_a_buffer(alloc: Global, host: &Host<'_>) -> Option<Result<Ended, RunFault>> {
    let mut machine = Machine::new(alloc, 4096, 16, MemStore::new(alloc)).ok()?;
    play_through_a_buffer(&mut machine, alloc, host)
}

/// Whether a run over a script's host ends as the script says, and the host notes what it says.
fn is_played(alloc: Global, script: &Script, at_once: usize) -> bool {
    let host = Host::new(Plan {
        text: script.text,
        at_once,
        breaks: script.breaks,
        interrupts: script.interrupts,
        ..PLAN
    });
    let ended = outcome(alloc, script.memory, &host);
    ended == Some(script.ended) && host.has_noted(script.notes)
}

/// How many bytes are read at once where a run over a script's host is otherwise.
fn first_wrong(alloc: Global, script: &Script) -> Option<usize> {
    for at_once in script.by {
        if !is_played(alloc, script, *at_once) {
            return Some(*at_once);
        }
    }
    None
}

#[test]
fn plays_scripts(rt: HostRuntime) {
    for script in scripts() {
        let wrong = first_wrong(rt.alloc(), script);
        assert!(rt; wrong.is_none(), "{} by {wrong:?}", script.name);
    }
}

/// The host of a dialogue.
fn talking(dialogue: &Dialogue) -> Host<'static> {
    Host::new(Plan {
        text: dialogue.text,
        breaks: dialogue.breaks,
        room: dialogue.room,
        flushes: dialogue.flushes,
        trouble: dialogue.trouble,
        talks: true,
        ..PLAN
    })
}

/// Whether a run over a dialogue's host ends as the dialogue says, and the host notes what it says.
fn is_held(alloc: Global, dialogue: &Dialogue) -> bool {
    let host = talking(dialogue);
    let ended = if dialogue.buffered {
        outcome_through_a_buffer(alloc, &host)
    } else {
        outcome(alloc, 4096, &host)
    };
    ended == Some(dialogue.ended) && host.has_noted(dialogue.notes)
}

#[test]
fn holds_dialogues(rt: HostRuntime) {
    for dialogue in DIALOGUES {
        assert!(rt; is_held(rt.alloc(), dialogue), "{}", dialogue.name);
    }
}

/// Whether the run of a text has that many lines and replies, each of which says that its line is bad.
fn is_counted(alloc: Global, text: &'static [Part<'static>], ended: Ended, at_once: usize) -> bool {
    let host = Host::new(Plan {
        text,
        at_once,
        ..PLAN
    });
    outcome(alloc, 4096, &host) == Some(Ok(ended))
        && host.has_noted(&[(ended.replies as u64, b"error syntax\n")])
}

/// How many bytes are read at once where a text is counted otherwise.
fn first_miscounted(alloc: Global, text: &'static [Part<'static>], ended: Ended) -> Option<usize> {
    for at_once in [1, 2, 3, 100_000] {
        if !is_counted(alloc, text, ended, at_once) {
            return Some(at_once);
        }
    }
    None
}

#[test]
fn counts_lines_and_replies(rt: HostRuntime) {
    for (text, lines, replies) in COUNTED {
        let ended = Ended {
            lines: *lines,
            replies: *replies,
        };
        let wrong = first_miscounted(rt.alloc(), text, ended);
        assert!(rt;
            wrong.is_none(),
            "{lines} lines, {replies} replies, by {wrong:?}"
        );
    }
}

/// A script with what is written of it.
pub struct Written {
    pub text: &'static [Part<'static>],
    pub memory: u32,
    pub ended: Result<Ended, RunFault>,
    pub written: &'static [u8],
}

/// Whether a writer that takes that many bytes, and that many at once, gets just these of what a script writes, and fails if that isn't all.
fn stops_after(alloc: Global, script: &Written, room: usize, room_at_once: usize) -> bool {
    let host = Host::new(Plan {
        text: script.text,
        room,
        room_at_once,
        ..PLAN
    });
    let count = room.min(script.written.len());
    let ended = if count < script.written.len() {
        Err(RunFault::Write)
    } else {
        script.ended
    };
    outcome(alloc, script.memory, &host) == Some(ended)
        && host.has_noted(&[(1, &script.written[..count])])
}

/// How many bytes are taken at once where a writer that takes that many gets others, or fails otherwise.
fn first_wrong_by(alloc: Global, script: &Written, room: usize) -> Option<usize> {
    for at_once in [1, 3, 5, 64, 96] {
        if !stops_after(alloc, script, room, at_once) {
            return Some(at_once);
        }
    }
    None
}

/// How many bytes a writer takes that gets others, or fails otherwise, and how many at once.
fn first_wrong_room(alloc: Global, script: &Written) -> Option<(usize, usize)> {
    for room in 0..=script.written.len() {
        if let Some(at_once) = first_wrong_by(alloc, script, room) {
            return Some((room, at_once));
        }
    }
    None
}

#[test]
fn stops_at_each_byte_that_is_not_taken(rt: HostRuntime) {
    for script in WRITTEN {
        let wrong = first_wrong_room(rt.alloc(), script);
        assert!(rt; wrong.is_none(), "{wrong:?}");
    }
}

/// How often a text is read, by that many bytes at once, until it is too long and nothing was written.
fn reads_until_too_long(
    alloc: Global,
    text: &'static [Part<'static>],
    at_once: usize,
) -> Option<u32> {
    let host = Host::new(Plan {
        text,
        at_once,
        ..PLAN
    });
    match outcome(alloc, 4096, &host) {
        Some(Err(RunFault::TooLong)) if host.has_noted(&[]) => Some(host.reads()),
        _ => None,
    }
}

#[test]
fn reads_nothing_after_the_piece_that_passes_a_limit(rt: HostRuntime) {
    for (text, at_once, reads) in ENDLESS {
        let found = reads_until_too_long(rt.alloc(), text, *at_once);
        assert!(rt; found == Some(*reads), "{reads} by {at_once}");
    }
}
