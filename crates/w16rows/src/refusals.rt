//! A row of which each growth is refused in turn: the run ends by want of memory after whole replies, and the call that was refused has changed
//! nothing.

use crate::rows::Row;
use std::alloc::{AllocError, Global};
use std::io;
use w16_fuse::Fuse;
use w16_play::files::store_of;
use w16_play::lines::{after_reply, first_difference, first_wrong, is_whole, script_of, split};
use w16_play::machine::Machine;
use w16_script::RunFault;
use w16_store::MemStore;

/// A machine whose growths can be refused.
type Refusing<'a> = Machine<MemStore, &'a Fuse<Global>>;

/// More growths than any row has.
const MANY: u64 = 1000;

/// The calls that may take memory of the host.
const TAKING: [&str; 4] = ["LocalInit ", "Builtin ", "LoadModule ", "LoadLibrary "];

/// A line without the register that its reply goes to.
fn call_of(line: &str) -> &str {
    match line.split_once(" = ") {
        Some((register, call)) if register.starts_with("r") => call,
        _ => line,
    }
}

/// Whether a line's call may take memory.
fn takes_memory(line: &str) -> bool {
    let call = call_of(line);
    for name in TAKING {
        if call.starts_with(name) {
            return true;
        }
    }
    false
}

/// The first of the lines that has a reply.
fn first_answered(lines: &str) -> &str {
    for line in lines.split('\n') {
        if split(line).1.is_some() {
            return line;
        }
    }
    ""
}

/// The lines after those whose replies were printed; none where something else was.
fn lines_after<'a>(lines: &'a str, printed: &[u8]) -> Option<&'a str> {
    let mut rest = lines;
    let mut left = printed;
    for _ in 0..lines.len() {
        if left.is_empty() {
            return Some(rest);
        }
        let (line, after) = rest.split_once("\n").unwrap_or((rest, ""));
        left = after_reply(left, line)?;
        rest = after;
    }
    None
}

/// A new machine over the files of a row.
fn machine_of<'a>(
    fuse: &'a Fuse<Global>,
    alloc: Global,
    row: &Row<'_>,
) -> Result<Refusing<'a>, AllocError> {
    let store = store_of(alloc, row.files)?;
    Machine::new(fuse, row.memory, row.selectors, store)
}

/// Whether the walk of a machine is printed so after some lines.
fn has_walk_after(
    machine: &mut Refusing<'_>,
    alloc: Global,
    lines: &str,
    walk: &[u8],
) -> Result<bool, AllocError> {
    let script = script_of(alloc, lines)?;
    let mut output = Vec::new(alloc);
    let _ = machine.play(&script, &mut output);
    output.clear();
    let _ = machine.play(b"Walk\n", &mut output);
    Ok(output.as_slice() == walk)
}

/// Whether the walk of a new machine is printed so after the front of a row.
fn is_walk_of_front(
    alloc: Global,
    row: &Row<'_>,
    front: &str,
    walk: &[u8],
) -> Result<bool, AllocError> {
    let fuse = Fuse::new(alloc);
    let mut machine = machine_of(&fuse, alloc, row)?;
    has_walk_after(&mut machine, alloc, front, walk)
}

/// Whether the walk of a machine is that of a new one after the front of a row.
fn is_as_after_front(
    machine: &mut Refusing<'_>,
    alloc: Global,
    row: &Row<'_>,
    front: &str,
) -> Result<bool, AllocError> {
    let mut walk = Vec::new(alloc);
    let _ = machine.play(b"Walk\n", &mut walk);
    is_walk_of_front(alloc, row, front, &walk)
}

/// Whether a run that had no memory printed whole replies up to a line that may take some, or none where it couldn't read its script, and the walk
/// is as before that line. The line and those after it are answered as they should be when they are asked for again; lines with registers aren't,
/// since these begin anew.
fn is_undone(
    machine: &mut Refusing<'_>,
    alloc: Global,
    row: &Row<'_>,
    printed: &[u8],
) -> Result<bool, AllocError> {
    let lines = row.lines.as_str();
    let Some(rest) = lines_after(lines, printed) else {
        return Ok(false);
    };
    let front = lines.strip_suffix(rest).unwrap_or("").trim_end();
    let may_end = printed.is_empty() || takes_memory(first_answered(rest));
    if !may_end || !is_as_after_front(machine, alloc, row, front)? {
        return Ok(false);
    }
    Ok(lines.starts_with("r") || first_wrong(machine, alloc, rest)? == 0)
}

/// Whether a run of a row's script ends as it should where a growth of it may be refused: by `Memory` where one was.
fn script_ends_right(
    fuse: &Fuse<Global>,
    machine: &mut Refusing<'_>,
    alloc: Global,
    row: &Row<'_>,
    script: &[u8],
) -> Result<bool, AllocError> {
    let mut output = Vec::new(alloc);
    let ended = machine.play(script, &mut output);
    if fuse.is_armed() {
        return Ok(match ended {
            Ok(ended) => is_whole(ended, &row.lines) && first_difference(&output, &row.lines) == 0,
            Err(_) => false,
        });
    }
    Ok(ended == Err(RunFault::Memory) && is_undone(machine, alloc, row, &output)?)
}

/// The same of a row's lines.
fn ends_right(
    fuse: &Fuse<Global>,
    machine: &mut Refusing<'_>,
    alloc: Global,
    row: &Row<'_>,
) -> Result<bool, AllocError> {
    let script = script_of(alloc, &row.lines)?;
    script_ends_right(fuse, machine, alloc, row, &script)
}

/// Whether a row ends as it should where this growth of its run is refused.
fn row_ends_right(
    fuse: &Fuse<Global>,
    alloc: Global,
    row: &Row<'_>,
    growth: u64,
) -> Result<bool, AllocError> {
    fuse.arm(0);
    let mut machine = machine_of(fuse, alloc, row)?;
    fuse.arm(growth);
    ends_right(fuse, &mut machine, alloc, row)
}

/// How many growths a row has, or the first of them whose refusal goes wrong.
fn growths(
    fuse: &Fuse<Global>,
    alloc: Global,
    row: &Row<'_>,
) -> Result<Result<u64, u64>, AllocError> {
    for growth in 1..MANY {
        if !row_ends_right(fuse, alloc, row, growth)? {
            return Ok(Err(growth));
        }
        if fuse.is_armed() {
            return Ok(Ok(growth - 1));
        }
    }
    Ok(Err(MANY))
}

/// Whether one of the lines may load a file.
fn may_load(lines: &str) -> bool {
    for line in lines.split('\n') {
        let call = call_of(line);
        if call.starts_with("LoadModule ") || call.starts_with("LoadLibrary ") {
            return true;
        }
    }
    false
}

/// How many growths a line takes: twelve where a local heap begins by it, and one, for its name, where it adds the first module.
fn growths_of(line: &str) -> u64 {
    let (command, reply) = split(line);
    match reply {
        Some("0001") if call_of(command).starts_with("LocalInit ") => 12,
        Some("0021") if takes_memory(line) => 1,
        _ => 0,
    }
}

/// Whether a row may have that many growths: one to read its script, and those of its lines; more where it loads files.
fn may_have(row: &Row<'_>, growths: u64) -> bool {
    let mut reckoned = 1u64;
    for line in row.lines.split('\n') {
        reckoned = reckoned.saturating_add(growths_of(line));
    }
    growths == reckoned || growths > reckoned && may_load(&row.lines)
}

/// Refuses each growth of a row in turn, and prints where it then ends otherwise than it should, or has another number of growths. Whether neither is
/// so.
pub fn is_refused_right(
    rt: &(impl Print + AllocGlobal),
    file: &str,
    row: &Row<'_>,
) -> io::Result<bool> {
    let fuse = Fuse::new(rt.alloc());
    let growths = growths(&fuse, rt.alloc(), row)?;
    is_told_right(rt, file, row, growths)
}

/// Prints what is wrong of the growths of a row, or of the first whose refusal goes wrong. Whether nothing is.
fn is_told_right(
    rt: &impl Print,
    file: &str,
    row: &Row<'_>,
    growths: Result<u64, u64>,
) -> io::Result<bool> {
    let name = row.name;
    match growths {
        Ok(growths) if may_have(row, growths) => return Ok(true),
        Ok(growths) => println!(rt; "{file}: {name}: {growths} growths")?,
        Err(growth) => println!(rt; "{file}: {name}: ends otherwise without growth {growth}")?,
    }
    Ok(false)
}
