//! A row that is played whole, on a new machine over its files in memory.

use crate::rows::Row;
use std::alloc::{AllocError, Global};
use std::io;
use std::str::{Split, from_utf8};
use w16_play::files::store_of;
use w16_play::lines::{is_whole, script_of, split};
use w16_play::machine::Machine;
use w16_script::{Ended, RunFault};
use w16_store::MemStore;

/// Plays lines on a machine, whose replies are put after the output, and answers how the run ended.
fn play(
    machine: &mut Machine<MemStore>,
    alloc: Global,
    lines: &str,
    output: &mut Vec<u8>,
) -> Result<Result<Ended, RunFault>, AllocError> {
    let script = script_of(alloc, lines)?;
    Ok(machine.play(&script, output))
}

/// Plays a row on a new machine.
fn play_anew(
    alloc: Global,
    row: &Row<'_>,
    output: &mut Vec<u8>,
) -> Result<Result<Ended, RunFault>, AllocError> {
    let store = store_of(alloc, row.files)?;
    let mut machine = Machine::new(alloc, row.memory, row.selectors, store)?;
    play(&mut machine, alloc, &row.lines, output)
}

/// Compares what was printed next with the reply to a line, part by part, and prints what differs. Whether nothing does.
fn is_answered(
    rt: &impl Print,
    file: &str,
    name: &str,
    line: &str,
    printed: &mut Split<'_, char>,
) -> io::Result<bool> {
    let (command, Some(reply)) = split(line) else {
        return Ok(true);
    };
    let mut is_right = true;
    for wanted in reply.split(" / ") {
        let found = printed.next().unwrap_or("");
        if found != wanted {
            println!(rt; "{file}: {name}: {command}: wanted '{wanted}', printed '{found}'")?;
            is_right = false;
        }
    }
    Ok(is_right)
}

/// Prints what came after the last reply, where anything was. Whether nothing was.
fn is_at_end(
    rt: &impl Print,
    file: &str,
    name: &str,
    printed: &mut Split<'_, char>,
) -> io::Result<bool> {
    let more = printed.next().unwrap_or("");
    if more.is_empty() {
        return Ok(true);
    }
    println!(rt; "{file}: {name}: after the last reply: printed '{more}'")?;
    Ok(false)
}

/// Compares what was printed of a row with its replies, line by line, and prints what differs. Whether nothing does.
fn are_answered(rt: &impl Print, file: &str, row: &Row<'_>, printed: &str) -> io::Result<bool> {
    let mut printed = printed.split('\n');
    let mut is_right = true;
    for line in row.lines.split('\n') {
        is_right = is_answered(rt, file, row.name, line, &mut printed)? && is_right;
    }
    Ok(is_at_end(rt, file, row.name, &mut printed)? && is_right)
}

/// Prints how a run ended, where it wasn't after the last line of its row. Whether it was.
fn is_ended(
    rt: &impl Print,
    file: &str,
    row: &Row<'_>,
    ended: Result<Ended, RunFault>,
) -> io::Result<bool> {
    match ended {
        Ok(ended) if is_whole(ended, &row.lines) => Ok(true),
        _ => {
            println!(rt; "{file}: {}: the run ended otherwise: {ended:?}", row.name)?;
            Ok(false)
        }
    }
}

/// Plays a row, and prints what differs from its replies, and whether the run ended before its last line. Whether all is as it should be.
pub fn is_played_right(
    rt: &(impl Print + AllocGlobal),
    file: &str,
    row: &Row<'_>,
) -> io::Result<bool> {
    let mut output = Vec::new(rt.alloc());
    let ended = play_anew(rt.alloc(), row, &mut output)?;
    let is_right = are_answered(rt, file, row, from_utf8(&output).unwrap_or(""))?;
    Ok(is_ended(rt, file, row, ended)? && is_right)
}
