//! Lines of scripts with their replies, played and compared.
//!
//! After a line stand an arrow and its reply, where it has one. Strokes divide the lines of a walk.

use crate::machine::Machine;
use std::alloc::{AllocError, Allocator, Global};
use w16_script::Ended;
use w16_store::Store;

/// A line of a script, and its reply, where it has one.
pub fn split(line: &str) -> (&str, Option<&str>) {
    match line.split_once(" -> ") {
        Some((command, reply)) => (command, Some(reply)),
        None => (line, None),
    }
}

/// Puts a text and the end of its line after others.
fn put(text: &mut Vec<u8>, line: &str) -> Result<(), AllocError> {
    text.extend_from_slice(line.as_bytes())?;
    text.push(b'\n')?;
    Ok(())
}

/// The script of lines.
pub fn script_of(alloc: Global, lines: &str) -> Result<Vec<u8>, AllocError> {
    let mut text = Vec::new(alloc);
    for line in lines.split('\n') {
        put(&mut text, split(line).0)?;
    }
    Ok(text)
}

/// Whether a run ended after all lines, with a reply to each that has one.
pub fn is_whole(ended: Ended, lines: &str) -> bool {
    let (mut count, mut replies) = (0u32, 0u32);
    for line in lines.split('\n') {
        count = count.saturating_add(1);
        replies = replies.saturating_add(u32::from(split(line).1.is_some()));
    }
    ended.lines == count && ended.replies == replies
}

/// What was printed after the reply to a line; none where that isn't there whole.
pub fn after_reply<'a>(printed: &'a [u8], line: &str) -> Option<&'a [u8]> {
    let mut rest = printed;
    if let (_, Some(reply)) = split(line) {
        for part in reply.split(" / ") {
            rest = rest
                .strip_prefix(part.as_bytes())?
                .strip_prefix(b"\n".as_slice())?;
        }
    }
    Some(rest)
}

/// The number, from 1 on, of the first line whose reply is printed otherwise than it should be, or of the last one where more is printed; 0 where
/// just the replies are.
pub fn first_difference(printed: &[u8], lines: &str) -> usize {
    let (mut rest, mut number) = (printed, 0usize);
    for line in lines.split('\n') {
        number = number.saturating_add(1);
        match after_reply(rest, line) {
            Some(after) => rest = after,
            None => return number,
        }
    }
    if rest.is_empty() { 0 } else { number }
}

/// Plays the script of lines on a machine: the first wrong line of it, as `first_wrong` answers it.
fn first_wrong_of_script<S: Store + Drop, A: Allocator + Copy>(
    machine: &mut Machine<S, A>,
    alloc: Global,
    lines: &str,
    script: &[u8],
) -> usize {
    let mut output = Vec::new(alloc);
    let is_whole = match machine.play(script, &mut output) {
        Ok(ended) => is_whole(ended, lines),
        Err(_) => false,
    };
    let wrong = first_difference(&output, lines);
    if wrong == 0 && !is_whole {
        usize::MAX
    } else {
        wrong
    }
}

/// Plays lines on a machine, and answers the number of the first whose reply is another; 0 where none is, and the run was whole.
pub fn first_wrong<S: Store + Drop, A: Allocator + Copy>(
    machine: &mut Machine<S, A>,
    alloc: Global,
    lines: &str,
) -> Result<usize, AllocError> {
    let script = script_of(alloc, lines)?;
    Ok(first_wrong_of_script(machine, alloc, lines, &script))
}

/// Plays texts one after another, and answers the place of the first that goes wrong, with its first wrong line; none where all go right.
pub fn first_wrong_of<S: Store + Drop, A: Allocator + Copy>(
    machine: &mut Machine<S, A>,
    alloc: Global,
    texts: &[&str],
) -> Result<Option<(usize, usize)>, AllocError> {
    for (place, text) in texts.iter().enumerate() {
        let wrong = first_wrong(machine, alloc, text)?;
        if wrong > 0 {
            return Ok(Some((place, wrong)));
        }
    }
    Ok(None)
}
