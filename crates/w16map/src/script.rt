//! Scripts, line by line, and the strips that are drawn of them.
use crate::fault::Fault;
use crate::line::{Rooms, run_line};
use crate::options::Options;
use crate::view::View;
use std::io::{BufRead, Read, Write};
use w16_kernel::Kernel;
use w16_picture::{Caption, Picture, covers};
use w16_script::Registers;
use w16_store::Store;

/// How many bytes of a line and of a reply are shown at most.
const SHOWN: usize = 80;

/// What is known between two lines: the registers, the line and its reply, and the heap after the line before and after this one.
#[derive(Drop)]
pub struct Script {
    pub registers: Registers,
    pub rooms: Rooms,
    pub line: Vec<u8>,
    pub reply: Vec<u8>,
    pub before: View,
    pub after: View,
}

/// The front of a text that is shown, without an LF at its end.
fn shown(text: &[u8]) -> &[u8] {
    let front = match text {
        [front @ .., b'\n'] => front,
        _ => text,
    };
    &front[..front.len().min(SHOWN)]
}

/// Reads the next line, without its end. False at the end of the script.
fn next_line(reader: &mut impl BufRead, line: &mut Vec<u8>) -> Result<bool, Fault> {
    line.clear();
    match Read::take(&mut *reader, 4097).read_until(b'\n', line) {
        Ok(0) => return Ok(false),
        Ok(_) => {}
        Err(error) => return Err(Fault::Script(error)),
    }
    if line.last() == Some(&b'\n') {
        line.pop();
    } else if line.len() > 4096 {
        return Err(Fault::TooLong);
    }
    if line.last() == Some(&b'\r') {
        line.pop();
    }
    Ok(true)
}

/// Draws a strip of the heap after a line.
fn draw(
    writer: &mut impl Write,
    picture: &mut Picture,
    limit: u32,
    script: &Script,
    number: u32,
) -> Result<(), Fault> {
    let View { items, order } = &script.after;
    // The parts of a walk have no gap, so only the limit may end the run.
    if picture.strips >= limit || !covers(picture.memory, items) {
        return Err(Fault::Limit);
    }
    let caption = Caption {
        number,
        line: shown(&script.line),
        reply: shown(&script.reply),
        order: order.as_bytes(),
    };
    match picture.draw(writer, items, &caption) {
        Ok(()) => Ok(()),
        Err(_) => Err(Fault::Write),
    }
}

/// Runs the line that was read. Answers whether it was a walk; none where it has no reply.
fn step<S: Store + Drop>(
    kernel: &mut Kernel<S>,
    script: &mut Script,
) -> Result<Option<bool>, Fault> {
    script.reply.clear();
    run_line(
        kernel,
        &mut script.registers,
        &mut script.rooms,
        &script.line,
        &mut script.reply,
    )
}

/// Runs the line that was read, and draws a strip where the heap changed, or where it was a walk, as the options say.
fn play_line<S: Store + Drop>(
    writer: &mut impl Write,
    kernel: &mut Kernel<S>,
    picture: &mut Picture,
    options: &Options<'_>,
    script: &mut Script,
    number: u32,
) -> Result<(), Fault> {
    let Some(walked) = step(kernel, script)? else {
        return Ok(());
    };
    if options.walks && !walked {
        return Ok(());
    }
    script.after.look(kernel)?;
    if options.from <= number && (options.walks || script.before.differs(&script.after)) {
        draw(writer, picture, options.limit, script, number)?;
    }
    std::mem::swap(&mut script.before, &mut script.after);
    Ok(())
}

/// Runs the lines of a reader, and draws their strips.
pub fn play_lines<S: Store + Drop>(
    reader: &mut impl BufRead,
    writer: &mut impl Write,
    kernel: &mut Kernel<S>,
    picture: &mut Picture,
    options: &Options<'_>,
    script: &mut Script,
) -> Result<(), Fault> {
    script.before.look(kernel)?;
    for number in 1..=options.to {
        if !next_line(reader, &mut script.line)? {
            return Ok(());
        }
        play_line(writer, kernel, picture, options, script, number)?;
    }
    Ok(())
}
