//! A row whose lines are read, and not played.

use crate::rows::Row;
use std::io;
use w16_play::lines::split;
use w16_play::readings::reading;

/// Compares what a line is read as with what is wanted, and prints what differs. Whether nothing does.
fn is_wanted(rt: &impl Print, file: &str, name: &str, line: &str, found: &str) -> io::Result<bool> {
    let (text, wanted) = split(line);
    if wanted == Some(found) {
        return Ok(true);
    }
    println!(rt; "{file}: {name}: '{text}' is read as '{found}'")?;
    Ok(false)
}

/// Reads a line, and prints what is read otherwise. Whether nothing is.
fn is_line_read_right(
    rt: &(impl Print + AllocGlobal),
    file: &str,
    name: &str,
    line: &str,
) -> io::Result<bool> {
    let found = reading(rt.alloc(), split(line).0.as_bytes())?;
    is_wanted(rt, file, name, line, &found)
}

/// Reads the lines of a row, and prints what is read otherwise. Whether nothing is.
pub fn is_read_right(
    rt: &(impl Print + AllocGlobal),
    file: &str,
    row: &Row<'_>,
) -> io::Result<bool> {
    let mut is_right = true;
    for line in row.lines.as_str().split('\n') {
        is_right = is_line_read_right(rt, file, row.name, line)? && is_right;
    }
    Ok(is_right)
}
