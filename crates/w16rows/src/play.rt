//! Files of rows, played one row after another.

use crate::readings::is_read_right;
use crate::refusals::is_refused_right;
use crate::rows::{Row, row_of};
use crate::whole::is_played_right;
use std::rt::Files;
use std::{fs, io};

/// How many rows were played, how many replies they have, and whether all went right.
#[derive(Clone, Copy)]
struct Tally {
    rows: u32,
    replies: u32,
    is_right: bool,
}

/// Plays a row in each way that it is to be played in, or reads it, and prints what goes otherwise. Whether nothing does.
fn play_row(rt: &(impl Print + AllocGlobal), file: &str, row: &Row<'_>) -> io::Result<bool> {
    if row.is_reading {
        return is_read_right(rt, file, row);
    }
    Ok(is_played_right(rt, file, row)? && (!row.has_refusals || is_refused_right(rt, file, row)?))
}

/// Plays a row, and counts its replies.
fn play_counted(
    rt: &(impl Print + AllocGlobal),
    file: &str,
    row: &Row<'_>,
    tally: &mut Tally,
) -> io::Result<()> {
    tally.replies = tally.replies.saturating_add(row.replies);
    tally.is_right = play_row(rt, file, row)? && tally.is_right;
    Ok(())
}

/// Plays the row of a text, and counts it. For one that can't be read it prints why.
fn play_next(
    rt: &(impl Print + AllocGlobal),
    file: &str,
    text: &str,
    tally: &mut Tally,
) -> io::Result<()> {
    tally.rows = tally.rows.saturating_add(1);
    match row_of(rt.alloc(), text) {
        Ok(row) => play_counted(rt, file, &row, tally),
        Err(fault) => {
            tally.is_right = false;
            println!(rt; "{file}: row {}: {fault}", tally.rows)
        }
    }
}

/// Whether lines say nothing: they are empty, or comments.
fn is_silent(lines: &str) -> bool {
    for line in lines.split('\n') {
        if !line.is_empty() && !line.starts_with("#") {
            return false;
        }
    }
    true
}

/// Plays the rows of a text. Before the first one no line says anything.
fn play_text(rt: &(impl Print + AllocGlobal), file: &str, text: &str) -> io::Result<Tally> {
    let mut parts = text.split("\n[");
    let mut tally = Tally {
        rows: 0,
        replies: 0,
        is_right: is_silent(parts.next().unwrap_or("")),
    };
    if !tally.is_right {
        println!(rt; "{file}: lines before the first row")?;
    }
    for part in parts {
        play_next(rt, file, part, &mut tally)?;
    }
    Ok(tally)
}

/// Plays the rows of a file's text, and prints what goes otherwise, and how many they are. Whether all go right.
fn play_whole(rt: &(impl Print + AllocGlobal), path: &str, text: &str) -> io::Result<bool> {
    let tally = play_text(rt, path, text)?;
    println!(rt; "{path}: {} rows, {} replies", tally.rows, tally.replies)?;
    Ok(tally.is_right)
}

/// The same of a file, which may not be there.
pub fn play_file(rt: &(impl Files + Print + AllocGlobal), path: &str) -> io::Result<bool> {
    match fs::read_to_string(rt, path) {
        Ok(text) => play_whole(rt, path, &text),
        Err(error) => {
            println!(rt; "{path}: {error}")?;
            Ok(false)
        }
    }
}
