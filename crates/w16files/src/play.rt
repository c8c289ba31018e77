//! Files of rows, played one after another.
//!
//! A row has a name, and then lines, each with an arrow and its answer after it, where it has one. Lines that are empty, or that begin with `# `,
//! say nothing:
//!
//! ```text
//! # What a check answers.
//!
//! [a chain that leads out of the segment]
//! file TLIB.DLL c1=0d
//! check 1 -> SiteOutside
//! ```
//!
//! What lines may say of module files stands in `bench.rt`, and what of stores in `stores.rt`.
use crate::bench::put_answers;
use crate::stores::{Row, put_answers_of};
use crate::words::split;
use std::{fs, io};

/// Compares answers, one of each line, and tells what differs. Whether nothing does.
fn are_right(rt: &impl Print, name: &str, lines: &str, answers: &str) -> io::Result<bool> {
    let mut answers = answers.split('\n');
    let mut is_right = true;
    for line in lines.split('\n') {
        let (question, wanted) = split(line);
        let found = answers.next().unwrap_or("");
        if found != wanted {
            println!(rt; "{name}: {question}: wanted '{wanted}', answered '{found}'")?;
            is_right = false;
        }
    }
    Ok(is_right)
}

/// Plays a row on stores of some kinds, or on module files where it names none. Whether all its answers are right.
fn is_played_right(row: &Row<'_>, name: &str, kinds: &str) -> io::Result<bool> {
    let mut is_right = true;
    for kind in kinds.split(' ') {
        let mut answers = String::new(row.rt.alloc());
        match kind {
            "" => put_answers(row.rt, row.lines, &mut answers)?,
            _ => put_answers_of(&mut answers, row, kind)?,
        }
        is_right = are_right(row.rt, name, row.lines, &answers)? && is_right;
    }
    Ok(is_right)
}

/// Plays the row of a text, which begins after the bracket before its name. Whether all its answers are right.
fn is_row_right(rt: &HostRuntime, text: &str) -> io::Result<bool> {
    let (name, rest) = text.split_once("]\n").unwrap_or((text, ""));
    let Some((made, rest)) = rest.split_once("stores ") else {
        let (made, lines) = ("", rest);
        return is_played_right(&Row { rt, made, lines }, name, "");
    };
    let (kinds, lines) = rest.split_once("\n").unwrap_or((rest, ""));
    is_played_right(&Row { rt, made, lines }, name, kinds)
}

/// Plays the rows of a file, and tells what goes otherwise, and how many they are. Whether all go right.
pub fn play_file(rt: &HostRuntime, path: &str) -> io::Result<bool> {
    let text = fs::read_to_string(rt, path)?;
    let (mut rows, mut is_right) = (0u32, true);
    for row in text.split("\n[").skip(1) {
        rows = rows.saturating_add(1);
        is_right = is_row_right(rt, row)? && is_right;
    }
    let answers = text.split(" -> ").count().saturating_sub(1);
    println!(rt; "{path}: {rows} rows, {answers} answers")?;
    Ok(is_right)
}
