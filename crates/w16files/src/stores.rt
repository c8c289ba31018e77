//! Stores of the same files, and what is asked of them.
//!
//! A row makes a folder by changes, and names the stores that it is played on, each over a new such folder. Changes may stand among the questions too.
//!
//! | Line | What it is |
//! |---|---|
//! | `write PATH TEXT`, `remove PATH`, `mkdir PATH`, `fifo PATH`, `link TO PATH` | changes a file |
//! | `stores KIND ..` | `memory`: what was written in the folder; `fuse`: the same behind a fuse that never blows; `odd`: the folder, in a system that lists odd names; `one`, `failing`: a disk of one file, which may fail to list it; or the path of a folder |
//! | `read NAME AT COUNT`, `len NAME` | asked of a store; `%` in a name stands for the byte FF |
//!
//! Where there is no store, the first answer is why.
use crate::disks::{OddNames, OneFile};
use crate::words::{Put, Words, number, put_quoted, split, word};
use std::alloc::{AllocError, Global};
use std::os::fd::IntoRawFd;
use std::rt::Files;
use std::{fs, io};
use w16_store::{DirFault, DirStore, Disk, FuseStore, MemStore, Store};

/// A row on stores: how the folder is made, and the lines.
#[derive(Clone, Copy)]
pub struct Row<'a> {
    pub rt: &'a HostRuntime,
    pub made: &'a str,
    pub lines: &'a str,
}

/// What was written in the folder, in memory.
fn memory(alloc: Global, made: &str) -> Result<MemStore, AllocError> {
    let mut store = MemStore::new(alloc);
    for line in made.split('\n') {
        if let Some(file) = line.strip_prefix("write store_files/") {
            let (name, text) = file.split_once(" ").unwrap_or((file, ""));
            store.add(name.as_bytes(), text.as_bytes())?;
        }
    }
    Ok(store)
}

/// Puts a FIFO under a name: by a link to the reading end of a pipe, whose writing end is closed.
fn make_fifo(rt: &HostRuntime, path: &str) -> io::Result<()> {
    let (reader, _) = io::pipe(rt)?;
    let end = reader.into_raw_fd();
    let to = format!(in rt.alloc(); "/proc/self/fd/{end}")?;
    rt.symlink(to.as_str(), path)
}

/// Makes the change that a line says. Whether it says one, or nothing.
fn is_change(rt: &HostRuntime, line: &str) -> io::Result<bool> {
    let mut words = line.split(' ');
    let (change, path, more) = (word(&mut words), word(&mut words), word(&mut words));
    match change {
        "" | "#" => {}
        "write" => fs::write(rt, path, more)?,
        "remove" => fs::remove_file(rt, path)?,
        "mkdir" => fs::create_dir_all(rt, path)?,
        "fifo" => make_fifo(rt, path)?,
        "link" => rt.symlink(path, more)?,
        _ => return Ok(false),
    }
    Ok(true)
}

/// The bytes that a word stands for as a name.
fn name_of(alloc: Global, word: &str) -> Result<Vec<u8>, AllocError> {
    let mut name = Vec::from_slice(alloc, word.as_bytes())?;
    for byte in name.iter_mut() {
        if *byte == b'%' {
            *byte = 0xff;
        }
    }
    Ok(name)
}

/// Adds what a read of up to 8 bytes answers to an answer.
fn put_read<S: Store>(out: &mut String, store: &mut S, name: &[u8], words: &mut Words<'_>) -> Put {
    let (at, count) = (number(words), number(words));
    let mut room = [0u8; 8];
    let part = &mut room[..count.min(8) as usize];
    match store.read_at(name, at, part) {
        Ok(()) => put_quoted(out, part),
        Err(fault) => write!(out, "{fault:?}"),
    }
}

/// Adds to an answer what a store answers to a question, as to a call's first read.
fn put_answer<S: Store>(out: &mut String, alloc: Global, store: &mut S, question: &str) -> Put {
    let mut words = question.split(' ');
    let asked = word(&mut words);
    let name = name_of(alloc, word(&mut words))?;
    store.refresh();
    match asked {
        "read" => put_read(out, store, &name, &mut words),
        _ => write!(out, "{:?}", store.len_of(&name)),
    }
}

/// Adds to others the answers of a store to lines, one of each.
fn put_all<S: Store>(out: &mut String, row: &Row<'_>, store: &mut S) -> io::Result<()> {
    for line in row.lines.split('\n') {
        let question = split(line).0;
        if !is_change(row.rt, question)? {
            put_answer(out, row.rt.alloc(), store, question)?;
        }
        out.push_str("\n")?;
    }
    Ok(())
}

/// The same of a folder or a disk, where it was opened.
fn put_opened<D: Disk + Drop>(
    out: &mut String,
    row: &Row<'_>,
    opened: Result<DirStore<D>, DirFault>,
) -> io::Result<()> {
    match opened {
        Ok(mut store) => put_all(out, row, &mut store),
        Err(fault) => Ok(write!(out, "{fault:?}")?),
    }
}

/// The same of a store of a kind.
fn put_of(out: &mut String, row: &Row<'_>, kind: &str) -> io::Result<()> {
    let (rt, alloc) = (row.rt, row.rt.alloc());
    let fails = kind == "failing";
    match kind {
        "memory" => put_all(out, row, &mut memory(alloc, row.made)?),
        "fuse" => put_all(out, row, &mut FuseStore::new(memory(alloc, row.made)?, 0)),
        "one" | "failing" => put_opened(
            out,
            row,
            DirStore::new(alloc, OneFile { fails, failures: 0 }),
        ),
        "odd" => {
            let system = OddNames(rt.clone()?);
            put_opened(
                out,
                row,
                DirStore::from_folder(&system, alloc, "store_files"),
            )
        }
        path => put_opened(out, row, DirStore::from_folder(rt, alloc, path)),
    }
}

/// Adds the answers of a store of a kind to a row to others. The folder is made for it, and gone afterwards.
pub fn put_answers_of(out: &mut String, row: &Row<'_>, kind: &str) -> io::Result<()> {
    let _ = fs::remove_dir_all(row.rt, "store_files");
    fs::create_dir_all(row.rt, "store_files/FOLDER")?;
    for line in row.made.split('\n') {
        is_change(row.rt, line)?;
    }
    put_of(out, row, kind)?;
    fs::remove_dir_all(row.rt, "store_files")
}
