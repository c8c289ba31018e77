//! What is printed of the files of a command line.
use crate::extract::extract;
use crate::fault::Fault;
use crate::options::Options;
use std::fs::File;
use std::io::{self, BufWriter, Error, ErrorKind, Read, Write};
use w16_show::{Verdict, show_json, show_text};

/// The statuses of a file: it is sound; it can't be read, or what is taken out of it can't be written; it isn't accepted or isn't sound.
const SOUND: u8 = 0;

const UNREAD: u8 = 1;

const UNSOUND: u8 = 4;

/// The bytes of a reader to its end, at most so many.
fn bytes_of(rt: &HostRuntime, reader: impl Read + Drop, limit: u64) -> io::Result<Vec<u8>> {
    let mut bytes = Vec::new(rt.alloc());
    // One more than the limit shows that there are too many.
    reader
        .take(limit.saturating_add(1))
        .read_to_end(&mut bytes)?;
    if bytes.len() as u64 > limit {
        let message = "more bytes than --file-limit allows";
        return Err(Error::new(ErrorKind::FileTooLarge, message));
    }
    Ok(bytes)
}

/// The bytes of a file, or of standard input for `-`.
fn read(rt: &HostRuntime, path: &str, limit: u64) -> io::Result<Vec<u8>> {
    if path == "-" {
        return bytes_of(rt, rt.reader(), limit);
    }
    bytes_of(rt, File::open(rt, path)?, limit)
}

/// The name that a file is printed under: the last part of its path.
fn name_of(path: &str) -> &str {
    match path.rsplit_once('/') {
        Some((_, name)) => name,
        None => path,
    }
}

/// Prints a file, and answers the verdict on it.
fn print(
    rt: &HostRuntime,
    options: &Options<'_>,
    path: &str,
    file: &[u8],
    writer: &mut impl Write,
) -> io::Result<Verdict> {
    let name = name_of(path);
    if !options.json {
        return show_text(rt.alloc(), writer, name, file, options.parts);
    }
    let verdict = show_json(rt.alloc(), writer, name, file)?;
    writer.write_all(b"\n")?;
    Ok(verdict)
}

/// The status of a verdict.
fn status_of(verdict: &Verdict) -> u8 {
    match verdict {
        Verdict::Sound => SOUND,
        Verdict::NotSound(_) | Verdict::NotAccepted(_) => UNSOUND,
    }
}

/// Says on standard error why a file can't be read, and answers the status.
fn unread(rt: &HostRuntime, path: &str, error: io::Error) -> Result<u8, Fault> {
    if error.kind() == ErrorKind::OutOfMemory {
        return Err(Fault::Memory);
    }
    // Where standard error is gone, the status still tells.
    let _ = eprintln!(rt; "w16ne: {path}: {error}");
    Ok(UNREAD)
}

/// Why a file can't be printed.
fn unprinted(error: &io::Error) -> Fault {
    match error.kind() {
        ErrorKind::OutOfMemory => Fault::Memory,
        _ => Fault::Write,
    }
}

/// Prints a file, takes out its resources where this is asked for, and answers its status.
fn show(
    rt: &HostRuntime,
    options: &Options<'_>,
    path: &str,
    left: &mut u64,
    writer: &mut impl Write,
) -> Result<u8, Fault> {
    let file = match read(rt, path, options.file_limit) {
        Ok(file) => file,
        Err(error) => return unread(rt, path, error),
    };
    let status = match print(rt, options, path, &file, writer) {
        Ok(verdict) => status_of(&verdict),
        Err(error) => return Err(unprinted(&error)),
    };
    match &options.taken {
        None => Ok(status),
        Some(taken) => Ok(status.max(extract(rt, taken, path, &file, left)?)),
    }
}

/// Prints each file in turn, and answers the highest of their statuses.
fn show_each(
    rt: &HostRuntime,
    options: &Options<'_>,
    writer: &mut impl Write,
) -> Result<u8, Fault> {
    let mut status = SOUND;
    let mut left = match &options.taken {
        None => 0,
        Some(taken) => taken.limit,
    };
    for path in options.files.iter() {
        status = status.max(show(rt, options, path, &mut left, writer)?);
    }
    Ok(status)
}

/// Prints all files of a command line, and answers the highest of their statuses. What was printed before a fault stays printed.
pub fn show_all(rt: &HostRuntime, options: &Options<'_>) -> Result<u8, Fault> {
    let mut writer = BufWriter::new(rt.alloc(), io::writer(rt))?;
    let shown = show_each(rt, options, &mut writer);
    match writer.flush() {
        Ok(()) => shown,
        Err(_) => shown.and(Err(Fault::Write)),
    }
}
