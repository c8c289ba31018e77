//! What lines are read as.

mod tables;

use arrayvec::ArrayVec;
use std::test::Fail;
use tables::{BYTES, LETTERS, NO_TEXT};
use w16_kernel::{Call, Label};
use w16_play::readings::reading;
use w16_script::{Line, MOST_BYTES, Registers, read_line};

#[test]
fn reads_lines_that_are_no_text(rt: HostRuntime) -> Result<(), Fail> {
    for (line, text) in NO_TEXT {
        let found = reading(rt.alloc(), line)?;
        assert!(rt; found.as_str() == *text, "{line:?} is {found}");
    }
    Ok(())
}

/// How many bytes are written by a line that writes that many digits.
fn written(digits: usize) -> Option<usize> {
    let mut line: ArrayVec<u8, 2100> = ArrayVec::new();
    let _ = line.try_extend_from_slice(b"Write 0 ");
    let _ = line.try_extend_from_slice([b'a'; 2080].split_at(digits.min(2080)).0);
    match read_line(line.as_slice(), &Registers::new(), &mut [0; MOST_BYTES]) {
        Line::Command {
            call: Call::Write { bytes, .. },
            ..
        } => Some(bytes.len()),
        _ => None,
    }
}

#[test]
fn reads_bytes(rt: HostRuntime) {
    for (digits, bytes) in BYTES {
        assert!(rt; written(*digits) == *bytes, "{digits} digits");
    }
}

/// Commands whose last argument is a text.
static WITH_TEXT: &[&[u8]] = &[
    b"Builtin ",
    b"LoadModule ",
    b"LoadLibrary ",
    b"GetModuleHandle ",
    b"GetProcAddress 1 ",
];

/// The length of a call's text.
fn text_length(call: &Call<'_>) -> Option<usize> {
    match *call {
        Call::Builtin { name } | Call::GetModuleHandle { name } => Some(name.len()),
        Call::LoadModule { file } | Call::LoadLibrary { file } => Some(file.len()),
        Call::GetProcAddress {
            label: Label::Text(name),
            ..
        } => Some(name.len()),
        _ => None,
    }
}

/// How long the text is that a line of that many letters after a command has.
fn length_after(command: &[u8], letters: usize) -> Option<usize> {
    let mut line: ArrayVec<u8, 600> = ArrayVec::new();
    let _ = line.try_extend_from_slice(command);
    let _ = line.try_extend_from_slice([b'a'; 520].split_at(letters.min(520)).0);
    match read_line(line.as_slice(), &Registers::new(), &mut [0; MOST_BYTES]) {
        Line::Command { call, .. } => text_length(&call),
        _ => None,
    }
}

/// How many letters a command has after it whose text is read otherwise.
fn first_wrong(command: &[u8]) -> Option<usize> {
    for (letters, length) in LETTERS {
        if length_after(command, *letters) != *length {
            return Some(*letters);
        }
    }
    None
}

#[test]
fn reads_texts(rt: HostRuntime) {
    for command in WITH_TEXT {
        let wrong = first_wrong(command);
        assert!(rt; wrong.is_none(), "{wrong:?} letters");
    }
}
