//! Devices that fail, and files that change.

use crate::stores::{Harm, Hostile, Turning};
use std::alloc::{AllocError, Global};
use std::test::Fail;
use w16_play::files::store_of;
use w16_play::lines::split;
use w16_play::texts::{ALL, FIRST_LOAD, IMPORTS, RESOURCE, SWEPT};

/// A library is loaded, and its code discarded.
const DISCARDED: &str = "\
LoadLibrary TLIB.DLL -> 0021
GetProcAddress 0x21 geta -> 01070000
GetProcAddress 0x21 #2 -> 010f0004
Read 0x01070000 16 -> bytes 9a04000f019a04000f01b81400cb9090
Read 0x010f0004 1 -> bytes cb
GlobalCompact 0xffffffff -> 00001000";

/// After it the device fails once.
const FAILING: &str = "\
Read 0x01070000 16 -> fault store
Walk -> 00000000 00001000 free / end
Read 0x01070000 16 -> bytes 9a04000f019a04000f01b81400cb9090";

/// The first text that goes wrong on a machine of which a read fails, with its first wrong line; none where all go right.
fn first_wrong_failing(
    alloc: Global,
    texts: &[&str],
    read: u32,
) -> Result<Option<(usize, usize)>, AllocError> {
    Hostile::failing(store_of(alloc, ALL)?, read).first_wrong(alloc, texts)
}

/// The same of the discard and what follows, where the first read after the discard fails.
fn first_wrong_after_discard(alloc: Global) -> Result<Option<(usize, usize)>, AllocError> {
    for read in 1..1000u32 {
        let wrong = first_wrong_failing(alloc, &[DISCARDED, FAILING], read)?;
        if !matches!(wrong, Some((0, _))) {
            return Ok(wrong);
        }
    }
    Ok(Some((0, 0)))
}

#[test]
fn a_fetch_fails_with_its_device(rt: HostRuntime) -> Result<(), Fail> {
    let wrong = first_wrong_after_discard(rt.alloc())?;
    assert!(rt; wrong.is_none(), "{wrong:?}");
    Ok(())
}

/// A register keeps its number where a load fails, and gets the handle of the next.
const KEPT: &str = "\
r1 = Builtin KERNEL -> 0021
r1 = LoadLibrary TLIB.DLL -> fault store
GetProcAddress r1 #1 -> 00210001
GetModuleHandle TLIB -> 0000
Walk -> 00000000 00001000 free / end
r1 = LoadLibrary TLIB.DLL -> 0022
GetModuleUsage r1 -> 0001";

#[test]
fn registers_keep_their_numbers(rt: HostRuntime) -> Result<(), Fail> {
    let wrong = first_wrong_failing(rt.alloc(), &[KEPT], 1)?;
    assert!(rt; wrong.is_none(), "{wrong:?}");
    Ok(())
}

/// Puts a line after others; one that fails stands there as it fails, and then once more.
fn put(text: &mut String, line: &str, fails: bool) -> Result<(), AllocError> {
    if fails {
        text.push_str(split(line).0)?;
        text.push_str(" -> fault store\n")?;
    }
    text.push_str(line)?;
    text.push_str("\n")
}

/// Puts the lines after others, of which that one of a number, from 1 on, fails.
fn put_all(text: &mut String, lines: &str, number: usize) -> Result<(), AllocError> {
    for (at, line) in lines.split('\n').enumerate() {
        put(text, line, at.saturating_add(1) == number)?;
    }
    Ok(())
}

/// The first wrong line where a read fails, and that one of a number, from 1 on, is answered `fault store` and asked for again.
fn first_wrong_again(
    alloc: Global,
    lines: &str,
    number: usize,
    read: u32,
) -> Result<Option<(usize, usize)>, AllocError> {
    let mut text = String::new(alloc);
    put_all(&mut text, lines, number)?;
    first_wrong_failing(alloc, &[text.trim_end()], read)
}

/// Whether the line that a read fails, and it alone, goes wrong; none where no line does.
fn is_one_failed(alloc: Global, lines: &str, read: u32) -> Result<Option<bool>, AllocError> {
    match first_wrong_failing(alloc, &[lines], read)? {
        Some((_, number)) => {
            let wrong = first_wrong_again(alloc, lines, number, read)?;
            Ok(Some(wrong.is_none()))
        }
        None => Ok(None),
    }
}

/// How many reads these lines have, of which each makes one line fail, and it alone; none where one makes more.
fn reads_of(alloc: Global, lines: &str) -> Result<Option<u32>, AllocError> {
    for read in 1..1000u32 {
        match is_one_failed(alloc, lines, read)? {
            Some(true) => {}
            Some(false) => return Ok(None),
            None => return Ok(Some(read - 1)),
        }
    }
    Ok(None)
}

#[test]
fn each_read_fails(rt: HostRuntime) -> Result<(), Fail> {
    for lines in [FIRST_LOAD, IMPORTS, RESOURCE, SWEPT] {
        let reads = reads_of(rt.alloc(), lines)?;
        assert!(rt; reads.unwrap_or(0) > 10, "{reads:?} reads");
    }
    Ok(())
}

/// Other files that come after the discard, and what is answered then: a chain that returns, a file that ends in its first segment's records,
/// another number of records, none of that name, and one whose bytes alone are others.
static CHANGES: &[(&str, &str)] = &[
    (
        "TLIB.DLL C6=01 C7=00",
        "\
Read 0x01070000 16 -> fault damaged
GetSelectorLimit 0x107 -> 00000000
Walk -> 00000000 00001000 free / end
Read 0x010f0000 2 -> bytes 0102",
    ),
    (
        "TLIB.DLL len=200",
        "\
Read 0x01070000 16 -> fault damaged
Read 0x010f0000 2 -> fault damaged
Walk -> 00000000 00001000 free / end",
    ),
    (
        "TLIB.DLL D0=01",
        "\
Read 0x01070020 1 -> fault damaged
Write 0x01070000 00 -> fault readonly
Walk -> 00000000 00001000 free / end",
    ),
    (
        "TLIB.DLL as=ELSE.DLL",
        "\
Read 0x01070000 16 -> fault damaged
GlobalFlags 0x106 -> 4100
Walk -> 00000000 00001000 free / end",
    ),
    (
        "TLIB.DLL C0=55 F0=aa",
        "\
Read 0x010f0000 2 -> bytes aa02
Read 0x01070000 16 -> bytes 5504000f019a04000f01b81400cb9090
GlobalCompact 0xffffffff -> 00001000",
    ),
];

/// The first files come back.
const BACK: &str = "\
LoadLibrary BACK -> 0002
Read 0x01070000 16 -> bytes 9a04000f019a04000f01b81400cb9090
Read 0x010f0000 5 -> bytes 01020304cb";

/// A resource is loaded, and discarded.
const RESOURCE_DISCARDED: &str = "\
LoadLibrary TRES.DLL -> 0021
LoadResource 0x21 1 -> 0106
GlobalCompact 0xffffffff -> 00001000";

/// Its file ends where it begins, there is none of that name, or another one that ends in it.
static RESOURCE_CHANGES: &[(&str, &str)] = &[
    (
        "TRES.DLL len=176",
        "\
LockResource 0x106 -> fault damaged
Read 0x01070000 0 -> fault damaged
Write 0x01070000 00 -> fault damaged
LoadResource 0x21 1 -> 0106
GlobalFlags 0x106 -> 4100
Walk -> 00000000 00001000 free / end",
    ),
    (
        "TLIB.DLL",
        "\
FreeResource 0x106 -> 0000
GlobalAlloc 0 4096 -> 0107
LoadResource 0x21 1 -> fault damaged
GlobalFree 0x107 -> 0000
LoadResource 0x21 1 -> fault damaged
FreeResource 0x106 -> 0001
GlobalHandle 0x107 -> 00000000",
    ),
    (
        "TRES.DLL len=178 B0=4a",
        "\
Read 0x01070000 5 -> bytes 4a65000000
GlobalCompact 0xffffffff -> 00001000",
    ),
];

/// The first files come back, and the resource.
const RESOURCE_BACK: &str = "\
LoadLibrary BACK -> 0002
LoadResource 0x21 1 -> 0106
LockResource 0x106 -> 01070000
Read 0x01070000 5 -> bytes 48656c6c6f";

/// The samples, which turn into other files.
fn turning(alloc: Global, others: &str) -> Result<Hostile, AllocError> {
    let first = store_of(alloc, ALL)?;
    let second = store_of(alloc, others)?;
    Ok(Hostile::of(Harm::Turning(Turning::new(first, second))))
}

/// Where files that take others' places aren't answered as a table says, or not all is as before once those come back: the first of the changes,
/// its first wrong text, and the first wrong line of that.
fn first_wrong_change(
    alloc: Global,
    changes: &[(&str, &str)],
    before: &str,
    back: &str,
) -> Result<Option<(usize, usize, usize)>, AllocError> {
    for (change, (others, lines)) in changes.iter().enumerate() {
        let texts = [before, "LoadLibrary TURN -> 0002", *lines, back];
        let wrong = turning(alloc, others)?.first_wrong(alloc, &texts)?;
        if let Some((text, line)) = wrong {
            return Ok(Some((change, text, line)));
        }
    }
    Ok(None)
}

#[test]
fn files_change_after_a_discard(rt: HostRuntime) -> Result<(), Fail> {
    let wrong = first_wrong_change(rt.alloc(), CHANGES, DISCARDED, BACK)?;
    assert!(rt; wrong.is_none(), "{wrong:?}");
    Ok(())
}

#[test]
fn a_resource_changes_after_a_discard(rt: HostRuntime) -> Result<(), Fail> {
    let wrong = first_wrong_change(
        rt.alloc(),
        RESOURCE_CHANGES,
        RESOURCE_DISCARDED,
        RESOURCE_BACK,
    )?;
    assert!(rt; wrong.is_none(), "{wrong:?}");
    Ok(())
}

/// A file, how many bytes of it load at least, another one beside it, and a load of it where one of these is missing.
static CUT: &[(&str, usize, &str, &str)] = &[
    ("TRES.DLL", 177, "TLIB.DLL", "LoadLibrary TRES.DLL -> 000b"),
    ("TLIB.DLL", 248, "TRES.DLL", "LoadLibrary TLIB.DLL -> 000b"),
    ("TAPP.EXE", 202, "TLIB.DLL", "LoadModule TAPP.EXE -> 000b"),
];

/// The first wrong line over files.
fn first_wrong_over(
    alloc: Global,
    files: &str,
    lines: &str,
) -> Result<Option<(usize, usize)>, AllocError> {
    Hostile::failing(store_of(alloc, files)?, 0).first_wrong(alloc, &[lines])
}

/// Whether lines go right where that many bytes of a file are there.
fn is_right_cut(
    alloc: Global,
    file: &str,
    len: usize,
    other: &str,
    lines: &str,
) -> Result<bool, AllocError> {
    let files = format!(in alloc; "{file} len={len}, {other}")?;
    Ok(first_wrong_over(alloc, &files, lines)?.is_none())
}

/// How many bytes of a file, fewer than those that load, aren't refused; none where all are.
fn first_loaded(
    alloc: Global,
    file: &str,
    whole: usize,
    other: &str,
    line: &str,
) -> Result<Option<usize>, AllocError> {
    for len in 0..whole {
        if !is_right_cut(alloc, file, len, other, line)? {
            return Ok(Some(len));
        }
    }
    Ok(None)
}

#[test]
fn no_front_of_a_file_is_loaded(rt: HostRuntime) -> Result<(), Fail> {
    for (file, whole, other, line) in CUT {
        let loaded = first_loaded(rt.alloc(), file, *whole, other, line)?;
        assert!(rt; loaded.is_none(), "{loaded:?} bytes of {file}");
    }
    Ok(())
}

/// Whether a resource of sixteen bytes is filled up with zeros where that many of them are there.
fn is_filled_up(alloc: Global, count: usize) -> Result<bool, AllocError> {
    let whole = "48656c6c6f2c207265736f7572636521";
    let front = whole.get(..count.saturating_mul(2)).unwrap_or(whole);
    let lines = format!(in alloc;
        "LoadLibrary TRES.DLL -> 0021\nLoadResource 0x21 1 -> 0106\nRead 0x01070000 32 -> bytes {front:0<64}"
    )?;
    is_right_cut(
        alloc,
        "TRES.DLL",
        count.saturating_add(176),
        "TLIB.DLL",
        &lines,
    )
}

#[test]
fn a_front_of_a_resource_is_filled_up(rt: HostRuntime) -> Result<(), Fail> {
    for count in 1..17usize {
        let is_right = is_filled_up(rt.alloc(), count)?;
        assert!(rt; is_right, "{count} bytes");
    }
    Ok(())
}
