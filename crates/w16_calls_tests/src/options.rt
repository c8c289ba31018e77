//! Command lines, what is read of them, and which are refused.
use clap::error::ErrorKind::{self, *};
use std::alloc::Global;
use w16_options::{Options, parse};

macro_rules! options {
    ($memory:expr, $selectors:expr, $dir:expr, $script:expr) => {
        Options { memory: $memory, selectors: $selectors, dir: $dir, script: $script, explain: false }
    };
}

const EXPLAINED: Options<'static> = Options {
    explain: true,
    ..options!(1_048_576, 1024, ".", None)
};

/// Command lines, and what is read of them. The sizes where none is asked for are those that the help says.
const READ: &[(&[&str], Options<'static>)] = &[
    (&["w16heap"], options!(1_048_576, 1024, ".", None)),
    (
        &["w16heap", "--memory", "4096"],
        options!(4096, 1024, ".", None),
    ),
    (
        &["w16heap", "--memory=4096"],
        options!(4096, 1024, ".", None),
    ),
    (
        &["w16heap", "--selectors", "16"],
        options!(1_048_576, 16, ".", None),
    ),
    (
        &["w16heap", "--memory", "32", "--selectors", "8160"],
        options!(32, 8160, ".", None),
    ),
    (
        &["w16heap", "--selectors", "8160", "--memory", "32"],
        options!(32, 8160, ".", None),
    ),
    (
        &["w16heap", "tour.txt"],
        options!(1_048_576, 1024, ".", Some("tour.txt")),
    ),
    (&["w16heap", "-"], options!(1_048_576, 1024, ".", None)),
    (
        &[
            "w16heap",
            "--memory",
            "4096",
            "tour.txt",
            "--selectors",
            "16",
        ],
        options!(4096, 16, ".", Some("tour.txt")),
    ),
    (
        &["w16heap", "--", "--memory"],
        options!(1_048_576, 1024, ".", Some("--memory")),
    ),
    (
        &["w16heap", "--dir", "modules"],
        options!(1_048_576, 1024, "modules", None),
    ),
    (&["w16heap", "--explain"], EXPLAINED),
    (
        &["w16heap", "tour.txt", "--dir=/old/modules"],
        options!(1_048_576, 1024, "/old/modules", Some("tour.txt")),
    ),
];

/// Whether a command line is read so.
fn is_read(alloc: Global, words: &[&str], wanted: &Options<'_>) -> bool {
    match parse(alloc, words) {
        Ok(options) => options == *wanted,
        Err(_) => false,
    }
}

#[test]
fn command_lines_are_read(rt: HostRuntime) {
    for (words, wanted) in READ {
        assert!(rt; is_read(rt.alloc(), words, wanted), "{words:?}");
    }
}

/// Command lines that are no request to run a script, why, and with which status they end.
const REFUSED: &[(&[&str], ErrorKind, i32)] = &[
    (&["w16heap", "--memory", "many"], ValueValidation, 2),
    (&["w16heap", "--memory", "-32"], UnknownArgument, 2),
    (&["w16heap", "--memory", ""], ValueValidation, 2),
    (&["w16heap", "--memory", "31"], ValueValidation, 2),
    (&["w16heap", "--selectors", "8161"], ValueValidation, 2),
    (
        &["w16heap", "--selectors", "4294967296"],
        ValueValidation,
        2,
    ),
    (&["w16heap", "--slots", "16"], UnknownArgument, 2),
    (&["w16heap", "a.txt", "b.txt"], UnknownArgument, 2),
    (&["w16heap", "a.txt", "--memory"], InvalidValue, 2),
    (&["w16heap", "--dir"], InvalidValue, 2),
    (
        &["w16heap", "--dir", "a", "--dir", "b"],
        ArgumentConflict,
        2,
    ),
    (&["w16heap", "--help"], DisplayHelp, 0),
    (&["w16heap", "--version"], DisplayVersion, 0),
];

/// Whether a command line is refused so.
fn is_refused(alloc: Global, words: &[&str], wanted: ErrorKind, status: i32) -> bool {
    match parse(alloc, words) {
        Ok(_) => false,
        Err(error) => error.kind() == wanted && error.exit_code() == status,
    }
}

#[test]
fn other_command_lines_are_refused(rt: HostRuntime) {
    for (words, kind, status) in REFUSED {
        assert!(rt; is_refused(rt.alloc(), words, *kind, *status), "{words:?}");
    }
}
