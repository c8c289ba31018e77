//! Runs that fail.
use crate::said::Said;
use std::fs;
use std::test::Fail;
use w16_command::{Fault, play, report};
use w16_options::Options;

/// Sizes, a folder and a script; with which status their run ends, and what it says.
type Row = (u32, u32, &'static str, &'static str, u8, &'static str);

const MEMORY: &str = "--memory 100: it has to be a multiple of 32 from 32 to 16777216";

const SELECTORS: &str = "--selectors 8161: it has to be a number from 1 to 8160";

const ABSENT: &str = "none: No such file or directory (os error 2)";

const LONG: &str = "long: a line has more than 4096 bytes, or the script more than 1000000 lines";

/// Each is wrong in all that comes after what it is told for. In long are 4,097 bytes without a line end.
static ROWS: &[Row] = &[
    (100, 0, "none", "none", 2, MEMORY),
    (512, 8161, "none", "none", 2, SELECTORS),
    (512, 4, "none", ".", 1, ABSENT),
    (512, 4, ".", "none", 1, ABSENT),
    (512, 4, ".", ".", 1, ".: Is a directory (os error 21)"),
    (512, 4, ".", "long", 4, LONG),
];

/// Whether a fault has this status, and this is said of it.
fn is_told_so(rt: &HostRuntime, fault: Fault<'_>, status: u8, text: &str) -> Result<bool, Fail> {
    let said = Said::new(rt.alloc());
    report(&said, fault);
    let line = format!(in rt.alloc(); "w16heap: {text}\n")?;
    Ok(fault.status() == status && said.is(line.as_str()))
}

/// Whether a run ends so.
fn ends_so(rt: &HostRuntime, row: Row) -> Result<bool, Fail> {
    let (memory, selectors, dir, script, status, text) = row;
    let script = Some(script);
    match play(
        rt,
        &Options {
            memory,
            selectors,
            dir,
            script,
            explain: false,
        },
    ) {
        Ok(()) => Ok(false),
        Err(fault) => is_told_so(rt, fault, status, text),
    }
}

#[test]
fn faults_are_told_in_their_order(rt: HostRuntime) -> Result<(), Fail> {
    fs::write(&rt, "long", [b'x'; 4097].as_slice())?;
    for row in ROWS {
        let ends = ends_so(&rt, *row)?;
        assert!(rt; ends, "{}", row.5);
    }
    let told = is_told_so(&rt, Fault::Memory, 3, "out of memory")?;
    assert!(rt; told);
    fs::remove_file(&rt, "long")?;
    Ok(())
}
