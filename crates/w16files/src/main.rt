//! `w16files`: plays files of rows, which are questions on module files and stores with the answers that they must have, and tells what goes otherwise.
//!
//! The command line names the files. Each has a line of standard output with how many rows it has, and how many answers, and before that a line for
//! each answer that differs, and for whatever else is wrong. Then the exit status is 1.
#![tactic(auto)]

mod bench;
mod disks;
mod liar;
mod play;
mod read;
mod relocation;
mod stores;
mod tables;
mod words;

use std::process::ExitCode;
use std::{env, io};

fn main(rt: HostRuntime) -> io::Result<ExitCode> {
    let mut is_right = true;
    for path in env::args(&rt)?.skip(1) {
        is_right = play::play_file(&rt, &path)? && is_right;
    }
    Ok(if is_right {
        ExitCode::SUCCESS
    } else {
        ExitCode::FAILURE
    })
}
