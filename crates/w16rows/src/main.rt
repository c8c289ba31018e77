//! `w16rows`: plays files of rows, which are scripts with the replies that their lines must have, and prints what goes otherwise.
//!
//! The command line names the files. Each has a line of standard output with how many rows it has, and how many replies, and before that a line for
//! each reply that differs, and for whatever else is wrong. Then the exit status is 1.
#![tactic(auto)]

mod play;
mod readings;
mod refusals;
mod rows;
mod whole;

use std::process::ExitCode;
use std::{env, io};

fn main(rt: HostRuntime) -> io::Result<ExitCode> {
    let mut is_right = true;
    for path in env::args(&rt)?.skip(1) {
        is_right = play::play_file(&rt, &path)? && is_right;
    }
    Ok(if is_right {
        ExitCode::SUCCESS
    } else {
        ExitCode::FAILURE
    })
}
