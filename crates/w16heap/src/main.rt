//! `w16heap`: runs a script of calls on a new machine over the module files of a folder, and prints one reply for each.
#![tactic(auto)]

use clap::Error;
use clap::error::ErrorKind;
use std::process::ExitCode;
use std::rt::Env;
use w16_command::{Fault, play, report};
use w16_options::parse;

/// The words of the command line, the program's name first.
fn words_of(rt: &(impl Env + AllocGlobal)) -> std::io::Result<Vec<String>> {
    let words = std::env::args(rt)?;
    Ok(words.collect(rt.alloc())?)
}

/// Prints what `clap` says, and answers its status; 3 where it had no memory, and 1 where help or the version couldn't be printed.
fn refuse(rt: &HostRuntime, error: &Error) -> ExitCode {
    if error.kind() == ErrorKind::OutOfMemory {
        return report(rt, Fault::Memory);
    }
    let printed = error.print(rt);
    // A wrong command line keeps its status where standard error is gone.
    if printed.is_err() && !error.use_stderr() {
        return report(rt, Fault::Write);
    }
    ExitCode::from(error.exit_code() as u8)
}

fn main(rt: HostRuntime) -> ExitCode {
    let words = match words_of(&rt) {
        Ok(words) => words,
        Err(error) => return report(&rt, Fault::from(error)),
    };
    let options = match parse(rt.alloc(), words.as_slice()) {
        Ok(options) => options,
        Err(error) => return refuse(&rt, &error),
    };
    match play(&rt, &options) {
        Ok(()) => ExitCode::SUCCESS,
        Err(fault) => report(&rt, fault),
    }
}
