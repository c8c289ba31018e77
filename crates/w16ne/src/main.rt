//! `w16ne`: says what module files have in them, as text or as JSON, with a verdict on each, and takes out their resources.
#![tactic(auto)]

mod extract;
mod fault;
mod files;
mod options;

use clap::Error;
use clap::error::ErrorKind;
use fault::Fault;
use options::parse;
use std::process::ExitCode;
use std::rt::Env;

/// The words of the command line, the program's name first.
fn words_of(rt: &(impl Env + AllocGlobal)) -> std::io::Result<Vec<String>> {
    let words = std::env::args(rt)?;
    Ok(words.collect(rt.alloc())?)
}

/// Prints what `clap` says, and answers its status; 3 where it had no memory, and 1 where help or the version couldn't be printed.
fn refuse(rt: &HostRuntime, error: &Error) -> ExitCode {
    if error.kind() == ErrorKind::OutOfMemory {
        return fault::report(rt, Fault::Memory);
    }
    let printed = error.print(rt);
    // A wrong command line keeps its status where standard error is gone.
    if printed.is_err() && !error.use_stderr() {
        return fault::report(rt, Fault::Write);
    }
    ExitCode::from(error.exit_code() as u8)
}

fn main(rt: HostRuntime) -> ExitCode {
    let words = match words_of(&rt) {
        Ok(words) => words,
        Err(error) => return fault::report(&rt, Fault::from(error)),
    };
    let options = match parse(rt.alloc(), words.as_slice()) {
        Ok(options) => options,
        Err(error) => return refuse(&rt, &error),
    };
    match files::show_all(&rt, &options) {
        Ok(status) => ExitCode::from(status),
        Err(fault) => fault::report(&rt, fault),
    }
}
