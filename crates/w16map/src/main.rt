//! `w16map`: runs a script of calls on a new machine, and draws its heap as it changes.
#![tactic(auto)]

mod fault;
mod line;
mod options;
mod play;
mod script;
mod view;

use fault::{Fault, report};
use options::parse;
use std::process::ExitCode;
use std::rt::Env;

/// The words of the command line, the program's name first.
fn words_of(rt: &(impl Env + AllocGlobal)) -> std::io::Result<Vec<String>> {
    let words = std::env::args(rt)?;
    Ok(words.collect(rt.alloc())?)
}

/// Runs the program with the words of its command line.
fn run(rt: &HostRuntime, words: &[String]) -> ExitCode {
    match parse(rt.alloc(), words) {
        Ok(options) => match play::play(rt, &options) {
            Ok(()) => ExitCode::SUCCESS,
            Err(fault) => report(rt, fault),
        },
        Err(error) => {
            let _ = error.print(rt);
            ExitCode::from(error.exit_code() as u8)
        }
    }
}

fn main(rt: HostRuntime) -> ExitCode {
    match words_of(&rt) {
        Ok(words) => run(&rt, words.as_slice()),
        Err(_) => report(&rt, Fault::Argument),
    }
}
