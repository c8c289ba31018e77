//! The command line.
use clap::{Arg, ArgAction, Command, Error, value_parser};
use std::alloc::{AllocError, Global};
use std::convert::AsStr;

/// What the command line asks for.
#[derive(Debug, Clone, Copy, Drop)]
pub struct Options<'a> {
    /// Bytes of the global heap.
    pub memory: u32,
    /// How many objects may be there at once.
    pub selectors: u32,
    /// The path of the folder that module files lie in.
    pub dir: &'a str,
    /// A strip for each `Walk`, and not for each command that changed the heap.
    pub walks: bool,
    /// The first line that is drawn, from 1 on.
    pub from: u32,
    /// The last line that is played.
    pub to: u32,
    /// The most strips.
    pub limit: u32,
    /// As text.
    pub text: bool,
    /// The script's path; standard input without one.
    pub script: Option<&'a str>,
}

/// What stands at the end of the help.
const EXAMPLES: &str = "Examples:
  w16map examples/compaction.txt > heap.svg
  w16map --text --walks - < examples/tour.txt";

/// An option with a number, which is `value` where it isn't given.
fn number<'a>(alloc: Global, name: &'a str, value: &'a str, help: &'a str) -> Arg<'a> {
    Arg::new(alloc, name)
        .long(name)
        .value_name("N")
        .value_parser(value_parser!(u32))
        .default_value(value)
        .help(help)
}

/// An option that is set or not.
fn flag<'a>(alloc: Global, name: &'a str, help: &'a str) -> Arg<'a> {
    Arg::new(alloc, name)
        .long(name)
        .action(ArgAction::SetTrue)
        .help(help)
}

/// The command line, but for the options on what is drawn.
fn machine_options<'a>(alloc: Global) -> Result<Command<'a>, AllocError> {
    Command::new(alloc, "w16map")
        .version("0.1.0")
        .about("Draws the heap of Windows 3.1 while it runs a script of memory calls")
        .after_help(EXAMPLES)
        .arg(number(
            alloc,
            "memory",
            "1048576",
            "Bytes of the global heap, a multiple of 32 from 32 to 16777216",
        ))?
        .arg(number(
            alloc,
            "selectors",
            "1024",
            "How many objects there may be at once, from 1 to 8160",
        ))?
        .arg(
            Arg::new(alloc, "dir")
                .long("dir")
                .value_name("D")
                .default_value(".")
                .help("The folder of module files"),
        )
}

/// The command line that the program takes.
fn command<'a>(alloc: Global) -> Result<Command<'a>, AllocError> {
    machine_options(alloc)?
        .arg(flag(
            alloc,
            "walks",
            "A strip for each Walk, not for each command that changed the heap",
        ))?
        .arg(number(alloc, "from", "1", "The first line that is drawn"))?
        .arg(number(alloc, "to", "4294967295", "The last line that is played"))?
        .arg(number(alloc, "limit", "2000", "The most strips"))?
        .arg(flag(alloc, "text", "Strips of 96 characters, and no SVG"))?
        .arg(Arg::new(alloc, "SCRIPT").help(
            "The script; standard input without it, or where it is -",
        ))
}

/// Reads the words of a command line, the program's name first. An error is `clap`'s, also where help or the version is asked for.
pub fn parse<'a, S: AsStr>(alloc: Global, words: &'a [S]) -> Result<Options<'a>, Error> {
    let matches = command(alloc)?.try_get_matches_from(words)?;
    // clap gives a default where nothing is asked for, so each number and the folder are there.
    Ok(Options {
        memory: matches.get_one("memory").unwrap_or_default(),
        selectors: matches.get_one("selectors").unwrap_or_default(),
        dir: matches.get_str("dir").unwrap_or("."),
        walks: matches.get_flag("walks"),
        from: matches.get_one("from").unwrap_or_default(),
        to: matches.get_one("to").unwrap_or_default(),
        limit: matches.get_one("limit").unwrap_or_default(),
        text: matches.get_flag("text"),
        script: matches.get_str("SCRIPT").filter(|path| *path != "-"),
    })
}
