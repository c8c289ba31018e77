//! The command line of `w16heap`.
#![tactic(auto)]

ghost use Rattle.std.specs.Prelude.{◌≡◌, false};
ghost use Rattle.std.specs.Range.{range_inclusive_exhausted};

use clap::{Arg, ArgAction, Command, Error, value_parser};
use std::alloc::{AllocError, Global};
use std::convert::AsStr;
use std::ops::RangeInclusive;

/// What the command line asks for.
#[derive(Debug, Clone, Copy, PartialEq, Eq, Drop)]
pub struct Options<'a> {
    /// Bytes of the global heap.
    pub memory: u32,
    /// How many objects may be there at once.
    pub selectors: u32,
    /// The path of the folder that module files lie in.
    pub dir: &'a str,
    /// The script's path; standard input without one.
    pub script: Option<&'a str>,
    /// Whether what is refused is explained on standard error.
    pub explain: bool,
}

/// The memory's size where none is asked for, in bytes.
const MEMORY: &str = "1048576";

/// The number of selectors where none is asked for.
const SELECTORS: &str = "1024";

/// The folder of module files where none is asked for.
const DIR: &str = ".";

const MEMORY_HELP: &str = "Bytes of the global heap, a multiple of 32 from 32 to 16777216";

const SELECTORS_HELP: &str = "How many objects there may be at once, from 1 to 8160";

const DIR_HELP: &str = "The folder of module files";

const EXPLAIN_HELP: &str =
    "Says on standard error what is wrong in bad lines, and why calls are refused";

const SCRIPT_HELP: &str = "The script; standard input without it, or where it is -";

/// The program's version.
const VERSION: &str = "0.1.0";

/// What stands at the end of the help.
const EXAMPLES: &str = "Examples:
  w16heap examples/tour.txt
  echo 'GlobalAlloc 2 100' | w16heap --memory 4096 --selectors 16
  w16heap - < examples/tour.txt";

/// An option with a number in a range, which is `value` where it isn't given.
fn number<'a>(
    alloc: Global,
    name: &'a str,
    value: &'a str,
    range: RangeInclusive<i64>,
    help: &'a str,
) -> Arg<'a>
    requires { range_inclusive_exhausted range ≡ false }
{
    Arg::new(alloc, name)
        .long(name)
        .value_name("N")
        .value_parser(value_parser!(u32).range(range))
        .default_value(value)
        .help(help)
}

/// The option with the folder of module files.
fn dir<'a>(alloc: Global) -> Arg<'a> {
    Arg::new(alloc, "dir")
        .long("dir")
        .value_name("D")
        .default_value(DIR)
        .help(DIR_HELP)
}

/// The command line that the program takes.
fn command<'a>(alloc: Global) -> Result<Command<'a>, AllocError> {
    Command::new(alloc, "w16heap")
        .version(VERSION)
        .about("Runs a script of memory calls of Windows 3.1 and prints one reply for each")
        .after_help(EXAMPLES)
        .arg(number(alloc, "memory", MEMORY, 32..=16_777_216, MEMORY_HELP))?
        .arg(number(alloc, "selectors", SELECTORS, 1..=8160, SELECTORS_HELP))?
        .arg(dir(alloc))?
        .arg(
            Arg::new(alloc, "explain")
                .long("explain")
                .action(ArgAction::SetTrue)
                .help(EXPLAIN_HELP),
        )?
        .arg(Arg::new(alloc, "SCRIPT").help(SCRIPT_HELP))
}

/// Reads the words of a command line, the program's name first. An error is `clap`'s, also where help or the version is asked for.
pub fn parse<'a, S: AsStr>(alloc: Global, words: &'a [S]) -> Result<Options<'a>, Error> {
    let matches = command(alloc)?.try_get_matches_from(words)?;
    // clap gives a default where nothing is asked for, so each number and the folder are there.
    Ok(Options {
        memory: matches.get_one("memory").unwrap_or_default(),
        selectors: matches.get_one("selectors").unwrap_or_default(),
        dir: matches.get_str("dir").unwrap_or(DIR),
        script: matches.get_str("SCRIPT").filter(|path| *path != "-"),
        explain: matches.get_flag("explain"),
    })
}
