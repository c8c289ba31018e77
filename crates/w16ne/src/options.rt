//! The command line of `w16ne`.
use clap::builder::ValueParser;
use clap::{Arg, ArgAction, ArgMatches, Command, Error, value_parser};
use std::alloc::{AllocError, Global};
use std::convert::AsStr;
use w16_show::Parts;

/// Where resources are written to.
#[derive(Debug, Clone, Copy, Drop)]
pub struct Taken<'a> {
    pub folder: &'a str,
    /// Whether files there are removed first.
    pub force: bool,
    /// The most bytes of all of them together.
    pub limit: u64,
}

/// What the command line asks for.
#[derive(Debug, Drop)]
pub struct Options<'a> {
    /// The paths of the files; `-` is standard input.
    pub files: Vec<&'a str>,
    /// Whether JSON is printed.
    pub json: bool,
    /// Which parts are printed as text.
    pub parts: Parts,
    /// The most bytes of a file.
    pub file_limit: u64,
    /// Where resources are written to; none where they aren't taken out.
    pub taken: Option<Taken<'a>>,
}

/// The program's version.
const VERSION: &str = "0.1.0";

/// What stands at the end of the help.
const NOTES: &str = "All parts are printed where none is chosen. A file - is standard input.
Exit status: 0 each module is accepted and sound, 1 something can't be read or written,
2 a wrong command line, 3 no memory, 4 a module is not accepted or not sound; the highest of several files.";

/// A switch that asks for something.
fn switch<'a>(alloc: Global, name: &'a str, help: &'a str) -> Arg<'a> {
    Arg::new(alloc, name)
        .long(name)
        .action(ArgAction::SetTrue)
        .help(help)
}

/// The switch for a part of the text. JSON has all parts.
fn part<'a>(alloc: Global, name: &'a str, help: &'a str) -> Result<Arg<'a>, AllocError> {
    switch(alloc, name, help).conflicts_with("json")
}

/// A number of bytes, which is `value` where it isn't given.
fn bytes<'a>(alloc: Global, name: &'a str, value: &'a str, help: &'a str) -> Arg<'a> {
    Arg::new(alloc, name)
        .long(name)
        .value_name("N")
        .value_parser(value_parser!(u64))
        .default_value(value)
        .help(help)
}

/// The words on resources that are taken out, put to a command line.
fn with_extract<'a>(alloc: Global, command: Command<'a>) -> Result<Command<'a>, AllocError> {
    let folder = Arg::new(alloc, "extract")
        .long("extract")
        .value_name("DIR")
        .value_parser(ValueParser::NonEmptyString)
        .help("Writes each resource into a file of its own in this folder, which must exist");
    let force = switch(alloc, "force", "Removes files that are there first").requires_arg(
        "extract",
    )?;
    command.arg(folder)?.arg(force)?.arg(bytes(
        alloc,
        "limit",
        "1000000000",
        "The most bytes of all resources that are written",
    ))
}

/// The command line that the program takes.
fn command<'a>(alloc: Global) -> Result<Command<'a>, AllocError> {
    let files = Arg::new(alloc, "FILE")
        .required(true)
        .action(ArgAction::Append)
        .num_args(1..)
        .help("Module files of 16-bit Windows");
    let command = Command::new(alloc, "w16ne")
        .version(VERSION)
        .about("Says what module files of 16-bit Windows have in them, with a verdict on each")
        .after_help(NOTES)
        .arg(switch(alloc, "json", "Prints one line of JSON for each file"))?
        .arg(part(alloc, "header", "Prints the fields of the header")?)?
        .arg(part(
            alloc,
            "segments",
            "Prints the segments and their relocation records",
        )?)?
        .arg(part(alloc, "entries", "Prints the entries and their names")?)?
        .arg(part(
            alloc,
            "references",
            "Prints the modules that are referred to",
        )?)?
        .arg(part(alloc, "resources", "Prints the resources")?)?;
    with_extract(alloc, command)?
        .arg(bytes(
            alloc,
            "file-limit",
            "256000000",
            "The most bytes of a file that is read",
        ))?
        .arg(files)
}

/// The parts that are asked for: all where none is chosen.
fn parts_of(matches: &ArgMatches<'_>) -> Parts {
    let parts = Parts {
        header: matches.get_flag("header"),
        segments: matches.get_flag("segments"),
        entries: matches.get_flag("entries"),
        references: matches.get_flag("references"),
        resources: matches.get_flag("resources"),
    };
    if parts.is_empty() {
        Parts::all()
    } else {
        parts
    }
}

/// Where resources are written to, where this is asked for.
fn taken_of<'a>(matches: &ArgMatches<'a>) -> Option<Taken<'a>> {
    let folder = matches.get_str("extract")?;
    // clap gives a default where no limit is asked for, so it is there.
    Some(Taken {
        folder,
        force: matches.get_flag("force"),
        limit: matches.get_one("limit").unwrap_or_default(),
    })
}

/// Reads the words of a command line, the program's name first. An error is `clap`'s, also where help or the version is asked for.
pub fn parse<'a, S: AsStr>(alloc: Global, words: &'a [S]) -> Result<Options<'a>, Error> {
    let matches = command(alloc)?.try_get_matches_from(words)?;
    let mut files = Vec::new(alloc);
    if let Some(paths) = matches.get_strs("FILE") {
        files.extend_from_slice(paths)?;
    }
    Ok(Options {
        files,
        json: matches.get_flag("json"),
        parts: parts_of(&matches),
        file_limit: matches.get_one("file-limit").unwrap_or_default(),
        taken: taken_of(&matches),
    })
}
