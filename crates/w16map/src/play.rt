//! Pictures of a script on a new machine.
ghost use Rattle.std.specs.Prelude.{◌≤◌};
ghost use Rattle.w16_kernel.specs.Sizes.{IsMemorySize, IsSelectorCount};

use crate::fault::Fault;
use crate::line::Rooms;
use crate::options::Options;
use crate::script::{Script, play_lines};
use crate::view::View;
use std::alloc::Global;
use std::fs::File;
use std::io::{self, BufReader, BufWriter, Read, Write};
use w16_kernel::{Kernel, check_sizes};
use w16_picture::{Picture, Style};
use w16_script::Registers;
use w16_store::{DirStore, Store, SystemDisk};

/// The module files of the folder that the options name.
fn module_files(
    rt: &HostRuntime,
    options: &Options<'_>,
) -> Result<DirStore<SystemDisk<HostRuntime>>, Fault> {
    DirStore::from_folder(rt, rt.alloc(), options.dir).map_err(Fault::from)
}

/// The machine that the options ask for. An error is want of memory.
fn machine<S: Store + Drop>(
    alloc: Global,
    options: &Options<'_>,
    store: S,
) -> Result<Kernel<S>, Fault>
    requires { IsMemorySize options.now.memory × IsSelectorCount options.now.selectors }
{
    Kernel::new(alloc, options.memory, options.selectors, store).map_err(|_| Fault::Memory)
}

/// What is known before the first line.
fn script_on(alloc: Global) -> Script {
    Script {
        registers: Registers::new(),
        rooms: Rooms::new(),
        line: Vec::new(alloc),
        reply: Vec::new(alloc),
        before: View::new(alloc),
        after: View::new(alloc),
    }
}

/// Prints the picture of a script, strip by strip. It is whole also where a fault ends the run, but for one of the writer.
fn print_picture<S: Store + Drop>(
    alloc: Global,
    reader: &mut impl Read,
    writer: &mut impl Write,
    kernel: &mut Kernel<S>,
    picture: &mut Picture,
    options: &Options<'_>,
) -> Result<(), Fault> {
    if picture.open(writer).is_err() {
        return Err(Fault::Write);
    }
    let mut script = script_on(alloc);
    let played = match BufReader::new(alloc, reader) {
        Ok(mut lines) => play_lines(&mut lines, writer, kernel, picture, options, &mut script),
        Err(_) => Err(Fault::Memory),
    };
    if picture.close(writer).is_err() || writer.flush().is_err() {
        return Err(Fault::Write);
    }
    played
}

/// Draws a script on a machine, on standard output.
fn draw_script<S: Store + Drop>(
    rt: &HostRuntime,
    options: &Options<'_>,
    reader: &mut impl Read,
    kernel: &mut Kernel<S>,
) -> Result<(), Fault>
    requires { IsMemorySize options.now.memory }
{
    let style = if options.text {
        Style::Text
    } else {
        Style::Svg
    };
    let mut picture = Picture::new(rt.alloc(), style, options.memory);
    match BufWriter::new(rt.alloc(), io::writer(rt)) {
        Ok(mut writer) => {
            print_picture(
                rt.alloc(),
                reader,
                &mut writer,
                kernel,
                &mut picture,
                options,
            )
        }
        Err(_) => Err(Fault::Memory),
    }
}

/// Draws the script of a reader on a new machine over a store.
fn run_script(
    rt: &HostRuntime,
    options: &Options<'_>,
    store: impl Store + Drop,
    reader: &mut impl Read,
) -> Result<(), Fault>
    requires { IsMemorySize options.now.memory × IsSelectorCount options.now.selectors }
{
    match machine(rt.alloc(), options, store) {
        Ok(mut kernel) => draw_script(rt, options, reader, &mut kernel),
        Err(fault) => Err(fault),
    }
}

/// Draws the script of a file.
fn run_file(
    rt: &HostRuntime,
    options: &Options<'_>,
    store: impl Store + Drop,
    path: &str,
) -> Result<(), Fault>
    requires { IsMemorySize options.now.memory × IsSelectorCount options.now.selectors }
{
    match File::open(rt, path) {
        Ok(mut file) => run_script(rt, options, store, &mut file),
        Err(error) => Err(Fault::Script(error)),
    }
}

/// Does what the command line asks for.
pub fn play(rt: &HostRuntime, options: &Options<'_>) -> Result<(), Fault> {
    check_sizes(options.memory, options.selectors)?;
    match module_files(rt, options) {
        Ok(store) => match options.script {
            Some(path) => run_file(rt, options, store, path),
            None => run_script(rt, options, store, &mut rt.reader()),
        },
        Err(fault) => Err(fault),
    }
}
