//! Runs of a script on a new machine.
ghost use Rattle.std.specs.Prelude.{◌≡◌, [], None, IfOk, IfErr, Err};
ghost use Rattle.std.specs.String.{string_bytes};
ghost use Rattle.std.specs.Io.Buffered.{writer_buffer, writer_contents};
ghost use Rattle.w16_machine.specs.Law.{empty_world};
ghost use Rattle.w16_kernel.specs.Parts.{KernelStep};
ghost use Rattle.w16_kernel.specs.Sizes.{IsMemorySize, IsSelectorCount};
ghost use Rattle.w16_command.specs.Faults.{IsOfFiles};
ghost use Rattle.w16_command.specs.Playing.{Plays, HasPlayed};

use crate::explain::{NotedMachine, Source};
use crate::fault::Fault;
use crate::lines::Lines;
use std::alloc::Global;
use std::cell::RefCell;
use std::fs::{self, File};
use std::io::{self, BufWriter, Error, Read, Write};
use w16_kernel::{Kernel, Machine, SizeFault, check_sizes};
use w16_options::Options;
use w16_script::run;
use w16_store::{DirFault, DirStore, Store, SystemDisk};

/// Why a folder can't be listed: the system is asked once more.
fn unlisted<'a>(rt: &HostRuntime, folder: &'a str) -> Fault<'a>
    ensures { IsOfFiles folder.now result }
{
    let error = match fs::read_dir(rt, folder) {
        Ok(_) => Error::other("can't be listed"),
        Err(error) => error,
    };
    Fault::of_files(folder, error)
}

/// The module files of the folder that the options name, as it holds them now.
fn module_files<'a>(
    rt: &HostRuntime,
    options: &Options<'a>,
) -> Result<DirStore<SystemDisk<HostRuntime>>, Fault<'a>>
    ensures ok { IfOk result (λ store. string_bytes store.disk.folder ≡ options.now.dir.now) }
    ensures err { IfErr result (IsOfFiles options.now.dir.now) }
{
    match DirStore::from_folder(rt, rt.alloc(), options.dir) {
        Ok(store) => Ok(store),
        Err(DirFault::Folder) => Err(unlisted(rt, options.dir)),
        Err(DirFault::Memory) => Err(Fault::Memory),
    }
}

/// The machine that the options ask for, over a store of module files. An error is want of memory.
fn machine<'a, S: Store + Drop>(
    alloc: Global,
    options: &Options<'a>,
    store: S,
) -> Result<Kernel<S>, Fault<'a>>
    requires { IsMemorySize options.now.memory × IsSelectorCount options.now.selectors }
    ensures ok { IfOk result (λ kernel. kernel ≡ empty_world options.now.memory options.now.selectors (S.files store) (S.failures store)) }
    ensures err { IfErr result (λ fault. fault ≡ Fault.Memory) }
{
    Kernel::new(alloc, options.memory, options.selectors, store).map_err(|_| Fault::Memory)
}

/// Runs a script, and flushes what was replied before the run's own fault is told: a failure there is the write fault. Unless that is told,
/// nothing is left in the buffer.
fn run_flushed<'a, R: Read + Drop, W: Write + Drop, K: Machine, E: Eprint>(
    alloc: Global,
    path: &'a str,
    source: &mut Source<'_, R, E>,
    writer: &mut BufWriter<W>,
    kernel: &mut K,
) -> Result<(), Fault<'a>>
    ensures plays { Plays K.steps (R.remaining source.old.reader) (R.remaining source.new.reader) (writer_contents W.contents writer.old) (K.world kernel.old)
        path.entry result (writer_contents W.contents writer.new) (K.world kernel.new) }
    ensures flushed { (result ≡ Err Fault.Write → ⊥) → writer_buffer writer.new ≡ [] }
{
    let ended = run(alloc, source, writer, kernel);
    if writer.flush().is_err() {
        return Err(Fault::Write);
    }
    match ended {
        Ok(_) => Ok(()),
        Err(fault) => Err(Fault::of_run(fault, path, source.fault)),
    }
}

/// Runs a script, and explains.
fn run_explained<'a, R: Read + Drop, W: Write + Drop, S: Store + Drop, E: Eprint>(
    rt: &E,
    alloc: Global,
    path: &'a str,
    reader: R,
    writer: &mut BufWriter<W>,
    kernel: Kernel<S>,
) -> Result<(), Fault<'a>>
    ensures plays { HasPlayed (KernelStep S.is_honest) (R.remaining reader) (writer_contents W.contents writer.old) kernel path.entry result (writer_contents W.contents writer.new) }
    ensures flushed { writer_buffer writer.old ≡ [] → (result ≡ Err Fault.Write → ⊥) → writer_buffer writer.new ≡ [] }
{
    let Ok(lines) = Lines::new(alloc) else {
        return Err(Fault::Memory);
    };
    let lines = &RefCell::new(lines);
    run_flushed(
        alloc,
        path,
        &mut Source::new(rt, reader, Some(lines)),
        writer,
        &mut NotedMachine { kernel, lines, rt },
    )
}

/// Runs the script of a reader, which is called as its path, on a new machine over a store, and writes its replies and nothing else. At its
/// end, and after each fault, what was replied is flushed; unless that fails, nothing of it is left in the buffer. What is said on standard
/// error changes nothing of this.
pub fn run_script<'a, R: Read + Drop, W: Write + Drop, S: Store + Drop, E: Eprint>(
    rt: &E,
    alloc: Global,
    options: &Options<'a>,
    store: S,
    path: &'a str,
    reader: R,
    writer: &mut BufWriter<W>,
) -> Result<(), Fault<'a>>
    requires { IsMemorySize options.now.memory × IsSelectorCount options.now.selectors }
    ensures plays { HasPlayed (KernelStep S.is_honest) (R.remaining reader) (writer_contents W.contents writer.old)
        (empty_world options.now.memory options.now.selectors (S.files store) (S.failures store)) path.entry result (writer_contents W.contents writer.new) }
    ensures flushed { writer_buffer writer.old ≡ [] → (result ≡ Err Fault.Write → ⊥) → writer_buffer writer.new ≡ [] }
{
    match machine(alloc, options, store) {
        Ok(kernel) if options.explain => run_explained(rt, alloc, path, reader, writer, kernel),
        Ok(mut kernel) => run_flushed(
            alloc,
            path,
            &mut Source::new(rt, reader, None),
            writer,
            &mut kernel,
        ),
        Err(fault) => Err(fault),
    }
}

/// Runs the script of a reader, whose replies go to standard output, of which no contract says what it holds.
fn run_printed<'a, R: Read + Drop, S: Store + Drop>(
    rt: &HostRuntime,
    options: &Options<'a>,
    store: S,
    path: &'a str,
    reader: R,
) -> Result<(), Fault<'a>>
    requires { IsMemorySize options.now.memory × IsSelectorCount options.now.selectors }
    ensures { HasPlayed (KernelStep S.is_honest) (R.remaining reader) None (empty_world options.now.memory options.now.selectors (S.files store) (S.failures store)) path.entry result None }
{
    match BufWriter::new(rt.alloc(), io::writer(rt)) {
        Ok(mut writer) => run_script(rt, rt.alloc(), options, store, path, reader, &mut writer),
        Err(_) => Err(Fault::Memory),
    }
}

/// Runs the script of a file.
fn run_file<'a>(
    rt: &HostRuntime,
    options: &Options<'a>,
    store: impl Store + Drop,
    path: &'a str,
) -> Result<(), Fault<'a>>
    requires { IsMemorySize options.now.memory × IsSelectorCount options.now.selectors }
{
    match File::open(rt, path) {
        Ok(file) => run_printed(rt, options, store, path, file),
        Err(error) => Err(Fault::of_files(path, error)),
    }
}

/// Does what the command line asks for, where a machine may have these sizes.
fn play_sized<'a>(rt: &HostRuntime, options: &Options<'a>) -> Result<(), Fault<'a>>
    requires { IsMemorySize options.now.memory × IsSelectorCount options.now.selectors }
{
    match module_files(rt, options) {
        Ok(store) => match options.script {
            Some(path) => run_file(rt, options, store, path),
            None => run_printed(rt, options, store, "standard input", rt.reader()),
        },
        Err(fault) => Err(fault),
    }
}

/// Does what the command line asks for. A size that can't be is told first, then a folder that can't be listed, then a script that can't be
/// opened, then want of memory for the machine.
pub fn play<'a>(rt: &HostRuntime, options: &Options<'a>) -> Result<(), Fault<'a>>
    ensures memory { (IsMemorySize options.now.memory → ⊥) → result ≡ Err (Fault.MemorySize options.now.memory) }
    ensures selectors { IsMemorySize options.now.memory → (IsSelectorCount options.now.selectors → ⊥) → result ≡ Err (Fault.SelectorCount options.now.selectors) }
{
    match check_sizes(options.memory, options.selectors) {
        Ok(()) => play_sized(rt, options),
        Err(SizeFault::MemorySize) => Err(Fault::MemorySize(options.memory)),
        Err(SizeFault::SelectorCount) => Err(Fault::SelectorCount(options.selectors)),
    }
}
