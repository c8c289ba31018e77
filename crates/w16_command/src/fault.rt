//! Why the program ends before its script does.
ghost use Rattle.std.specs.Prelude.{◌≡◌, ◌↔◌};
ghost use Rattle.std.specs.IoError.{error_kind};
ghost use Rattle.w16_command.specs.Faults.{status_of, of_run, IsOfFiles};

use std::io::ErrorKind;
use std::process::ExitCode;
use std::{fmt, io};
use thiserror::Error;
use w16_script::RunFault;

/// A fault of a run of the program, but for those of its command line. It is shown in one line.
#[derive(Debug, Clone, Copy, Drop, Error)]
pub enum Fault<'a> {
    /// A word of the command line is no UTF-8.
    #[error("bad argument")]
    Argument,
    /// The memory's size is no multiple of 32 from 32 to 16,777,216.
    #[error("--memory {0}: it has to be a multiple of 32 from 32 to 16777216")]
    MemorySize(u32),
    /// The number of selectors is not from 1 to 8,160.
    #[error("--selectors {0}: it has to be a number from 1 to 8160")]
    SelectorCount(u32),
    /// The script of this path can't be opened or read, or the folder can't be listed.
    #[error("{path}: {error}")]
    Read { path: &'a str, error: io::Error },
    /// Standard output takes no more.
    #[error("write fault")]
    Write,
    /// The host has no memory.
    #[error("out of memory")]
    Memory,
    /// A line of the script of this path is too long, or it has too many.
    #[error("{path}: a line has more than 4096 bytes, or the script more than 1000000 lines")]
    TooLong { path: &'a str },
}

/// Why the words of the command line could not be had.
impl From<io::Error> for Fault<'_> {
    fn from(error: io::Error) -> Self {
        match error.kind() {
            ErrorKind::OutOfMemory => Fault::Memory,
            _ => Fault::Argument,
        }
    }
}

impl<'a> Fault<'a> {
    /// Why the file or the folder of a path can't be had.
    pub fn of_files(path: &'a str, error: io::Error) -> Self
        ensures files { IsOfFiles path.now result }
        ensures memory { (result ≡ Fault.Memory) ↔ (error_kind error ≡ ErrorKind.OutOfMemory) }
    {
        match error.kind() {
            ErrorKind::OutOfMemory => Fault::Memory,
            _ => Fault::Read { path, error },
        }
    }

    /// A run's fault, of the script of a path, whose last failed read met this error.
    pub fn of_run(fault: RunFault, path: &'a str, error: io::Error) -> Self
        ensures { result ≡ of_run fault path.entry error }
    {
        match fault {
            RunFault::Read => Fault::Read { path, error },
            RunFault::Write => Fault::Write,
            RunFault::Memory => Fault::Memory,
            RunFault::TooLong => Fault::TooLong { path },
        }
    }

    /// The exit status: 2 for what the command line asks for, and for a run's fault the one that it has.
    pub fn status(self) -> u8
        ensures { result ≡ status_of self.entry }
    {
        match self {
            Fault::Argument | Fault::MemorySize(_) | Fault::SelectorCount(_) => 2,
            Fault::Read { .. } => RunFault::Read.status(),
            Fault::Write => RunFault::Write.status(),
            Fault::Memory => RunFault::Memory.status(),
            Fault::TooLong { .. } => RunFault::TooLong.status(),
        }
    }
}

/// Says a fault on standard error, in one line, and answers its status.
pub fn report(rt: &impl Eprint, fault: Fault<'_>) -> ExitCode {
    // Where standard error is gone too, the status still tells.
    let _ = eprintln!(rt; "w16heap: {fault}");
    ExitCode::from(fault.status())
}
