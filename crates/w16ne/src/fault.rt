//! Why the program ends before its last file.
use std::io;
use std::io::ErrorKind;
use std::process::ExitCode;
use thiserror::Error;

/// A fault that ends the program.
#[derive(Debug, Clone, Copy, PartialEq, Eq, Drop, Error)]
pub enum Fault {
    /// A word of the command line is no UTF-8.
    #[error("bad argument")]
    Argument,
    /// Standard output takes no more.
    #[error("write fault")]
    Write,
    /// The folder takes no more resources.
    #[error("no more resources are written")]
    Folder,
    /// The host has no memory.
    #[error("out of memory")]
    Memory,
}

/// Why the words of the command line could not be had.
impl From<io::Error> for Fault {
    fn from(error: io::Error) -> Fault {
        match error.kind() {
            ErrorKind::OutOfMemory => Fault::Memory,
            _ => Fault::Argument,
        }
    }
}

impl From<std::alloc::AllocError> for Fault {
    fn from(_error: std::alloc::AllocError) -> Fault {
        Fault::Memory
    }
}

impl Fault {
    /// The exit status.
    fn status(self) -> u8 {
        match self {
            Fault::Write | Fault::Folder => 1,
            Fault::Argument => 2,
            Fault::Memory => 3,
        }
    }
}

/// Says a fault on standard error, in one line, and answers its status.
pub fn report(rt: &impl Eprint, fault: Fault) -> ExitCode {
    // Where standard error is gone too, the status still tells.
    let _ = eprintln!(rt; "w16ne: {fault}");
    ExitCode::from(fault.status())
}
