//! Why the program ends before its script does.
use std::alloc::AllocError;
use std::process::ExitCode;
use std::{fmt, io};
use thiserror::Error;
use w16_kernel::SizeFault;
use w16_store::DirFault;

/// A fault of a run, and of the command line where clap doesn't know it.
#[derive(Debug, Clone, Copy, Drop, Error)]
pub enum Fault {
    #[error("bad argument")]
    Argument,
    #[error("--memory has to be a multiple of 32 from 32 to 16777216, --selectors a number from 1 to 8160")]
    Size,
    #[error("the folder can't be listed")]
    Folder,
    /// The script can't be opened or read.
    #[error("the script can't be read: {0}")]
    Script(io::Error),
    #[error("write fault")]
    Write,
    #[error("out of memory")]
    Memory,
    /// A line of the script is longer than 4,096 bytes.
    #[error("a line of the script has more than 4096 bytes")]
    TooLong,
    #[error("more strips than --limit: draw fewer lines by --from and --to, or raise it")]
    Limit,
}

impl From<AllocError> for Fault {
    fn from(_error: AllocError) -> Fault {
        Fault::Memory
    }
}

impl From<SizeFault> for Fault {
    fn from(_fault: SizeFault) -> Fault {
        Fault::Size
    }
}

impl From<DirFault> for Fault {
    fn from(fault: DirFault) -> Fault {
        match fault {
            DirFault::Folder => Fault::Folder,
            DirFault::Memory => Fault::Memory,
        }
    }
}

/// Says a fault on standard error, in one line, and answers its status: 2 for what the command line asks for, else 1.
pub fn report(rt: &impl Eprint, fault: Fault) -> ExitCode {
    let _ = eprintln!(rt; "w16map: {fault}");
    match fault {
        Fault::Argument | Fault::Size => ExitCode::from(2),
        _ => ExitCode::from(1),
    }
}
