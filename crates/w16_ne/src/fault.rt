//! Why a file is no module.
ghost use Rattle.std.specs.Prelude.{◌≡◌};
ghost use Rattle.w16_ne.specs.declared.fault.NeFault.TheVariants.{OutOfMemory};

use std::alloc::{AllocError, AllocFailed};
use thiserror::Error;
use w16_store::StoreFault;

/// The first fault of a file, or why it could not be read.
#[derive(Debug, Clone, Copy, PartialEq, Eq, Drop, Error)]
pub enum NeFault {
    /// The file doesn't begin with `MZ`.
    #[error("not a program")]
    NotMz,
    /// There is no `NE` where the old header points to.
    #[error("not a segmented program")]
    NotNe,
    /// It is for another target system than Windows: the header's byte.
    #[error("for target system {0}")]
    Target(u8),
    /// It has what isn't read here: it loads itself, was linked with errors, has iterated data, over 253 segments or over 65,535 resources.
    #[error("unsupported")]
    Unsupported,
    /// The file ends before what it points to.
    #[error("truncated")]
    Truncated,
    /// A table isn't sound.
    #[error("bad table")]
    BadTable,
    /// The store doesn't give the file.
    #[error("{0}")]
    Store(StoreFault),
    /// There was no memory.
    #[error("out of memory")]
    OutOfMemory,
}

impl From<AllocError> for NeFault {
    ghost from_gives = { λ _ e. e ≡ OutOfMemory };

    fn from(_error: AllocError) -> NeFault {
        NeFault::OutOfMemory
    }
}

impl<T: Drop> From<AllocFailed<T>> for NeFault {
    ghost from_gives = { λ _ e. e ≡ OutOfMemory };

    fn from(_error: AllocFailed<T>) -> NeFault {
        NeFault::OutOfMemory
    }
}
