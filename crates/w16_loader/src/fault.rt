//! Why a load fails.
ghost use Rattle.std.specs.Prelude.{◌≡◌};
ghost use Rattle.w16_loader.specs.Loading.{damage_at};
ghost use Rattle.w16_loader.specs.declared.fault.LoadFault.TheVariants.{OutOfMemory};

use std::alloc::AllocError;
use thiserror::Error;
use w16_loading::{FetchFault, LoadRefusal};

/// Why no module is made of a file, or new modules get no names, no values or no bytes.
#[derive(Clone, Copy, Debug, PartialEq, Eq, Drop, Error)]
pub enum LoadFault {
    /// The load is refused.
    #[error("the load is refused")]
    Refused(LoadRefusal),
    /// The store's device failed.
    #[error("the store's device failed")]
    Device,
    /// There was no memory.
    #[error("out of memory")]
    OutOfMemory,
}

impl From<AllocError> for LoadFault {
    ghost from_gives = { λ _ e. e ≡ OutOfMemory };

    fn from(_error: AllocError) -> LoadFault {
        LoadFault::OutOfMemory
    }
}

/// Why an object of a new module isn't given its bytes.
#[derive(Clone, Copy, Debug, PartialEq, Eq, Drop, Error)]
#[error("new module {place}: {fault}")]
pub struct Failure {
    /// The place of the module among the new ones, from 0.
    pub place: usize,
    /// Why its object has no bytes.
    pub fault: FetchFault,
}

/// Why a load is refused where the file of the new module at a place reads otherwise than it did: the first is the one asked for.
pub(crate) fn damage_at(place: usize) -> LoadRefusal
    ensures { result ≡ damage_at place }
{
    if place == 0 {
        LoadRefusal::BadFile
    } else {
        LoadRefusal::BadReference
    }
}
