//! The meaning of modules: files that are read, loads, fetches, uses and resources, as definitions (`specs/`). Their laws are in `w16_laws`.
#![tactic(auto)]

ghost use Rattle.std.specs.Prelude.{◌≡◌};
ghost use Rattle.w16_loading.specs.Refusals.{refusal_number};

use thiserror::Error;

/// Why a module's object doesn't get its bytes. Then nothing has changed.
#[derive(Debug, Clone, Copy, PartialEq, Eq, Drop, Error)]
pub enum FetchFault {
    /// No gap could hold it.
    #[error("no room")]
    NoRoom,
    /// The store's device failed.
    #[error("the store's device failed")]
    Store,
    /// The file reads otherwise than it did when the module was loaded.
    #[error("the module's file isn't what it was at load")]
    Damaged,
}

/// Why a load is refused.
#[derive(Debug, Clone, Copy, PartialEq, Eq, Drop)]
pub enum LoadRefusal {
    /// No handle, no slot, no room or no use is left.
    NoRoom = 0,
    /// There is no such file.
    NoFile = 2,
    /// The file isn't accepted, but not for its system; or it reads otherwise than it did.
    BadFile = 11,
    /// The file is for OS/2.
    ForOs2 = 12,
    /// The file is for DOS 4.
    ForDos4 = 13,
    /// The file is for another system.
    ForOtherSystem = 14,
    /// The application that `LoadModule` asks for is there.
    LoadedTwice = 16,
    /// The file of a reference is refused.
    BadReference = 20,
}

impl LoadRefusal {
    /// What the load answers.
    pub fn number(self) -> u16
        ensures { result ≡ refusal_number self }
    {
        self as u16
    }
}

/// The number of the first module handle; so many may be given.
pub const FIRST_MODULE: u16 = 33;

/// Built-ins included.
pub const MOST_MODULES: u16 = 200;

/// The most explicit uses of a module, and loads of a resource.
pub const MOST_USES: u32 = 65_000;

/// The largest segment of a module, and the longest resource that may be loaded.
pub const LARGEST_OWNED: u32 = 65_536;
