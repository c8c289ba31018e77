//! What a call answers.
ghost use Rattle.std.specs.Prelude.{◌≡◌};
ghost use Rattle.w16_c.specs.Makes.{fault_status, fetch_status};

use w16_loading::FetchFault;
use w16_model::FarFault;

/// The call was made.
pub const DONE: u8 = 0;

/// The holder has no machine, and nothing changed.
pub const NO_MACHINE: u8 = 1;

/// The host has no memory, and nothing changed.
pub const NO_MEMORY: u8 = 2;

/// What was asked for can't be: a machine of these sizes, or that many bytes. Nothing changed.
pub const BAD_SIZE: u8 = 3;

/// No object has the far pointer's selector.
pub const FAULT_SELECTOR: u8 = 4;

/// The object's bytes are code, which can't be written.
pub const FAULT_READ_ONLY: u8 = 5;

/// The object has no bytes.
pub const FAULT_NOT_PRESENT: u8 = 6;

/// The access goes past the object's end.
pub const FAULT_LIMIT: u8 = 7;

/// Nothing is left of what is asked for one by one.
pub const END: u8 = 8;

/// There is no room for the bytes of a module's object.
pub const FAULT_ROOM: u8 = 9;

/// The store of module files failed.
pub const FAULT_STORE: u8 = 10;

/// The file of a module reads otherwise than it did when the module was loaded.
pub const FAULT_DAMAGED: u8 = 11;

/// A file has the name already. Nothing changed.
pub const EXISTS: u8 = 12;

/// No file is known to be missing.
pub const NONE_MISSING: u8 = 13;

/// No module that was loaded from a file has the handle.
pub const NO_MODULE: u8 = 14;

/// No file has the name. Nothing changed.
pub const NO_FILE: u8 = 15;

/// A module is loaded from the file. Nothing changed.
pub const IN_USE: u8 = 16;

/// A fault of a far access, as a status.
pub fn status_of(fault: FarFault) -> u8
    ensures { result ≡ fault_status fault }
{
    match fault {
        FarFault::BadSelector => FAULT_SELECTOR,
        FarFault::ReadOnly => FAULT_READ_ONLY,
        FarFault::NotPresent => FAULT_NOT_PRESENT,
        FarFault::Limit => FAULT_LIMIT,
    }
}

/// Why a module's object got no bytes, as a status.
pub fn status_of_fetch(fault: FetchFault) -> u8
    ensures { result ≡ fetch_status fault }
{
    match fault {
        FetchFault::NoRoom => FAULT_ROOM,
        FetchFault::Store => FAULT_STORE,
        FetchFault::Damaged => FAULT_DAMAGED,
    }
}
