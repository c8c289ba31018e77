//! Module files, which come from C.
ghost use Rattle.std.specs.Prelude.{◌≡◌, true, false, option_map};
ghost use Rattle.w16_c.specs.Makes.{IsEmpty};
ghost use Rattle.w16_c.specs.Files.{AddCalls, RemoveCalls, SameMachine, TellsMissing, TellsName};

use crate::held::Held;
use crate::life::{put_back, taken};
use crate::status::{BAD_SIZE, DONE, EXISTS, IN_USE, NO_FILE, NO_MACHINE, NO_MEMORY, NONE_MISSING};
use std::alloc::Global;
use w16_kernel::{AddFault, RemoveFault};

/// Adds a module file, whose bytes are copied, under a name that no file of the machine has, in any case of letters. `EXISTS` is that one has it:
/// no file is replaced; `BAD_SIZE` that the name is empty. It takes memory, and `NO_MEMORY` is that there was none. Only `DONE` changes anything.
#[unsafe(no_mangle)]
pub extern "C" fn w16_add_file(alloc: Global, held: &mut Held, name: &[u8], bytes: &[u8]) -> u8
    ensures { AddCalls held.old name.now bytes.now result held.new }
{
    let Some(mut kernel) = taken(held, alloc) else {
        return NO_MACHINE;
    };
    let added = kernel.add_file(name, bytes);
    put_back(held, alloc, kernel);
    match added {
        Ok(()) => DONE,
        Err(AddFault::Unnamed) => BAD_SIZE,
        Err(AddFault::Exists) => EXISTS,
        Err(AddFault::Memory) => NO_MEMORY,
    }
}

/// Takes a module file away, by its name in any case of letters. `IN_USE` is that a module is loaded from it, and `NO_FILE` that no file has the name.
/// Only `DONE` changes anything.
#[unsafe(no_mangle)]
pub extern "C" fn w16_remove_file(alloc: Global, held: &mut Held, name: &[u8]) -> u8
    ensures { RemoveCalls held.old name.now result held.new }
{
    let Some(mut kernel) = taken(held, alloc) else {
        return NO_MACHINE;
    };
    let removed = kernel.remove_file(name);
    put_back(held, alloc, kernel);
    match removed {
        Ok(()) => DONE,
        Err(RemoveFault::InUse) => IN_USE,
        Err(RemoveFault::Missing) => NO_FILE,
    }
}

/// Puts a name to the begin of a buffer, if there is one; else it answers what says that there is nothing.
pub fn told_name(nothing: u8, name: Option<&[u8]>, into: &mut [u8], length: &mut usize) -> u8
    ensures { TellsName nothing (option_map (λ n. n.now) name.entry) result into.old into.new length.old length.new }
{
    let Some(name) = name else {
        return nothing;
    };
    if into.len() < name.len() {
        return BAD_SIZE;
    }
    into[..name.len()].copy_from_slice(name);
    *length = name.len();
    DONE
}

/// The name of the file that a load missed, once it has answered 2 or 20: the last name by which no file was found, of at most 259 bytes, where no
/// file was found or added since. `NONE_MISSING` is that there is none, and `BAD_SIZE` that the buffer is shorter.
#[unsafe(no_mangle)]
pub extern "C" fn w16_missing_file(
    alloc: Global,
    held: &mut Held,
    into: &mut [u8],
    length: &mut usize,
) -> u8
    ensures held { held.old.is_held ≡ true → TellsMissing held.old result into.old into.new length.old length.new }
    ensures same { held.old.is_held ≡ true → SameMachine held.old held.new }
    ensures empty { held.old.is_held ≡ false → (result ≡ NO_MACHINE) × IsEmpty held.old held.new × (into.new ≡ into.old) × (length.new ≡ length.old) }
{
    let Some(kernel) = taken(held, alloc) else {
        return NO_MACHINE;
    };
    let status = told_name(NONE_MISSING, kernel.missed_file(), into, length);
    put_back(held, alloc, kernel);
    status
}
