//! Calls on the global heap. Each answers a status, and its answer goes out where that is `DONE`.
ghost use Rattle.w16_kernel.specs.Runs.{command_of};
ghost use Rattle.w16_kernel.specs.declared.call.Call.TheVariants as calls;
ghost use Rattle.w16_c.specs.Makes.{WordCalls, DwordCalls};

use crate::asked::{dword, word};
use crate::held::Held;
use crate::life::{put_back, taken};
use crate::status::{DONE, NO_MACHINE};
use std::alloc::Global;
use w16_kernel::{Call, GlobalAllocFlags, GlobalReAllocFlags};

/// `GlobalAlloc`: a new object of at most 16,711,680 bytes, and its handle; 0 where there is no room for it.
#[unsafe(no_mangle)]
pub extern "C" fn w16_global_alloc(
    alloc: Global,
    held: &mut Held,
    flags: u16,
    size: u32,
    handle: &mut u16,
) -> u8
    ensures { WordCalls held.old (command_of (calls.GlobalAlloc (record { 0 = flags }) size)) result handle.old handle.new held.new }
{
    let flags = GlobalAllocFlags(flags);
    word(alloc, held, &Call::GlobalAlloc { flags, size }, handle)
}

/// `GlobalFree`: frees an object that isn't locked. It answers 0, or else the handle.
#[unsafe(no_mangle)]
pub extern "C" fn w16_global_free(alloc: Global, held: &mut Held, handle: u16, left: &mut u16) -> u8
    ensures { WordCalls held.old (command_of (calls.GlobalFree handle)) result left.old left.new held.new }
{
    word(alloc, held, &Call::GlobalFree { handle }, left)
}

/// `GlobalLock`: one lock more, and a far pointer to the object's first byte; 0 where it can't be locked.
#[unsafe(no_mangle)]
pub extern "C" fn w16_global_lock(
    alloc: Global,
    held: &mut Held,
    handle: u16,
    pointer: &mut u32,
) -> u8
    ensures { DwordCalls held.old (command_of (calls.GlobalLock handle)) result pointer.old pointer.new held.new }
{
    dword(alloc, held, &Call::GlobalLock { handle }, pointer)
}

/// `GlobalUnlock`: one lock less. It answers 1 where locks are left, else 0.
#[unsafe(no_mangle)]
pub extern "C" fn w16_global_unlock(
    alloc: Global,
    held: &mut Held,
    handle: u16,
    left: &mut u16,
) -> u8
    ensures { WordCalls held.old (command_of (calls.GlobalUnlock handle)) result left.old left.new held.new }
{
    word(alloc, held, &Call::GlobalUnlock { handle }, left)
}

/// `GlobalCompact`: makes a hole of that many bytes, if it can, and answers the longest one. For a size of 0 it only asks how long one could be.
#[unsafe(no_mangle)]
pub extern "C" fn w16_global_compact(
    alloc: Global,
    held: &mut Held,
    size: u32,
    longest: &mut u32,
) -> u8
    ensures { DwordCalls held.old (command_of (calls.GlobalCompact size)) result longest.old longest.new held.new }
{
    dword(alloc, held, &Call::GlobalCompact { size }, longest)
}

/// `GlobalReAlloc`: another size in bytes, or another kind. It answers the handle, which may be another one then, or 0.
#[unsafe(no_mangle)]
pub extern "C" fn w16_global_realloc(
    alloc: Global,
    held: &mut Held,
    handle: u16,
    size: u32,
    flags: u16,
    same: &mut u16,
) -> u8
    ensures { WordCalls held.old (command_of (calls.GlobalReAlloc handle size (record { 0 = flags }))) result same.old same.new held.new }
{
    word(
        alloc,
        held,
        &Call::GlobalReAlloc {
            handle,
            size,
            flags: GlobalReAllocFlags(flags),
        },
        same,
    )
}

/// `GlobalDiscard`: takes the bytes of a discardable object that isn't locked. It answers the handle, or 0.
#[unsafe(no_mangle)]
pub extern "C" fn w16_global_discard(
    alloc: Global,
    held: &mut Held,
    handle: u16,
    same: &mut u16,
) -> u8
    ensures { WordCalls held.old (command_of (calls.GlobalDiscard handle)) result same.old same.new held.new }
{
    word(alloc, held, &Call::GlobalDiscard { handle }, same)
}

/// `GlobalLRUNewest`: a discardable object becomes the last to be discarded. It answers the handle, or 0.
#[unsafe(no_mangle)]
pub extern "C" fn w16_global_lru_newest(
    alloc: Global,
    held: &mut Held,
    handle: u16,
    same: &mut u16,
) -> u8
    ensures { WordCalls held.old (command_of (calls.GlobalLRUNewest handle)) result same.old same.new held.new }
{
    word(alloc, held, &Call::GlobalLRUNewest { handle }, same)
}

/// `GlobalLRUOldest`: a discardable object becomes the first to be discarded. It answers the handle, or 0.
#[unsafe(no_mangle)]
pub extern "C" fn w16_global_lru_oldest(
    alloc: Global,
    held: &mut Held,
    handle: u16,
    same: &mut u16,
) -> u8
    ensures { WordCalls held.old (command_of (calls.GlobalLRUOldest handle)) result same.old same.new held.new }
{
    word(alloc, held, &Call::GlobalLRUOldest { handle }, same)
}

/// `GlobalSize`: an object's size in bytes, or 0.
#[unsafe(no_mangle)]
pub extern "C" fn w16_global_size(alloc: Global, held: &mut Held, handle: u16, size: &mut u32) -> u8
    ensures { DwordCalls held.old (command_of (calls.GlobalSize handle)) result size.old size.new held.new }
{
    let Some(kernel) = taken(held, alloc) else {
        return NO_MACHINE;
    };
    *size = kernel.global_size(handle);
    put_back(held, alloc, kernel);
    DONE
}

/// `GlobalFlags`: an object's flags and its lock count, or 0.
#[unsafe(no_mangle)]
pub extern "C" fn w16_global_flags(
    alloc: Global,
    held: &mut Held,
    handle: u16,
    flags: &mut u16,
) -> u8
    ensures { WordCalls held.old (command_of (calls.GlobalFlags handle)) result flags.old flags.new held.new }
{
    let Some(kernel) = taken(held, alloc) else {
        return NO_MACHINE;
    };
    *flags = kernel.global_flags(handle);
    put_back(held, alloc, kernel);
    DONE
}

/// `GlobalHandle`: a selector in the high word and its object's handle in the low one, or 0.
#[unsafe(no_mangle)]
pub extern "C" fn w16_global_handle(
    alloc: Global,
    held: &mut Held,
    selector: u16,
    both: &mut u32,
) -> u8
    ensures { DwordCalls held.old (command_of (calls.GlobalHandle selector)) result both.old both.new held.new }
{
    let Some(kernel) = taken(held, alloc) else {
        return NO_MACHINE;
    };
    *both = kernel.global_handle(selector);
    put_back(held, alloc, kernel);
    DONE
}

/// `GetSelectorBase`: the address where the selector's object stands, or 0.
#[unsafe(no_mangle)]
pub extern "C" fn w16_get_selector_base(
    alloc: Global,
    held: &mut Held,
    selector: u16,
    base: &mut u32,
) -> u8
    ensures { DwordCalls held.old (command_of (calls.GetSelectorBase selector)) result base.old base.new held.new }
{
    let Some(kernel) = taken(held, alloc) else {
        return NO_MACHINE;
    };
    *base = kernel.selector_base(selector);
    put_back(held, alloc, kernel);
    DONE
}

/// `GetSelectorLimit`: the offset of the last byte of the selector's object, or 0.
#[unsafe(no_mangle)]
pub extern "C" fn w16_get_selector_limit(
    alloc: Global,
    held: &mut Held,
    selector: u16,
    limit: &mut u32,
) -> u8
    ensures { DwordCalls held.old (command_of (calls.GetSelectorLimit selector)) result limit.old limit.new held.new }
{
    let Some(kernel) = taken(held, alloc) else {
        return NO_MACHINE;
    };
    *limit = kernel.selector_limit(selector);
    put_back(held, alloc, kernel);
    DONE
}

/// `Moved`: how many bytes the last call for room moved.
#[unsafe(no_mangle)]
pub extern "C" fn w16_moved(alloc: Global, held: &mut Held, bytes: &mut u32) -> u8
    ensures { DwordCalls held.old (command_of calls.Moved) result bytes.old bytes.new held.new }
{
    let Some(kernel) = taken(held, alloc) else {
        return NO_MACHINE;
    };
    *bytes = kernel.moved();
    put_back(held, alloc, kernel);
    DONE
}
