//! Calls on local heaps. Each answers a status, and its answer goes out where that is `DONE`.
ghost use Rattle.w16_loading.specs.Replies as replies;
ghost use Rattle.w16_kernel.specs.Runs.{command_of};
ghost use Rattle.w16_kernel.specs.declared.call.Call.TheVariants as calls;
ghost use Rattle.w16_c.specs.Makes.{WordCalls, FarCalls};

use crate::asked::{done, word};
use crate::held::Held;
use std::alloc::Global;
use w16_kernel::{Call, LocalAllocFlags, LocalReAllocFlags};

/// `LocalInit`: begins a local heap in the bytes from `start` up to `end` of the selector's object, or of that of DS where the selector is 0. It
/// answers 1, or 0. `NO_MEMORY` is for want of the host's memory for the heap's entries.
#[unsafe(no_mangle)]
pub extern "C" fn w16_local_init(
    alloc: Global,
    held: &mut Held,
    selector: u16,
    start: u16,
    end: u32,
    begun: &mut u16,
) -> u8
    ensures { WordCalls held.old (command_of (calls.LocalInit selector start end)) result begun.old begun.new held.new }
{
    word(
        alloc,
        held,
        &Call::LocalInit {
            selector,
            start,
            end,
        },
        begun,
    )
}

/// `DS`: from now on the Local calls act in the heap in this selector's object.
#[unsafe(no_mangle)]
pub extern "C" fn w16_ds(alloc: Global, held: &mut Held, selector: u16) -> u8
    ensures { FarCalls held.old (command_of (calls.DS selector)) result replies.Reply.Done held.new }
{
    done(alloc, held, &Call::DS { selector })
}

/// `LocalAlloc`: a new object of that many bytes in the heap of DS, and its name, or 0.
#[unsafe(no_mangle)]
pub extern "C" fn w16_local_alloc(
    alloc: Global,
    held: &mut Held,
    flags: u16,
    size: u16,
    name: &mut u16,
) -> u8
    ensures { WordCalls held.old (command_of (calls.LocalAlloc (record { 0 = flags }) size)) result name.old name.new held.new }
{
    let flags = LocalAllocFlags(flags);
    word(alloc, held, &Call::LocalAlloc { flags, size }, name)
}

/// `LocalReAlloc`: another size in bytes, or another kind. It answers the name, which may be another, or 0.
#[unsafe(no_mangle)]
pub extern "C" fn w16_local_realloc(
    alloc: Global,
    held: &mut Held,
    name: u16,
    size: u16,
    flags: u16,
    now: &mut u16,
) -> u8
    ensures { WordCalls held.old (command_of (calls.LocalReAlloc name size (record { 0 = flags }))) result now.old now.new held.new }
{
    let flags = LocalReAllocFlags(flags);
    word(alloc, held, &Call::LocalReAlloc { name, size, flags }, now)
}

/// `LocalDiscard`: takes the bytes of a discardable object that isn't locked. It answers the name, or 0.
#[unsafe(no_mangle)]
pub extern "C" fn w16_local_discard(alloc: Global, held: &mut Held, name: u16, same: &mut u16) -> u8
    ensures { WordCalls held.old (command_of (calls.LocalDiscard name)) result same.old same.new held.new }
{
    word(alloc, held, &Call::LocalDiscard { name }, same)
}

/// `LocalFree`: frees an object that isn't locked. It answers 0, or else the name.
#[unsafe(no_mangle)]
pub extern "C" fn w16_local_free(alloc: Global, held: &mut Held, name: u16, left: &mut u16) -> u8
    ensures { WordCalls held.old (command_of (calls.LocalFree name)) result left.old left.new held.new }
{
    word(alloc, held, &Call::LocalFree { name }, left)
}

/// `LocalLock`: one lock more, and the object's near pointer; 0 where it can't be locked.
#[unsafe(no_mangle)]
pub extern "C" fn w16_local_lock(alloc: Global, held: &mut Held, name: u16, pointer: &mut u16) -> u8
    ensures { WordCalls held.old (command_of (calls.LocalLock name)) result pointer.old pointer.new held.new }
{
    word(alloc, held, &Call::LocalLock { name }, pointer)
}

/// `LocalUnlock`: one lock less. It answers 1 where locks are left, else 0.
#[unsafe(no_mangle)]
pub extern "C" fn w16_local_unlock(alloc: Global, held: &mut Held, name: u16, left: &mut u16) -> u8
    ensures { WordCalls held.old (command_of (calls.LocalUnlock name)) result left.old left.new held.new }
{
    word(alloc, held, &Call::LocalUnlock { name }, left)
}

/// `LocalSize`: an object's size in bytes, or 0.
#[unsafe(no_mangle)]
pub extern "C" fn w16_local_size(alloc: Global, held: &mut Held, name: u16, size: &mut u16) -> u8
    ensures { WordCalls held.old (command_of (calls.LocalSize name)) result size.old size.new held.new }
{
    word(alloc, held, &Call::LocalSize { name }, size)
}

/// `LocalFlags`: an object's flags and its lock count, or 0.
#[unsafe(no_mangle)]
pub extern "C" fn w16_local_flags(alloc: Global, held: &mut Held, name: u16, flags: &mut u16) -> u8
    ensures { WordCalls held.old (command_of (calls.LocalFlags name)) result flags.old flags.new held.new }
{
    word(alloc, held, &Call::LocalFlags { name }, flags)
}

/// `LocalHandle`: the name of the object that begins at a near pointer, or 0.
#[unsafe(no_mangle)]
pub extern "C" fn w16_local_handle(
    alloc: Global,
    held: &mut Held,
    pointer: u16,
    name: &mut u16,
) -> u8
    ensures { WordCalls held.old (command_of (calls.LocalHandle pointer)) result name.old name.new held.new }
{
    word(alloc, held, &Call::LocalHandle { pointer }, name)
}

/// `LocalCompact`: as `GlobalCompact`, inside the heap of DS.
#[unsafe(no_mangle)]
pub extern "C" fn w16_local_compact(
    alloc: Global,
    held: &mut Held,
    size: u16,
    longest: &mut u16,
) -> u8
    ensures { WordCalls held.old (command_of (calls.LocalCompact size)) result longest.old longest.new held.new }
{
    word(alloc, held, &Call::LocalCompact { size }, longest)
}
