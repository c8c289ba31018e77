//! One step of the machine over its parts.
ghost use Rattle.std.specs.Prelude.{◌≡◌, ◌<◌, List, length, IfOk, OnOk, OnErr};
ghost use Rattle.w16_model.specs.Handles.{handle_of};
ghost use Rattle.w16_model.specs.Walk.{IsWalk};
ghost use Rattle.w16_resource.specs.Parts.{IsLoadingOver};
ghost use Rattle.w16_local.specs.Parts.{with_parts};
ghost use Rattle.w16_machine.specs.World.{World};
ghost use Rattle.w16_machine.specs.Law.{IsOfLocals, IsSame};
ghost use Rattle.w16_loading.specs.Law.{IsCommand};
ghost use Rattle.w16_kernel.specs.Made.{IsMade};
ghost use Rattle.w16_kernel.specs.Runs.{command_of, reply_of, HasRoom, IsCall, IsReply, TakesMemory};
ghost use Rattle.w16_kernel.specs.Parts as meaning;
ghost use Rattle.w16_kernel.specs.Parts.{IsOfModules, IsOnGlobal, IsSameLoading, IsWorldOver, KernelStep, OnGlobal, OnLocals, OnModules, OthersStay, Unswept, with_surviving};

use crate::call::{Call, Reply};
use crate::far::{Written, read, write};
use crate::load::{free_module, load_reply, proc_address};
use crate::parts::{Parts, refresh, sweep_all, sweep_slot};
use crate::resource::{find_resource, load_resource, lock_resource};
use std::alloc::{AllocError, Allocator};
use w16_global::Global16;
use w16_local::LocalHeaps;
use w16_model::Item;
use w16_resource::{Loading, size_of_resource};
use w16_store::{Store, reveal_bytes};

/// How many parts the heap's walk has.
fn part_count<A: Allocator + Copy>(global: &Global16<A>) -> u32
    ensures { (items : List Item) × IsWalk handle_of global.now.handles.heap items × (result ≡ length items) }
{
    global.reveal_handles();
    global.walk_len()
}

/// How many discardable objects with bytes there are beside that in a slot.
fn discardable_beside<S: Store + Drop, A: Allocator + Copy>(
    parts: &Parts<S, A>,
    slot: Option<u16>,
) -> usize
    ensures { result ≡ meaning.discardable_beside slot parts.now.loading.handles.heap }
{
    match slot {
        Some(slot) => parts.loading.global.discardable_beside(slot),
        None => 0,
    }
}

/// Tells that a byte is one.
fn reveal_byte(byte: u8)
    ensures { byte < 256 }
{}

/// Takes away the local heaps whose segments a call may have taken bytes of. Where the slot of its object is known, and as many discardable
/// objects are left beside this one as before, the call has discarded no other, and only the heap in this slot may have to go.
fn sweep<S: Store + Drop, A: Allocator + Copy>(
    parts: &mut Parts<S, A>,
    call: &Call<'_>,
    slot: Option<u16>,
    before: usize,
)
    requires { OthersStay slot before parts.old }
    ensures { parts.new ≡ with_surviving parts.old (command_of call.now) }
{
    if !call.may_take_bytes() {
        return;
    }
    if let Some(slot) = slot {
        if before <= discardable_beside(parts, Some(slot)) {
            sweep_slot(parts, slot);
            return;
        }
    }
    sweep_all(parts);
}

/// The reply to a call on handles.
#[inline(always)]
fn handles_reply<A: Allocator + Copy>(global: &mut Global16<A>, call: &Call<'_>) -> Reply<'static>
    requires { IsOnGlobal (command_of call.now) }
    ensures gives { OnGlobal global.old.handles (command_of call.now) (reply_of result) global.new.handles }
    ensures short { IsReply result }
{
    use Call::*;
    match *call {
        GlobalAlloc { flags, size } => Reply::Word(global.global_alloc(flags, size)),
        GlobalFree { handle } => Reply::Word(global.global_free(handle)),
        GlobalLock { handle } => Reply::Dword(global.global_lock(handle)),
        GlobalUnlock { handle } => Reply::Word(global.global_unlock(handle)),
        GlobalSize { handle } => Reply::Dword(global.global_size(handle)),
        GlobalFlags { handle } => Reply::Word(global.global_flags(handle)),
        GlobalHandle { selector } => Reply::Dword(global.global_handle(selector)),
        GetSelectorBase { selector } => Reply::Dword(global.get_selector_base(selector)),
        GetSelectorLimit { selector } => Reply::Dword(global.get_selector_limit(selector)),
        GlobalCompact { size } => Reply::Dword(global.global_compact(size)),
        GlobalReAlloc {
            handle,
            size,
            flags,
        } => Reply::Word(global.global_realloc(handle, size, flags)),
        GlobalDiscard { handle } => Reply::Word(global.global_discard(handle)),
        GlobalLRUNewest { handle } => Reply::Word(global.global_lru_newest(handle)),
        GlobalLRUOldest { handle } => Reply::Word(global.global_lru_oldest(handle)),
        Moved => Reply::Dword(global.moved() as u32),
        Walk => Reply::Walk(part_count(global)),
        _ => unreachable!(),
    }
}

/// The reply to a call on local heaps, in whatever world has these parts.
#[inline(never)]
fn local_reply<A: Allocator + Copy>(
    locals: &mut LocalHeaps<A>,
    global: &mut Global16<A>,
    ds: &mut u16,
    call: &Call<'_>,
) -> Result<Reply<'static>, AllocError>
    requires { IsOfLocals (command_of call.now) }
    ensures step { IfOk result (λ reply. (rest : World) → OnLocals (with_parts rest global.old.handles locals.old ds.old) (command_of call.now) (reply_of reply)
        (with_parts rest global.new.handles locals.new ds.new)) }
    ensures short { IfOk result (λ reply. IsReply reply) }
    ensures wanted { OnErr result ((rest : World) → TakesMemory (with_parts rest global.old.handles locals.old ds.old) (command_of call.now)) }
    ensures refused { OnErr result ((global.new ≡ global.old) × (locals.new ≡ locals.old) × (ds.new ≡ ds.old)) }
{
    use Call::*;
    match *call {
        LocalInit {
            selector,
            start,
            end,
        } => Ok(Reply::Word(locals.local_init(global, *ds, selector, start, end)?)),
        LocalAlloc { flags, size } => Ok(Reply::Word(locals.local_alloc(global, *ds, flags, size))),
        LocalReAlloc { name, size, flags } => Ok(Reply::Word(locals.local_realloc(
            global, *ds, name, size, flags,
        ))),
        LocalDiscard { name } => Ok(Reply::Word(locals.local_discard(global, *ds, name))),
        LocalFree { name } => Ok(Reply::Word(locals.local_free(global, *ds, name))),
        LocalLock { name } => Ok(Reply::Word(locals.local_lock(global, *ds, name))),
        LocalUnlock { name } => Ok(Reply::Word(locals.local_unlock(global, *ds, name))),
        LocalSize { name } => Ok(Reply::Word(locals.local_size(global, *ds, name))),
        LocalFlags { name } => Ok(Reply::Word(locals.local_flags(global, *ds, name))),
        LocalHandle { pointer } => Ok(Reply::Word(locals.local_handle(global, *ds, pointer))),
        LocalCompact { size } => Ok(Reply::Word(locals.local_compact(global, *ds, size))),
        DS { selector } => {
            *ds = selector;
            Ok(Reply::Done)
        }
        _ => unreachable!(),
    }
}

/// The reply to a call on modules or resources.
#[inline(never)]
fn module_reply<S: Store + Drop, A: Allocator + Copy>(
    loading: &mut Loading<S, A>,
    call: &Call<'_>,
) -> Result<Reply<'static>, AllocError>
    requires loading { IsLoadingOver S.is_honest loading.old }
    requires call { IsOfModules (command_of call.now) }
    ensures step { IfOk result (λ reply. OnModules S.is_honest loading.old (command_of call.now) (reply_of reply) loading.new) }
    ensures short { IfOk result (λ reply. IsReply reply) }
    ensures wanted { OnErr result ((w : World) → TakesMemory w (command_of call.now)) }
    ensures refused { OnErr result (IsSameLoading loading.old loading.new) }
{
    use Call::*;
    match *call {
        Builtin { name } => Ok(Reply::Word(loading.registry.builtin(name)?)),
        LoadModule { file } => load_reply(loading, file, true),
        LoadLibrary { file } => load_reply(loading, file, false),
        FreeLibrary { handle } => Ok(Reply::Word(free_module(loading, handle))),
        FreeModule { handle } => Ok(Reply::Word(free_module(loading, handle))),
        GetModuleHandle { name } => Ok(Reply::Word(loading.registry.handle_of(name).unwrap_or(0))),
        GetModuleUsage { handle } => Ok(Reply::Word(loading.registry.usage(handle))),
        GetProcAddress { handle, label } => Ok(Reply::Dword(proc_address(
            &loading.registry,
            handle,
            label,
        ))),
        FindResource { handle, name, kind } => {
            Ok(Reply::Word(find_resource(&loading.registry, handle, name, kind)))
        }
        LoadResource { handle, place } => Ok(load_resource(loading, handle, place)),
        LockResource { handle } => Ok(lock_resource(loading, handle)),
        FreeResource { handle } => Ok(Reply::Word(loading.free_resource(handle))),
        SizeofResource { handle, place } => {
            Ok(Reply::Dword(size_of_resource(&loading.registry, handle, place)))
        }
        _ => unreachable!(),
    }
}

/// One step, before local heaps are swept: far accesses sweep them themselves. Bytes that are read are put into the room. An error is that there
/// was no memory for a new local heap, a built-in or a load, and the world is the same.
#[inline(always)]
fn step<'r, S: Store + Drop, A: Allocator + Copy>(
    parts: &mut Parts<S, A>,
    call: &Call<'_>,
    room: &'r mut [u8],
) -> Result<Reply<'r>, AllocError>
    requires world { IsWorldOver S.is_honest parts.old }
    requires call { IsCall call.now }
    requires room { HasRoom call.now (length room.old) }
    ensures step { IfOk result (λ reply. Unswept S.is_honest parts.old (command_of call.now) (reply_of reply) parts.new) }
    ensures ranged { OnOk result (IsCommand (command_of call.now)) }
    ensures short { IfOk result (λ reply. IsReply reply) }
    ensures wanted { OnErr result (TakesMemory parts.old (command_of call.now)) }
    ensures refused { OnErr result (IsSame parts.old parts.new) }
{
    use Call::*;
    match *call {
        Read { pointer, count } => Ok(read(parts, pointer, &mut room[..count as usize])),
        Write { pointer, bytes } => {
            reveal_bytes(bytes);
            Ok(write(parts, pointer, Written::Bytes(bytes)))
        }
        Fill {
            pointer,
            count,
            byte,
        } => {
            reveal_byte(byte);
            Ok(write(parts, pointer, Written::Repeated { count, byte }))
        }
        LocalInit { .. }
        | LocalAlloc { .. }
        | LocalReAlloc { .. }
        | LocalDiscard { .. }
        | LocalFree { .. }
        | LocalLock { .. }
        | LocalUnlock { .. }
        | LocalSize { .. }
        | LocalFlags { .. }
        | LocalHandle { .. }
        | LocalCompact { .. }
        | DS { .. } => {
            let loading = &mut parts.loading;
            local_reply(&mut parts.locals, &mut loading.global, &mut parts.ds, call)
        }
        Builtin { .. }
        | LoadModule { .. }
        | LoadLibrary { .. }
        | FreeLibrary { .. }
        | FreeModule { .. }
        | GetModuleHandle { .. }
        | GetModuleUsage { .. }
        | GetProcAddress { .. }
        | FindResource { .. }
        | LoadResource { .. }
        | LockResource { .. }
        | FreeResource { .. }
        | SizeofResource { .. } => module_reply(&mut parts.loading, call),
        _ => Ok(handles_reply(&mut parts.loading.global, call)),
    }
}

/// One step of the machine, as `Kernel::call` tells it, with as much room as it needs.
#[inline(always)]
pub fn made<'r, S: Store + Drop, A: Allocator + Copy>(
    parts: &mut Parts<S, A>,
    call: &Call<'_>,
    room: &'r mut [u8],
) -> Result<Reply<'r>, AllocError>
    requires world { IsWorldOver S.is_honest parts.old }
    requires call { IsCall call.now }
    requires room { HasRoom call.now (length room.old) }
    ensures world { IsWorldOver S.is_honest parts.new }
    ensures made { IsMade (KernelStep S.is_honest) parts.old call.now result parts.new }
{
    refresh(parts);
    let before = discardable_beside(parts, call.object_slot(0));
    let reply = step(parts, call, room)?;
    let slot = call.object_slot(reply.word());
    sweep(parts, call, slot, before);
    Ok(reply)
}
