//! Far accesses, which fetch the objects of modules that they meet without bytes.
ghost use Rattle.std.specs.Prelude.{◌≡◌, ◌<◌, ◌≤◌, ◌/◌, All, length, IfErr, IfNone, IfSome, OnErr, OnOk, None};
ghost use Rattle.std.specs.FinMap as finmap;
ghost use Rattle.w16_model.specs.Commands.Family.{OfFar};
ghost use Rattle.w16_model.specs.Commands.Command.{Read};
ghost use Rattle.w16_model.specs.Owned.{owned_at};
ghost use Rattle.w16_model.specs.declared.FarFault.TheVariants.{NotPresent};
ghost use Rattle.w16_global.specs.Owned.{LacksBytes};
ghost use Rattle.w16_global.specs.Loans.{IsPlaceIn, lent_bytes, with_bytes_there};
ghost use Rattle.w16_loading.specs.Law.{IsLoadingWorld};
ghost use Rattle.w16_loading.specs.Modules.{LoadingWorld, with_handles};
ghost use Rattle.w16_format.specs.Ne.{ne_format};
ghost use Rattle.w16_loader.specs.Fetching.{fault_in};
ghost use Rattle.w16_loader.specs.Registry.{in_world};
ghost use Rattle.w16_machine.specs.Machine.{Step};
ghost use Rattle.w16_kernel.specs.Fetching.{IsAbsent, IsSourceFor, KernelFetch, Refetches};
ghost use Rattle.w16_kernel.specs.Lent.{FindsPlace, FindsPlaceOnce, IsFarFault};
ghost use Rattle.w16_kernel.specs.Parts.{IsWorldOver};
ghost use Rattle.w16_resource.specs.Parts.{IsLoadingOver};
ghost use Rattle.w16_kernel.specs.Runs.{IsReply, bytes_written, reply_of, write_of};
ghost use Rattle.w16_loading.specs.Families.AnyCommand.{any};

use crate::call::Reply;
use crate::parts::{Parts, sweep_all};
use std::alloc::Allocator;
use w16_global::Place;
use w16_loader::{Registry, SegmentSource, fetch};
use w16_loading::FetchFault;
use w16_machine::access::MOST_READ;
use w16_model::FarFault;
use w16_model::names::{offset_in, selector_in, slot_of};
use w16_resource::Loading;
use w16_store::{Store, reveal_bytes};

/// Where the bytes of the object in a slot come from, in which no resource is; none where it is no module's segment.
fn segment_source<A: Allocator + Copy>(
    registry: &Registry<A>,
    slot: u16,
) -> Option<SegmentSource<'_, A>>
    ensures found { IfSome result (λ source. (rest : LoadingWorld) → IsLoadingWorld (in_world rest registry.now) → finmap.get rest.loads slot ≡ None
        → IsSourceFor (in_world rest registry.now) slot source) }
    ensures none { IfNone result ((rest : LoadingWorld) → IsLoadingWorld (in_world rest registry.now) → finmap.get rest.loads slot ≡ None → owned_at rest.handles slot ≡ None) }
{
    let place = registry.segment_of(slot)?;
    let loaded = registry.module(place.handle)?;
    Some(loaded.source(place.number))
}

/// Fetches the object that a handle names, which has no bytes, and in which a module's segment is. An error is why it got none.
fn fetch_segment<S: Store + Drop, A: Allocator + Copy>(
    loading: &mut Loading<S, A>,
    handle: u16,
) -> Result<(), FetchFault>
    requires loading { IsLoadingOver S.is_honest loading.old }
    requires lacks { LacksBytes loading.old.handles handle }
    requires segment { finmap.get loading.old.loads (handle / 8) ≡ None }
    ensures fetch { KernelFetch S.is_honest loading.old (handle / 8) (fault_in result) loading.new }
    ensures refused { OnErr result (loading.new.handles ≡ loading.old.handles) }
{
    let Some(source) = segment_source(&loading.registry, slot_of(handle)) else {
        unreachable!();
    };
    fetch(
        &source,
        &mut loading.global,
        &mut loading.store,
        &mut loading.scratch,
        handle,
    )
}

/// Fetches the object that a handle names, which has no bytes, and in which a segment or a resource of a module is. An error is why it got none.
fn fetch_owned<S: Store + Drop, A: Allocator + Copy>(
    loading: &mut Loading<S, A>,
    handle: u16,
) -> Result<(), FetchFault>
    requires loading { IsLoadingOver S.is_honest loading.old }
    requires lacks { LacksBytes loading.old.handles handle }
    ensures fetch { KernelFetch S.is_honest loading.old (handle / 8) (fault_in result) loading.new }
    ensures refused { OnErr result (loading.new.handles ≡ loading.old.handles) }
{
    if !loading.resources.owns(slot_of(handle)) {
        return fetch_segment(loading, handle);
    }
    loading.fetch_resource(handle)
}

/// Fetches the object that a selector leads to, which has no bytes, where a segment or a resource of a module is in it. An error is the reply of the
/// access that met it: that it isn't present where it is no module's, or why it got no bytes.
fn fetch_selected<S: Store + Drop, A: Allocator + Copy>(
    loading: &mut Loading<S, A>,
    selector: u16,
) -> Result<(), Reply<'static>>
    requires loading { IsLoadingOver S.is_honest loading.old }
    requires absent { IsAbsent loading.old.handles selector }
    ensures fetches { Refetches S.is_honest loading.old selector NotPresent result loading.new }
    ensures fault { IfErr result (λ reply. IsFarFault (reply_of reply)) }
{
    // The low word is the object's handle.
    let handle = offset_in(loading.global.global_handle(selector));
    if !loading.global.is_owned(slot_of(handle)) {
        return Err(Reply::Fault(FarFault::NotPresent));
    }
    match fetch_owned(loading, handle) {
        Ok(()) => Ok(()),
        Err(failed) => Err(Reply::Failed(failed)),
    }
}

/// Fetches the object that a selector leads to, where an access met that it has no bytes, and a segment or a resource of a module is in it:
/// then the access is to be made again. Else an error is the access's reply: the fault that it met, or why the object got no bytes.
#[inline(never)]
fn fetch_absent<S: Store + Drop, A: Allocator + Copy>(
    loading: &mut Loading<S, A>,
    selector: u16,
    fault: FarFault,
) -> Result<(), Reply<'static>>
    requires loading { IsLoadingOver S.is_honest loading.old }
    requires absent { fault ≡ NotPresent → IsAbsent loading.old.handles selector }
    ensures fetches { Refetches S.is_honest loading.old selector fault result loading.new }
    ensures fault { IfErr result (λ reply. IsFarFault (reply_of reply)) }
{
    match fault {
        FarFault::NotPresent => fetch_selected(loading, selector),
        _ => Err(Reply::Fault(fault)),
    }
}

/// A far access that fetches nothing: where the bytes are.
fn find_once<S: Store + Drop, A: Allocator + Copy>(
    loading: &mut Loading<S, A>,
    pointer: u32,
    count: usize,
    write: bool,
) -> Result<Place, FarFault>
    ensures once { FindsPlaceOnce loading.old.handles write pointer count result loading.new.handles }
    ensures kept { OnErr result (loading.new ≡ loading.old) }
    ensures rest { loading.new ≡ with_handles loading.old loading.new.handles }
{
    loading
        .global
        .far_place(selector_in(pointer), offset_in(pointer), count, write)
}

/// A far access to bytes that are to be read, or to be written, with what it fetches: where they are, or its reply where there is none.
pub fn find<S: Store + Drop, A: Allocator + Copy>(
    parts: &mut Parts<S, A>,
    pointer: u32,
    count: usize,
    write: bool,
) -> Result<Place, Reply<'static>>
    requires { IsWorldOver S.is_honest parts.old }
    ensures found { FindsPlace S.is_honest parts.old write pointer count result parts.new }
    ensures short { IfErr result (λ reply. IsReply reply) }
    ensures fault { IfErr result (λ reply. IsFarFault (reply_of reply)) }
{
    match find_once(&mut parts.loading, pointer, count, write) {
        Ok(place) => Ok(place),
        Err(fault) => {
            if let Err(reply) = fetch_absent(&mut parts.loading, selector_in(pointer), fault) {
                return Err(reply);
            }
            let again = find_once(&mut parts.loading, pointer, count, write);
            sweep_all(parts);
            match again {
                Ok(place) => Ok(place),
                Err(fault) => Err(Reply::Fault(fault)),
            }
        }
    }
}

/// Copies the bytes at a place into a room for just as many.
fn copy_found<S: Store + Drop, A: Allocator + Copy>(
    loading: &Loading<S, A>,
    place: Place,
    room: &mut [u8],
)
    requires there { IsPlaceIn loading.now.handles place }
    requires long { length room.old ≡ place.count }
    ensures { room.new ≡ lent_bytes loading.now.handles place }
{
    room.copy_from_slice(loading.global.bytes(place));
}

/// The reply to a far read of as many bytes as the room has, into which they are copied.
pub fn read<'r, S: Store + Drop, A: Allocator + Copy>(
    parts: &mut Parts<S, A>,
    pointer: u32,
    room: &'r mut [u8],
) -> Reply<'r>
    requires { IsWorldOver S.is_honest parts.old }
    ensures step { Step S.is_honest ne_format parts.old (any _ (Read pointer (length room.old))) (reply_of result) parts.new }
    ensures short { length room.old ≤ MOST_READ → IsReply result }
{
    let place = match find(parts, pointer, room.len(), false) {
        Ok(place) => place,
        Err(reply) => return reply,
    };
    copy_found(&parts.loading, place, room);
    Reply::Bytes(room)
}

/// Bytes that a far access writes.
#[derive(Clone, Copy)]
pub enum Written<'a> {
    Bytes(&'a [u8]),
    /// One byte many times.
    Repeated { count: u32, byte: u8 },
}

/// How many bytes are written.
fn count_of(written: Written<'_>) -> usize
    ensures { result ≡ length (bytes_written written.entry) }
{
    match written {
        Written::Bytes(bytes) => bytes.len(),
        Written::Repeated { count, byte: _ } => count as usize,
    }
}

/// Writes them into just as many.
fn put(written: Written<'_>, into: &mut [u8])
    requires { length into.old ≡ length (bytes_written written) }
    ensures value { into.new ≡ bytes_written written.entry }
    ensures bytes { All (λ b. b < 256) into.new }
{
    match written {
        Written::Bytes(bytes) => {
            into.copy_from_slice(bytes);
            reveal_bytes(into);
        }
        Written::Repeated { count: _, byte } => {
            into.fill(byte);
            reveal_bytes(into);
        }
    }
}

/// Writes over the bytes at a place.
fn write_found<S: Store + Drop, A: Allocator + Copy>(
    loading: &mut Loading<S, A>,
    place: Place,
    written: Written<'_>,
)
    requires there { IsPlaceIn loading.old.handles place }
    requires long { length (bytes_written written) ≡ place.count }
    ensures { loading.new ≡ with_handles loading.old (with_bytes_there loading.old.handles place (bytes_written written.entry)) }
{
    put(written, loading.global.bytes_mut(place));
}

/// The reply to a far write.
pub fn write<S: Store + Drop, A: Allocator + Copy>(
    parts: &mut Parts<S, A>,
    pointer: u32,
    written: Written<'_>,
) -> Reply<'static>
    requires { IsWorldOver S.is_honest parts.old }
    ensures step { Step S.is_honest ne_format parts.old (any OfFar (write_of pointer written.entry)) (reply_of result) parts.new }
    ensures short { IsReply result }
{
    let place = match find(parts, pointer, count_of(written), true) {
        Ok(place) => place,
        Err(reply) => return reply,
    };
    write_found(&mut parts.loading, place, written);
    Reply::Done
}
