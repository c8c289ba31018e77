//! Objects of one local heap, by name and by near pointer.
ghost use Rattle.std.specs.Prelude.{◌≡◌, if◌then◌else◌, ℕ, List, Some, is_ok, is_some, not, length, option_map, unwrap_or};
ghost use Rattle.w16_model.specs.Calls.{locks_at};
ghost use Rattle.w16_model.specs.Heap.{bytes_at, object_at};
ghost use Rattle.w16_model.specs.OneObject.{after_discard, after_free};
ghost use Rattle.w16_model.specs.Table.{block_with, heap_in};
ghost use Rattle.w16_machine.specs.Local as local;
ghost use Rattle.w16_machine.specs.Local.{IsLocalTable};
ghost use Rattle.w16_machine.specs.LocalCalls as calls;
ghost use Rattle.w16_local.specs.Parts.{IsOver};

use std::alloc::Allocator;
use w16_arena::Arena;
use w16_holes::SideHoles;
use w16_machine::local::{LMEM_DISCARDABLE, LMEM_DISCARDED};
use w16_model::bit_if;

/// The object that begins at a near pointer, if one does.
pub(crate) fn id_at<A: Allocator + Copy>(heap: &Arena<SideHoles<A>>, pointer: u16) -> Option<u32>
    ensures { (bytes : List ℕ) → IsOver heap.now.table bytes → local.id_at (heap_in heap.now.table bytes) pointer ≡ result }
{
    let block = heap.block_beginning_at(pointer as u32)?;
    Some(block.id)
}

/// What an object is called: a fixed one by its near pointer, any other by its entry.
pub(crate) fn name_at<A: Allocator + Copy>(heap: &Arena<SideHoles<A>>, id: u32) -> Option<u16>
    requires { IsLocalTable heap.now.table }
    ensures { (bytes : List ℕ) → IsOver heap.now.table bytes → local.name_at (heap_in heap.now.table bytes) id ≡ result }
{
    let entry = heap.entry(id)?;
    if entry.kind.is_fixed() {
        let block = heap.block(id)?;
        Some(block.at as u16)
    } else {
        Some((4 * id + 2) as u16)
    }
}

/// Where the object that has a name may be, if there is one.
fn candidate<A: Allocator + Copy>(heap: &Arena<SideHoles<A>>, name: u16) -> Option<u32>
    ensures { (bytes : List ℕ) → IsOver heap.now.table bytes → (id : ℕ) → local.name_at (heap_in heap.now.table bytes) id ≡ Some name → result ≡ Some id }
{
    if name % 4 == 2 {
        Some((name / 4) as u32)
    } else {
        id_at(heap, name)
    }
}

/// The object that has a name, if there is one.
pub(crate) fn id_named<A: Allocator + Copy>(heap: &Arena<SideHoles<A>>, name: u16) -> Option<u32>
    requires { IsLocalTable heap.now.table }
    ensures { (bytes : List ℕ) → IsOver heap.now.table bytes → local.id_named (heap_in heap.now.table bytes) name ≡ result }
{
    let id = candidate(heap, name)?;
    let found = name_at(heap, id)?;
    if found == name { Some(id) } else { None }
}

/// The name of the object that begins at a near pointer, or 0.
pub(crate) fn handle_at<A: Allocator + Copy>(heap: &Arena<SideHoles<A>>, pointer: u16) -> u16
    requires { IsLocalTable heap.now.table }
    ensures { (bytes : List ℕ) → IsOver heap.now.table bytes → unwrap_or (calls.name_from (heap_in heap.now.table bytes) pointer) 0 ≡ result }
{
    let Some(id) = id_at(heap, pointer) else {
        return 0;
    };
    name_at(heap, id).unwrap_or(0)
}

/// An object's size in bytes, 0 for one without any.
pub(crate) fn size_of<A: Allocator + Copy>(heap: &Arena<SideHoles<A>>, id: u32) -> u16
    requires { IsLocalTable heap.now.table }
    ensures { (bytes : List ℕ) → IsOver heap.now.table bytes → unwrap_or (option_map length (bytes_at (heap_in heap.now.table bytes) id)) 0 ≡ result }
{
    let Some(block) = heap.block(id) else {
        return 0;
    };
    block.size as u16
}

/// An object's lock count, and bits that say whether it is discardable, and absent; 0 where there is none.
pub(crate) fn flags_of<A: Allocator + Copy>(heap: &Arena<SideHoles<A>>, id: u32) -> u16
    ensures { (bytes : List ℕ) → IsOver heap.now.table bytes → unwrap_or (option_map calls.local_flags_of (object_at (heap_in heap.now.table bytes) id)) 0 ≡ result }
{
    let Some(entry) = heap.entry(id) else {
        return 0;
    };
    let discardable = bit_if(entry.kind.is_discardable(), LMEM_DISCARDABLE);
    let absent = bit_if(is_absent(heap, id), LMEM_DISCARDED);
    entry.locks as u16 + discardable + absent
}

/// An object's near pointer, 0 for one without bytes.
pub(crate) fn place_of<A: Allocator + Copy>(heap: &Arena<SideHoles<A>>, id: u32) -> u16
    requires { IsLocalTable heap.now.table }
    ensures { (bytes : List ℕ) → IsOver heap.now.table bytes → calls.near_pointer (heap_in heap.now.table bytes) id ≡ result }
{
    let Some(block) = heap.block(id) else {
        return 0;
    };
    block.at as u16
}

/// An object's lock count, 0 where there is none.
pub(crate) fn locks_of<A: Allocator + Copy>(heap: &Arena<SideHoles<A>>, id: u32) -> u8
    ensures { (bytes : List ℕ) → IsOver heap.now.table bytes → locks_at (heap_in heap.now.table bytes) id ≡ result }
{
    let Some(entry) = heap.entry(id) else {
        return 0;
    };
    entry.locks
}

/// Whether an object may be freed: one that isn't locked.
pub(crate) fn may_free<A: Allocator + Copy>(heap: &Arena<SideHoles<A>>, id: u32) -> bool
    ensures { (bytes : List ℕ) → IsOver heap.now.table bytes → is_ok (after_free (heap_in heap.now.table bytes) id) ≡ result }
{
    let Some(entry) = heap.entry(id) else {
        return true;
    };
    entry.locks == 0
}

/// Whether an object may be discarded: a discardable one that isn't locked.
pub(crate) fn may_discard<A: Allocator + Copy>(heap: &Arena<SideHoles<A>>, id: u32) -> bool
    ensures { (bytes : List ℕ) → IsOver heap.now.table bytes → is_ok (after_discard (heap_in heap.now.table bytes) id) ≡ result }
{
    let Some(entry) = heap.entry(id) else {
        return false;
    };
    if entry.locks > 0 {
        return false;
    }
    entry.kind.is_discardable()
}

/// Whether an id has no bytes.
fn is_absent<A: Allocator + Copy>(heap: &Arena<SideHoles<A>>, id: u32) -> bool
    ensures { result ≡ not (is_some (block_with heap.now.table.blocks id)) }
{
    heap.block(id).is_none()
}
