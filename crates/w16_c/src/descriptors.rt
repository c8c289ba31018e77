//! What selectors tell, and looks at bytes: they fetch nothing, and are no use.
ghost use Rattle.std.specs.Prelude.{◌≡◌, ◌<◌, true, false, length, min, IfNone, IfSome};
ghost use Rattle.w16_global.specs.Peek.{selector_descriptor};
ghost use Rattle.w16_c.specs.Descriptors as descriptors;
ghost use Rattle.w16_c.specs.Descriptors.{AreKnown, IsNext, TellsChange, TellsDescriptor, TellsFar};
ghost use Rattle.w16_c.specs.Files.{SameMachine};
ghost use Rattle.w16_c.specs.Makes.{IsEmpty};

use crate::held::Held;
use crate::life::{put_back, taken};
use crate::status::{DONE, END, FAULT_SELECTOR, NO_MACHINE, status_of};
use std::alloc::Global;
use w16_kernel::{Descriptor as Told, GrowingStore, Kernel};
use w16_model::names::selector_of;

/// How many slots selectors can have.
pub const SLOTS: usize = 8192;

/// What a selector tells. All is 0 where no object has it.
#[repr(C)]
#[derive(Clone, Copy, PartialEq, Eq)]
pub struct Descriptor {
    /// Where in the machine's memory the bytes begin that it reaches.
    pub base: u32,
    /// The offset of the last of them.
    pub limit: u32,
    /// The object's handle.
    pub object: u16,
    /// 1 where the object has bytes.
    pub present: u8,
    /// 1 where it is code.
    pub code: u8,
}

/// A descriptor with its fields as C has them.
fn in_c(told: Told) -> Descriptor
    ensures { result ≡ descriptors.descriptor_of told }
{
    Descriptor {
        base: told.base,
        limit: told.limit,
        object: told.object,
        present: told.present as u8,
        code: told.code as u8,
    }
}

/// What a slot's selector tells.
fn descriptor_at(kernel: &Kernel<GrowingStore>, slot: u16) -> Descriptor
    requires { slot < SLOTS }
    ensures { result ≡ descriptors.descriptor_at kernel.now.loading.handles slot }
{
    match kernel.descriptor(selector_of(slot)) {
        Some(told) => in_c(told),
        None => Descriptor {
            base: 0,
            limit: 0,
            object: 0,
            present: 0,
            code: 0,
        },
    }
}

/// The first slot from one on whose descriptor isn't the known one.
fn next_changed(kernel: &Kernel<GrowingStore>, known: &[Descriptor], from: u16) -> Option<u16>
    ensures found { IfSome result (λ slot. IsNext kernel.now.loading.handles known.now from slot) }
    ensures none { IfNone result (AreKnown kernel.now.loading.handles known.now from (min (length known.now) SLOTS)) }
{
    let end = known.len().min(SLOTS) as u16;
    for slot in from..end {
        if known[slot as usize] != descriptor_at(kernel, slot) {
            return Some(slot);
        }
    }
    None
}

/// Puts out a descriptor, if there is one.
fn put_out(found: Option<Told>, told: &mut Descriptor) -> u8
    ensures { TellsDescriptor found result told.old told.new }
{
    match found {
        Some(descriptor) => {
            *told = in_c(descriptor);
            DONE
        }
        None => FAULT_SELECTOR,
    }
}

/// Copies bytes as `Read` does, with its faults but those of fetches: `FAULT_NOT_PRESENT` where the object has no bytes. A fault leaves the buffer
/// as it was.
#[unsafe(no_mangle)]
pub extern "C" fn w16_peek(alloc: Global, held: &mut Held, pointer: u32, into: &mut [u8]) -> u8
    ensures held { held.old.is_held ≡ true → TellsFar held.old.world.loading.handles pointer result into.old into.new }
    ensures same { held.old.is_held ≡ true → SameMachine held.old held.new }
    ensures empty { held.old.is_held ≡ false → (result ≡ NO_MACHINE) × IsEmpty held.old held.new × (into.new ≡ into.old) }
{
    let Some(kernel) = taken(held, alloc) else {
        return NO_MACHINE;
    };
    let peeked = kernel.peek(pointer, into);
    put_back(held, alloc, kernel);
    match peeked {
        Ok(()) => DONE,
        Err(fault) => status_of(fault),
    }
}

/// What a selector tells; `FAULT_SELECTOR` where no object has it.
#[unsafe(no_mangle)]
pub extern "C" fn w16_get_descriptor(
    alloc: Global,
    held: &mut Held,
    selector: u16,
    told: &mut Descriptor,
) -> u8
    ensures held { held.old.is_held ≡ true → TellsDescriptor (selector_descriptor held.old.world.loading.handles selector) result told.old told.new }
    ensures same { held.old.is_held ≡ true → SameMachine held.old held.new }
    ensures empty { held.old.is_held ≡ false → (result ≡ NO_MACHINE) × IsEmpty held.old held.new × (told.new ≡ told.old) }
{
    let Some(kernel) = taken(held, alloc) else {
        return NO_MACHINE;
    };
    let status = put_out(kernel.descriptor(selector), told);
    put_back(held, alloc, kernel);
    status
}

/// The next slot, from one on, whose descriptor isn't the one that a table has for it. It is put into the table, and the slot answered; `END`
/// where none is left, and nothing changes. Of a longer table only the first 8,192 are looked at.
#[unsafe(no_mangle)]
pub extern "C" fn w16_next_changed(
    alloc: Global,
    held: &mut Held,
    known: &mut [Descriptor],
    slot: &mut u16,
) -> u8
    ensures held { held.old.is_held ≡ true → TellsChange held.old.world.loading.handles result known.old known.new slot.old slot.new }
    ensures same { held.old.is_held ≡ true → SameMachine held.old held.new }
    ensures empty { held.old.is_held ≡ false → (result ≡ NO_MACHINE) × IsEmpty held.old held.new × (known.new ≡ known.old) × (slot.new ≡ slot.old) }
{
    let Some(kernel) = taken(held, alloc) else {
        return NO_MACHINE;
    };
    let status = match next_changed(&kernel, known, *slot) {
        Some(changed) => {
            known[changed as usize] = descriptor_at(&kernel, changed);
            *slot = changed;
            DONE
        }
        None => END,
    };
    put_back(held, alloc, kernel);
    status
}
