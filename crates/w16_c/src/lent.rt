//! Bytes that are lent: where they are, and no copy.
ghost use Rattle.std.specs.Prelude.{◌≡◌, true, false, length};
ghost use Rattle.w16_c.specs.Files.{SameMachine};
ghost use Rattle.w16_c.specs.Makes.{IsEmpty, Lends};

use crate::asked::written;
use crate::held::Held;
use crate::life::{put_back, taken};
use crate::status::{DONE, NO_MACHINE};
use std::alloc::Global;

/// Bytes of a machine: where they are, and how many.
#[repr(C)]
#[derive(Drop)]
pub struct Lent {
    at: *mut u8,
    pub count: usize,
}

impl Lent {
    /// Tells where a slice's bytes are, and how many.
    pub fn of(bytes: &[u8]) -> Lent
        ensures { result.count ≡ length bytes.now }
    {
        Lent {
            at: bytes.as_ptr() as *mut u8,
            count: bytes.len(),
        }
    }
}

/// Finds the bytes of a `Read`, or of a `Write`, of any number of bytes, without a copy. Bytes that are to be written may be changed until the next
/// call, and what stands there then is what was written. A fault leaves what was lent before.
#[unsafe(no_mangle)]
pub extern "C" fn w16_find(
    alloc: Global,
    held: &mut Held,
    pointer: u32,
    count: usize,
    write: bool,
    lent: &mut Lent,
) -> u8
    ensures { Lends held.old write pointer count result lent.old lent.new held.new }
{
    let Some(mut kernel) = taken(held, alloc) else {
        return NO_MACHINE;
    };
    kernel.reveal_world();
    match kernel.find(pointer, count, write) {
        Ok(place) => {
            *lent = Lent::of(kernel.bytes(place));
            put_back(held, alloc, kernel);
            DONE
        }
        Err(reply) => {
            put_back(held, alloc, kernel);
            written(reply)
        }
    }
}

/// The whole memory, to be read: what a selector reaches begins at its descriptor's base.
#[unsafe(no_mangle)]
pub extern "C" fn w16_memory(alloc: Global, held: &mut Held, lent: &mut Lent) -> u8
    ensures held { held.old.is_held ≡ true → (result ≡ DONE) × (lent.new.count ≡ held.old.world.loading.handles.heap.hi) }
    ensures same { held.old.is_held ≡ true → SameMachine held.old held.new }
    ensures empty { held.old.is_held ≡ false → (result ≡ NO_MACHINE) × IsEmpty held.old held.new × (lent.new ≡ lent.old) }
{
    let Some(kernel) = taken(held, alloc) else {
        return NO_MACHINE;
    };
    *lent = Lent::of(kernel.memory());
    put_back(held, alloc, kernel);
    DONE
}
