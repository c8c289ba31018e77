//! The parts of the heap by address.
ghost use Rattle.std.specs.Prelude.{◌≡◌, ◌<◌, ◌^◌, true, false, IfSome};
ghost use Rattle.w16_c.specs.Makes.{IsEmpty};
ghost use Rattle.w16_c.specs.Walks.{part_of, kind_number, TellsPart};

use crate::held::Held;
use crate::life::{put_back, taken};
use crate::status::{DONE, END, NO_MACHINE};
use std::alloc::Global;
use w16_model::{Item, Kind};

/// A part of the heap: an object's bytes, or a hole, whose handle is 0.
#[repr(C)]
#[derive(Clone, Copy)]
pub struct Part {
    /// Its address, in bytes.
    pub at: u32,
    /// How many bytes it has.
    pub size: u32,
    pub handle: u16,
    /// 0 for a hole, 1 fixed, 2 moveable, 3 discardable.
    pub kind: u8,
    /// The object's lock count.
    pub locks: u8,
}

/// A kind as a number.
fn number_of(kind: Kind) -> u8
    ensures { result ≡ kind_number kind }
{
    match kind {
        Kind::Fixed => 1,
        Kind::Moveable => 2,
        Kind::Discardable => 3,
    }
}

/// A part with its fields as C has them.
fn told(item: Item) -> Part
    requires { IfSome item.owner (λ owner. owner.name < 2 ^ 16) }
    ensures { result ≡ part_of item }
{
    match item.owner {
        Some(owner) => Part {
            at: item.at,
            size: item.size,
            handle: owner.name as u16,
            kind: number_of(owner.kind),
            locks: owner.locks,
        },
        None => Part {
            at: item.at,
            size: item.size,
            handle: 0,
            kind: 0,
            locks: 0,
        },
    }
}

/// `Walk`, part by part: the first part that begins at an address or above it. `END` after the last, and then `part` stays as it was. A
/// whole walk goes from 0 to each part's end.
#[unsafe(no_mangle)]
pub extern "C" fn w16_walk_from(alloc: Global, held: &mut Held, from: u32, part: &mut Part) -> u8
    ensures held { held.old.is_held ≡ true → TellsPart held.old from result part.old part.new }
    ensures same { held.old.is_held ≡ true → (held.new.is_held ≡ true) × (held.new.world ≡ held.old.world) }
    ensures empty { held.old.is_held ≡ false → (result ≡ NO_MACHINE) × IsEmpty held.old held.new × (part.new ≡ part.old) }
{
    let Some(kernel) = taken(held, alloc) else {
        return NO_MACHINE;
    };
    let item = kernel.walk_from(from);
    put_back(held, alloc, kernel);
    match item {
        Some(item) => {
            *part = told(item);
            DONE
        }
        None => END,
    }
}
