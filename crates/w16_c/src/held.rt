//! A machine in the hands of C.
ghost use Rattle.std.specs.Prelude.{◌≡◌, Bool, true, false, IfSome, is_some};
ghost use Rattle.w16_machine.specs.World.{World};
ghost use Rattle.w16_c.specs.Ownership.{held_owns, machine_coded};

use crate::parts::Parts;
use std::alloc::Global;
use std::marker::Model;
use std::ptr::null_mut;
use w16_kernel::{GrowingStore, Kernel};

/// A machine, or none.
#[repr(C)]
pub struct Held {
    at: *mut u8,
    pub is_held: bool,
    pub ghost world: { World } by { machine_coded },
}

impl Model for Held {
    ghost also_owns = { λ h. held_owns h.is_held h.at h.world };
}

impl Held {
    /// None.
    pub fn none() -> Held
        ensures { result.is_held ≡ false }
    {
        Held {
            at: null_mut(),
            is_held: false,
        }
    }

    /// A machine.
    pub fn of(parts: Parts<Kernel<GrowingStore>, Global>) -> Held
        ensures held { result.is_held ≡ true }
        ensures same { result.world ≡ parts.value }
    {
        let Parts { ptr, alloc: _ } = parts;
        Held {
            at: ptr as *mut u8,
            is_held: true,
        }
    }

    /// What it holds.
    pub fn into_parts(self, alloc: Global) -> Option<Parts<Kernel<GrowingStore>, Global>>
        ensures some { is_some result ≡ self.is_held }
        ensures same { IfSome result (λ parts. parts.value ≡ self.world) }
    {
        let Held { at, is_held } = self;
        if is_held {
            return Some(Parts {
                ptr: at as *mut Kernel<GrowingStore>,
                alloc,
            });
        }
        None
    }
}
