//! Machines begin and end.
ghost use Rattle.std.specs.Prelude.{◌≡◌, ◌⊎◌, [], true, false, IfOk, IfSome, is_some};
ghost use Rattle.w16_machine.specs.Law.{empty_world};
ghost use Rattle.w16_kernel.specs.Sizes.{IsMemorySize, IsSelectorCount};
ghost use Rattle.w16_c.specs.declared.life.TheConstants.{VERSION};

use crate::held::Held;
use crate::parts::Parts;
use crate::status::{BAD_SIZE, DONE, NO_MEMORY};
use std::alloc::{AllocError, Global};
use std::mem::replace;
use w16_kernel::{GrowingStore, Kernel, check_sizes};

/// What the holder has, which then has none.
pub fn taken(held: &mut Held, alloc: Global) -> Option<Box<Kernel<GrowingStore>>>
    ensures some { is_some result ≡ held.old.is_held }
    ensures same { IfSome result (λ kernel. kernel.value ≡ held.old.world) }
    ensures none { held.new.is_held ≡ false }
{
    let parts = replace(held, Held::none()).into_parts(alloc)?;
    Some(parts.into_box())
}

/// Puts a machine into a holder, and frees what it had.
pub fn put_back(held: &mut Held, alloc: Global, kernel: Box<Kernel<GrowingStore>>)
    ensures held { held.new.is_held ≡ true }
    ensures same { held.new.world ≡ kernel.value }
{
    if let Some(parts) = replace(held, Held::of(Parts::of(kernel))).into_parts(alloc) {
        drop(parts.into_box());
    }
}

/// A machine in a box, in which nothing is allocated, over no module files as yet. An error is want of memory.
fn made(alloc: Global, memory: u32, selectors: u32) -> Result<Box<Kernel<GrowingStore>>, AllocError>
    requires { IsMemorySize memory × IsSelectorCount selectors }
    ensures { IfOk result (λ kernel. kernel.value ≡ empty_world memory selectors [] 0) }
{
    let kernel = Kernel::new(alloc, memory, selectors, GrowingStore::new(alloc))?;
    Ok(Box::new(alloc, kernel)?)
}

/// A new machine of that many bytes of memory, a multiple of 32 from 32 to 16,777,216, and that many selectors, from 1 to 8,160, in place of what
/// the holder had. `BAD_SIZE` is for other sizes, and `NO_MEMORY` for want of memory: either leaves the holder as it was.
#[unsafe(no_mangle)]
pub extern "C" fn w16_new(alloc: Global, held: &mut Held, memory: u32, selectors: u32) -> u8
    ensures done { result ≡ DONE → (held.new.is_held ≡ true) × (held.new.world ≡ empty_world memory selectors [] 0) }
    ensures size { result ≡ BAD_SIZE → IsMemorySize memory × IsSelectorCount selectors → ⊥ }
    ensures fits { (result ≡ BAD_SIZE) ⊎ (IsMemorySize memory × IsSelectorCount selectors) }
    ensures refused { (result ≡ DONE) ⊎ (held.new ≡ held.old) }
    ensures one { (result ≡ DONE) ⊎ (result ≡ BAD_SIZE) ⊎ (result ≡ NO_MEMORY) }
{
    if check_sizes(memory, selectors).is_err() {
        return BAD_SIZE;
    }
    let Ok(kernel) = made(alloc, memory, selectors) else {
        return NO_MEMORY;
    };
    put_back(held, alloc, kernel);
    DONE
}

/// Frees the machine, if there is one.
#[unsafe(no_mangle)]
pub extern "C" fn w16_free(alloc: Global, held: &mut Held)
    ensures { held.new.is_held ≡ false }
{
    drop(taken(held, alloc));
}

/// The library's version, a number a byte: 0x000100 is 0.1.0.
pub const VERSION: u32 = 0x0000_0100;

/// The library's version.
#[unsafe(no_mangle)]
pub extern "C" fn w16_version() -> u32
    ensures { result ≡ VERSION }
{
    VERSION
}
