//! The sizes that a new machine may have.
ghost use Rattle.std.specs.Prelude.{OnOk, IfErr};
ghost use Rattle.w16_kernel.specs.Sizes.{IsMemorySize, IsSelectorCount, IsSizeFault};

use thiserror::Error;
use w16_model::{GRAIN, MOST_SLOTS};

/// The most bytes that a heap may have: 16 MiB.
pub const MOST_MEMORY: u32 = 16_777_216;

/// Why no machine is made of sizes that came from outside.
#[derive(Debug, Clone, Copy, PartialEq, Eq, Drop, Error)]
pub enum SizeFault {
    /// The memory's size is no multiple of 32 from 32 to 16,777,216.
    #[error("the memory has to be a multiple of 32 bytes, from 32 to 16777216")]
    MemorySize,
    /// The number of selectors is not from 1 to 8,160.
    #[error("the number of selectors has to be from 1 to 8160")]
    SelectorCount,
}

/// Checks the sizes that were asked for, as a user or a file gives them: a memory's size that can't be is told first.
pub fn check_sizes(memory: u32, selectors: u32) -> Result<(), SizeFault>
    ensures ok { OnOk result (IsMemorySize memory × IsSelectorCount selectors) }
    ensures err { IfErr result (IsSizeFault memory selectors) }
{
    if memory == 0 || memory > MOST_MEMORY || memory % GRAIN != 0 {
        return Err(SizeFault::MemorySize);
    }
    if selectors == 0 || selectors > MOST_SLOTS {
        return Err(SizeFault::SelectorCount);
    }
    Ok(())
}
