//! How far a pass over the blocks by address has come.
ghost use Rattle.std.specs.Prelude.{◌≡◌, ◌+◌, ◌-◌, ◌<◌, ◌≤◌, ◌^◌, if◌then◌else◌};
ghost use Rattle.w16_model.specs.Gap.{block_end, is_pinned};
ghost use Rattle.w16_model.specs.Discards.{is_about};

use w16_blocks::{Block, Hold};

/// The gap that a pass has reached: where it begins, and the bytes of its loose blocks so far.
#[derive(Clone, Copy)]
pub(crate) struct Reached {
    pub(crate) low: u32,
    pub(crate) loose: u32,
}

impl Reached {
    /// After one more block. A pinned block ends the gap, and the next one begins after it.
    pub(crate) fn passing(self, block: &Block) -> Reached
        requires end { block_end block.now < 2 ^ 32 }
        requires sum { self.loose + block.now.size < 2 ^ 32 }
        ensures { result ≡ (if is_pinned block.now
            then record { low = block_end block.now; loose = 0 }
            else record { low = self.low; loose = self.loose + block.now.size }) }
    {
        match block.hold {
            Hold::Pinned => Reached {
                low: block.at + block.size,
                loose: 0,
            },
            Hold::Loose => Reached {
                low: self.low,
                loose: self.loose + block.size,
            },
        }
    }

    /// What the gap has beside its loose blocks, where it ends at a place.
    pub(crate) fn room_to(self, high: u32) -> u32
        requires { self.low + self.loose ≤ high }
        ensures { result ≡ high - self.low - self.loose }
    {
        high - self.low - self.loose
    }
}

/// Whether a block keeps its address.
pub(crate) fn is_pinned(block: &Block) -> bool
    ensures { result ≡ is_pinned block.now }
{
    block.hold == Hold::Pinned
}

/// Whether a request about `h` is about an id.
pub(crate) fn is_about(h: Option<u32>, id: u32) -> bool
    ensures { result ≡ is_about h id }
{
    h == Some(id)
}
