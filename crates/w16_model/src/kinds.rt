//! What an object's kind allows.
ghost use Rattle.std.specs.Prelude.{◌≡◌};
ghost use Rattle.w16_model.specs.Heap as heap;

use crate::Kind;

impl Kind {
    /// Whether an object of this kind keeps its address from its allocation on (no `GMEM_MOVEABLE`).
    pub fn is_fixed(self) -> bool
        ensures { result ≡ heap.is_fixed self }
    {
        self == Kind::Fixed
    }

    /// Whether an object of this kind may lose its bytes to another's request (`GMEM_DISCARDABLE`).
    pub fn is_discardable(self) -> bool
        ensures { result ≡ heap.is_discardable self }
    {
        self == Kind::Discardable
    }
}
