//! Flag words of the calls that make an object or give it another size. Bits that no flag has are kept, and ignored.
ghost use Rattle.std.specs.Prelude.{⊤, ◌≡◌, [], ◌∷◌, codes};
ghost use Rattle.w16_model.specs.declared.TheConstants.{GMEM_DDESHARE, GMEM_DISCARDABLE, GMEM_MODIFY, GMEM_MOVEABLE, GMEM_NOCOMPACT, GMEM_NODISCARD, GMEM_ZEROINIT};

use bitflags::{Flag, Flags, bitflag_items};
use w16_model::{
    GMEM_DDESHARE, GMEM_DISCARDABLE, GMEM_MODIFY, GMEM_MOVEABLE, GMEM_NOCOMPACT, GMEM_NODISCARD,
    GMEM_ZEROINIT,
};

/// The flags of `GlobalAlloc`, its GMEM_ words. Unknown bits are kept, and ignored.
#[derive(Clone, Copy, Debug, PartialEq, Eq)]
pub struct GlobalAllocFlags(pub u16);

bitflag_items! {
    impl GlobalAllocFlags: u16 {
        /// The object may be moved while it isn't locked; without this flag it's fixed.
        const MOVEABLE = GMEM_MOVEABLE;
        /// No other object is moved or discarded.
        const NOCOMPACT = GMEM_NOCOMPACT;
        /// No other object is discarded.
        const NODISCARD = GMEM_NODISCARD;
        /// The new bytes are zeros.
        const ZEROINIT = GMEM_ZEROINIT;
        /// The object is discardable, where it's moveable too.
        const DISCARDABLE = GMEM_DISCARDABLE;
        /// Other tasks share the object.
        const DDESHARE = GMEM_DDESHARE;
    }
}

impl Flags for GlobalAllocFlags {
    type Bits = u16;

    ghost exact = { ⊤ };

    ghost table = { (codes "MOVEABLE", GMEM_MOVEABLE) ∷ (codes "NOCOMPACT", GMEM_NOCOMPACT) ∷ (codes "NODISCARD", GMEM_NODISCARD)
        ∷ (codes "ZEROINIT", GMEM_ZEROINIT) ∷ (codes "DISCARDABLE", GMEM_DISCARDABLE) ∷ (codes "DDESHARE", GMEM_DDESHARE) ∷ [] };

    ghost set_of = { λ p. p.0 };

    fn flags<'a>() -> &'a [Flag<GlobalAllocFlags>] {
        GlobalAllocFlags::FLAGS
    }

    fn bits(&self) -> u16 {
        self.0
    }

    fn from_bits_retain(bits: u16) -> GlobalAllocFlags {
        GlobalAllocFlags(bits)
    }
}

/// The flags of `GlobalReAlloc`, its GMEM_ words. Unknown bits are kept, and ignored.
#[derive(Clone, Copy, Debug, PartialEq, Eq)]
pub struct GlobalReAllocFlags(pub u16);

bitflag_items! {
    impl GlobalReAllocFlags: u16 {
        /// The object may be moved for its own growth, also while it's fixed or locked. A size of 0 discards it.
        const MOVEABLE = GMEM_MOVEABLE;
        /// No other object is moved or discarded.
        const NOCOMPACT = GMEM_NOCOMPACT;
        /// No other object is discarded.
        const NODISCARD = GMEM_NODISCARD;
        /// The new bytes are zeros.
        const ZEROINIT = GMEM_ZEROINIT;
        /// The object's kind is changed, and not its size.
        const MODIFY = GMEM_MODIFY;
        /// With `MODIFY` the object becomes discardable, and without this flag moveable.
        const DISCARDABLE = GMEM_DISCARDABLE;
    }
}

impl Flags for GlobalReAllocFlags {
    type Bits = u16;

    ghost exact = { ⊤ };

    ghost table = { (codes "MOVEABLE", GMEM_MOVEABLE) ∷ (codes "NOCOMPACT", GMEM_NOCOMPACT) ∷ (codes "NODISCARD", GMEM_NODISCARD)
        ∷ (codes "ZEROINIT", GMEM_ZEROINIT) ∷ (codes "MODIFY", GMEM_MODIFY) ∷ (codes "DISCARDABLE", GMEM_DISCARDABLE) ∷ [] };

    ghost set_of = { λ p. p.0 };

    fn flags<'a>() -> &'a [Flag<GlobalReAllocFlags>] {
        GlobalReAllocFlags::FLAGS
    }

    fn bits(&self) -> u16 {
        self.0
    }

    fn from_bits_retain(bits: u16) -> GlobalReAllocFlags {
        GlobalReAllocFlags(bits)
    }
}
