//! Flags and sizes of the Local calls. Bits that no flag has are kept, and ignored.
ghost use Rattle.std.specs.Prelude.{⊤, ◌≡◌, [], ◌∷◌, codes};
ghost use Rattle.w16_machine.specs.Local as local;
ghost use Rattle.w16_machine.specs.LocalCalls as calls;
ghost use Rattle.w16_machine.specs.declared.local.TheConstants.{LMEM_DISCARDABLE, LMEM_MODIFY, LMEM_MOVEABLE, LMEM_NOCOMPACT, LMEM_NODISCARD, LMEM_ZEROINIT};

use bitflags::{Flag, Flags, bitflag_items};
use w16_machine::local::{
    LMEM_DISCARDABLE, LMEM_MODIFY, LMEM_MOVEABLE, LMEM_NOCOMPACT, LMEM_NODISCARD, LMEM_ZEROINIT,
    LOCAL_GRAIN,
};
use w16_model::{Kind, RoomOptions};

/// The flags of `LocalAlloc`, its LMEM_ words. Unknown bits are kept, and ignored.
#[derive(Clone, Copy, Debug, PartialEq, Eq)]
pub struct LocalAllocFlags(pub u16);

bitflag_items! {
    impl LocalAllocFlags: u16 {
        /// The object may be moved while it isn't locked; without this flag it's fixed.
        const MOVEABLE = LMEM_MOVEABLE;
        /// No other object is moved or discarded.
        const NOCOMPACT = LMEM_NOCOMPACT;
        /// No other object is discarded.
        const NODISCARD = LMEM_NODISCARD;
        /// The new bytes are zeros.
        const ZEROINIT = LMEM_ZEROINIT;
        /// Any of these bits makes the object discardable, where it's moveable too.
        const DISCARDABLE = LMEM_DISCARDABLE;
    }
}

impl Flags for LocalAllocFlags {
    type Bits = u16;

    ghost exact = { ⊤ };

    ghost table = { (codes "MOVEABLE", LMEM_MOVEABLE) ∷ (codes "NOCOMPACT", LMEM_NOCOMPACT) ∷ (codes "NODISCARD", LMEM_NODISCARD)
        ∷ (codes "ZEROINIT", LMEM_ZEROINIT) ∷ (codes "DISCARDABLE", LMEM_DISCARDABLE) ∷ [] };

    ghost set_of = { λ p. p.0 };

    fn flags<'a>() -> &'a [Flag<LocalAllocFlags>] {
        LocalAllocFlags::FLAGS
    }

    fn bits(&self) -> u16 {
        self.0
    }

    fn from_bits_retain(bits: u16) -> LocalAllocFlags {
        LocalAllocFlags(bits)
    }
}

/// The flags of `LocalReAlloc`, its LMEM_ words. Unknown bits are kept, and ignored.
#[derive(Clone, Copy, Debug, PartialEq, Eq)]
pub struct LocalReAllocFlags(pub u16);

bitflag_items! {
    impl LocalReAllocFlags: u16 {
        /// The object may be moved for its own growth, also while it's fixed or locked. A size of 0 discards it.
        const MOVEABLE = LMEM_MOVEABLE;
        /// No other object is moved or discarded.
        const NOCOMPACT = LMEM_NOCOMPACT;
        /// No other object is discarded.
        const NODISCARD = LMEM_NODISCARD;
        /// The new bytes are zeros.
        const ZEROINIT = LMEM_ZEROINIT;
        /// The object's kind is changed, and not its size.
        const MODIFY = LMEM_MODIFY;
        /// With `MODIFY` any of these bits makes the object discardable, and none moveable.
        const DISCARDABLE = LMEM_DISCARDABLE;
    }
}

impl Flags for LocalReAllocFlags {
    type Bits = u16;

    ghost exact = { ⊤ };

    ghost table = { (codes "MOVEABLE", LMEM_MOVEABLE) ∷ (codes "NOCOMPACT", LMEM_NOCOMPACT) ∷ (codes "NODISCARD", LMEM_NODISCARD)
        ∷ (codes "ZEROINIT", LMEM_ZEROINIT) ∷ (codes "MODIFY", LMEM_MODIFY) ∷ (codes "DISCARDABLE", LMEM_DISCARDABLE) ∷ [] };

    ghost set_of = { λ p. p.0 };

    fn flags<'a>() -> &'a [Flag<LocalReAllocFlags>] {
        LocalReAllocFlags::FLAGS
    }

    fn bits(&self) -> u16 {
        self.0
    }

    fn from_bits_retain(bits: u16) -> LocalReAllocFlags {
        LocalReAllocFlags(bits)
    }
}

/// The kind that flags ask for where an object isn't fixed.
pub(crate) fn moveable_or_discardable(flags: LocalAllocFlags) -> Kind
    ensures { result ≡ calls.moveable_or_discardable flags.0 }
{
    if flags.intersects(LocalAllocFlags::DISCARDABLE) {
        Kind::Discardable
    } else {
        Kind::Moveable
    }
}

/// The kind of a new object.
pub(crate) fn local_kind(flags: LocalAllocFlags) -> Kind
    ensures { result ≡ calls.local_kind flags.0 }
{
    if flags.intersects(LocalAllocFlags::MOVEABLE) {
        moveable_or_discardable(flags)
    } else {
        Kind::Fixed
    }
}

/// How flags let room be made.
pub(crate) fn local_options(flags: LocalAllocFlags) -> RoomOptions
    ensures { result ≡ calls.local_options flags.0 }
{
    RoomOptions {
        compact: !flags.intersects(LocalAllocFlags::NOCOMPACT),
        discard: !flags.intersects(LocalAllocFlags::NODISCARD),
        zero: flags.intersects(LocalAllocFlags::ZEROINIT),
        may_move: flags.intersects(LocalAllocFlags::MOVEABLE),
    }
}

/// A size in whole grains.
pub(crate) fn rounded_up(size: u16) -> u32
    ensures { result ≡ local.rounded_up size }
{
    LOCAL_GRAIN * (size as u32).div_ceil(LOCAL_GRAIN)
}
