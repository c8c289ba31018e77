//! Flag words of segments and resources.
ghost use Rattle.std.specs.Prelude.{⊤, ◌≡◌, [], ◌∷◌, codes};

use bitflags::{Flag, Flags, bitflag_items};

/// The flag word of a segment, as its table has it. `PROTECTED` code may only be run, and such data only be read.
#[derive(Clone, Copy, Debug, PartialEq, Eq)]
pub struct SegmentFlags(pub u16);

bitflag_items! {
    impl SegmentFlags: u16 {
        const DATA = 0x0001;
        const ITERATED = 0x0008;
        const MOVEABLE = 0x0010;
        const SHAREABLE = 0x0020;
        const PRELOAD = 0x0040;
        const PROTECTED = 0x0080;
        const RELOCATIONS = 0x0100;
        const DISCARDABLE = 0x1000;
    }
}

impl Flags for SegmentFlags {
    type Bits = u16;

    ghost exact = { ⊤ };

    ghost table = { (codes "DATA", 0x0001) ∷ (codes "ITERATED", 0x0008) ∷ (codes "MOVEABLE", 0x0010) ∷ (codes "SHAREABLE", 0x0020)
        ∷ (codes "PRELOAD", 0x0040) ∷ (codes "PROTECTED", 0x0080) ∷ (codes "RELOCATIONS", 0x0100) ∷ (codes "DISCARDABLE", 0x1000) ∷ [] };

    ghost set_of = { λ p. p.0 };

    fn flags<'a>() -> &'a [Flag<SegmentFlags>] {
        SegmentFlags::FLAGS
    }

    fn bits(&self) -> u16 {
        self.0
    }

    fn from_bits_retain(bits: u16) -> SegmentFlags {
        SegmentFlags(bits)
    }
}

/// The flag word of a resource, as its table has it.
#[derive(Clone, Copy, Debug, PartialEq, Eq)]
pub struct ResourceFlags(pub u16);

bitflag_items! {
    impl ResourceFlags: u16 {
        const MOVEABLE = 0x0010;
        const PURE = 0x0020;
        const PRELOAD = 0x0040;
        const DISCARDABLE = 0x1000;
    }
}

impl Flags for ResourceFlags {
    type Bits = u16;

    ghost exact = { ⊤ };

    ghost table = { (codes "MOVEABLE", 0x0010) ∷ (codes "PURE", 0x0020) ∷ (codes "PRELOAD", 0x0040) ∷ (codes "DISCARDABLE", 0x1000) ∷ [] };

    ghost set_of = { λ p. p.0 };

    fn flags<'a>() -> &'a [Flag<ResourceFlags>] {
        ResourceFlags::FLAGS
    }

    fn bits(&self) -> u16 {
        self.0
    }

    fn from_bits_retain(bits: u16) -> ResourceFlags {
        ResourceFlags(bits)
    }
}
