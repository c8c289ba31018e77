//! The type byte of a relocation record.
ghost use Rattle.std.specs.Prelude.{⊤, ◌≡◌, [], ◌∷◌, codes};

use bitflags::{Flag, Flags, bitflag_items};

/// A relocation type, as the table has it. Unknown bits are kept, and ignored.
#[derive(Clone, Copy, Debug, PartialEq, Eq)]
pub struct RelocationType(pub u8);

bitflag_items! {
    impl RelocationType: u8 {
        /// The kind of the target: 0 in the module itself, 1 an import by ordinal, 2 an import by name, and 3 a fixup of the system's.
        const TARGET = 0x03;
        /// The value is added to what stands at the site.
        const ADDITIVE = 0x04;
    }
}

impl Flags for RelocationType {
    type Bits = u8;

    ghost exact = { ⊤ };

    ghost table = { (codes "TARGET", 0x03) ∷ (codes "ADDITIVE", 0x04) ∷ [] };

    ghost set_of = { λ p. p.0 };

    fn flags<'a>() -> &'a [Flag<RelocationType>] {
        RelocationType::FLAGS
    }

    fn bits(&self) -> u8 {
        self.0
    }

    fn from_bits_retain(bits: u8) -> RelocationType {
        RelocationType(bits)
    }
}
