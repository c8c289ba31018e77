//! Values of fixups.
ghost use Rattle.std.specs.Prelude.{◌≡◌, ℕ, ◌+◌, ◌<◌, ◌≤◌, length};
ghost use Rattle.w16_reloc.specs.Sound.{value_width};
ghost use Rattle.w16_reloc.specs.Images.{byte, word_bytes, value_of, found_at, moved};
ghost use Rattle.w16_reloc.specs.Apply.{over};
ghost use Rattle.w16_reloc.specs.Law.{IsFar};

use crate::chain::word;
use crate::record::Part;

/// A far pointer, to which a target is bound.
#[derive(Debug, Clone, Copy, PartialEq, Eq)]
pub struct Far {
    /// The selector, or what stands for one.
    pub selector: u16,
    /// The offset.
    pub offset: u16,
}

/// Writes a word, the low byte first.
fn set_word(bytes: &mut [u8], at: usize, value: u16)
    requires { at + 1 < length bytes.old }
    ensures { (o : ℕ) → byte bytes.new o ≡ over (record { at = at; value = word_bytes value }) (byte bytes.old) o }
{
    bytes[at] = (value % 256) as u8;
    bytes[at + 1] = (value / 256) as u8;
}

/// Writes a part of a far pointer.
pub fn write(bytes: &mut [u8], at: usize, part: Part, far: Far)
    requires { at + value_width part ≤ length bytes.old }
    ensures { (o : ℕ) → byte bytes.new o ≡ over (record { at = at; value = value_of part far }) (byte bytes.old) o }
{
    match part {
        Part::LowByte => bytes[at] = (far.offset % 256) as u8,
        Part::Selector => set_word(bytes, at, far.selector),
        Part::Offset => set_word(bytes, at, far.offset),
        Part::Pointer => {
            set_word(bytes, at, far.offset);
            set_word(bytes, at + 2, far.selector);
        }
    }
}

/// What a value is added to: the byte or the word at its site. A selector isn't added.
fn found(bytes: &[u8], at: usize, part: Part) -> u16
    requires { at + value_width part ≤ length bytes.now }
    ensures { result ≡ found_at part bytes.now at }
{
    match part {
        Part::LowByte => u16::from(bytes[at]),
        Part::Selector => 0,
        Part::Pointer | Part::Offset => word(bytes, at),
    }
}

/// The far pointer with its offset added to what is at a site, without carry.
pub fn moved(bytes: &[u8], at: usize, part: Part, far: Far) -> Far
    requires { at + value_width part ≤ length bytes.now }
    ensures { result ≡ moved far (found_at part bytes.now at) }
{
    Far {
        selector: far.selector,
        offset: far.offset.wrapping_add(found(bytes, at, part)),
    }
}

/// Tells the prover that a far pointer is two words. It does nothing else.
pub fn reveal_words(far: Far)
    ensures { IsFar far }
{}
