//! Handles, selectors and far pointers as numbers: the one place where they are made and taken apart.
ghost use Rattle.std.specs.Prelude.{◌≡◌, ◌<◌, ◌/◌};
ghost use Rattle.w16_model.specs.Handles as handles;

use crate::Kind;

/// The slot that a handle or a selector is of.
pub fn slot_of(name: u16) -> u16
    ensures value { result ≡ name / 8 }
    ensures few { result < 8192 }
{
    name / 8
}

/// A slot's selector.
pub fn selector_of(slot: u16) -> u16
    requires { slot < 8192 }
    ensures { result ≡ handles.selector_of slot }
{
    slot * 8 + 7
}

/// The handle of an object in a slot.
pub fn handle_of(kind: Kind, slot: u16) -> u16
    requires { slot < 8192 }
    ensures { result ≡ handles.handle_of kind slot }
{
    match kind {
        Kind::Fixed => selector_of(slot),
        Kind::Moveable | Kind::Discardable => selector_of(slot) - 1,
    }
}

/// A double word of two words.
pub fn dword_of(high: u16, low: u16) -> u32
    ensures { result ≡ handles.dword_of high low }
{
    high as u32 * 65_536 + low as u32
}

/// The selector of a far pointer: its high word.
pub fn selector_in(pointer: u32) -> u16
    ensures { result ≡ handles.selector_in pointer }
{
    (pointer >> 16) as u16
}

/// The offset of a far pointer: its low word.
pub fn offset_in(pointer: u32) -> u16
    ensures { result ≡ handles.offset_in pointer }
{
    (pointer % 65_536) as u16
}
