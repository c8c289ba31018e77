//! Chains of sites.
ghost use Rattle.std.specs.Prelude.{◌≡◌, ℕ, ◌<◌, ◌≤◌, ◌+◌, ◌^◌, length, List, IfErr};
ghost use Rattle.w16_ne.specs.Reading.{word_of};
ghost use Rattle.w16_reloc.specs.Sites.{Site};
ghost use Rattle.w16_reloc.specs.Check.{AreMarks, IsOfRecords, Marks, chain_at};

use crate::fault::RelocFault;
use crate::marks::take;
use byteorder::{ByteOrder, LittleEndian};

/// The end of a chain.
pub const END: u16 = 0xffff;

/// The word at an offset.
pub fn word(bytes: &[u8], at: usize) -> u16
    requires { at + 1 < length bytes.now }
    ensures { result ≡ word_of bytes.now at }
{
    LittleEndian::read_u16(&bytes[at..at + 2])
}

/// Marks the sites of a chain after its first, fewer than the data's bytes.
fn take_links(bytes: &[u8], width: usize, head: u16, marks: &mut [bool]) -> Result<(), RelocFault>
    requires wide { 2 ≤ width }
    requires narrow { width ≤ 4 }
    requires small { length bytes.now ≤ 65536 }
    requires same { length marks.old ≡ length bytes.now }
    ensures own { IfErr result IsOfRecords }
    ensures step { (sites : List Site) → AreMarks sites marks.old
        → Marks result marks.new (chain_at bytes.now width (length bytes.now) sites head) }
{
    let mut at = head;
    for _ in 0..bytes.len() {
        if at == END {
            return Ok(());
        }
        take(marks, at as usize, width)?;
        at = word(bytes, at as usize);
    }
    // Each turn took bytes of its own, so there are none left for this.
    Err(RelocFault::Overlap)
}

/// Marks the sites of a chain, from its head on.
pub fn take_chain(
    bytes: &[u8],
    width: usize,
    head: u16,
    marks: &mut [bool],
) -> Result<(), RelocFault>
    requires wide { 2 ≤ width }
    requires narrow { width ≤ 4 }
    requires small { length bytes.now ≤ 65536 }
    requires same { length marks.old ≡ length bytes.now }
    ensures own { IfErr result IsOfRecords }
    ensures step { (sites : List Site) → AreMarks sites marks.old
        → Marks result marks.new (chain_at bytes.now width (length bytes.now + 1) sites head) }
{
    if head == END {
        return Ok(());
    }
    // Many chains have one site: this one needs no loop.
    take(marks, head as usize, width)?;
    take_links(bytes, width, word(bytes, head as usize), marks)
}
