//! The sites of records.
ghost use Rattle.std.specs.Prelude.{◌≡◌, ℕ, ◌≤◌, length, List, IfErr};
ghost use Rattle.w16_reloc.specs.Sites.{Site};
ghost use Rattle.w16_reloc.specs.Sound.{value_width, chain_width};
ghost use Rattle.w16_reloc.specs.Check.{AreMarks, IsOfRecords, Marks, sites_at};

use crate::chain::take_chain;
use crate::fault::RelocFault;
use crate::marks::take;
use crate::record::{Part, Record};

/// How many bytes a part has.
pub fn value_width(part: Part) -> usize
    ensures value { result ≡ value_width part }
    ensures narrow { result ≤ 4 }
{
    match part {
        Part::LowByte => 1,
        Part::Selector | Part::Offset => 2,
        Part::Pointer => 4,
    }
}

/// How many bytes a site of a chain covers: its value's, and those of its link.
pub fn chain_width(part: Part) -> usize
    ensures value { result ≡ chain_width part }
    ensures wide { 2 ≤ result }
    ensures narrow { result ≤ 4 }
{
    value_width(part).max(2)
}

/// Marks the sites of a record.
#[tactic(auto, unfolding(crate::specs::Check::sites_at))]
pub fn take_sites(bytes: &[u8], relocation: &Record, marks: &mut [bool]) -> Result<(), RelocFault>
    requires small { length bytes.now ≤ 65536 }
    requires same { length marks.old ≡ length bytes.now }
    ensures own { IfErr result IsOfRecords }
    ensures step { (sites : List Site) → AreMarks sites marks.old → Marks result marks.new (sites_at bytes.now sites relocation.now) }
{
    match relocation {
        Record::Stored(fixup) => take_chain(bytes, chain_width(fixup.part), fixup.offset, marks),
        Record::Added(fixup) => take(marks, fixup.offset as usize, value_width(fixup.part)),
        Record::System => Ok(()),
    }
}
