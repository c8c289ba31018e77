//! The bytes that sites cover.
ghost use Rattle.std.specs.Prelude.{◌≡◌, ℕ, ◌<◌, ◌≤◌, ◌+◌, ◌^◌, ◌&&◌, ◌||◌, nat_le, nat_lt, length, true, false, slice_index_or, List, OnOk, IfErr};
ghost use Rattle.w16_reloc.specs.Sites.{Site};
ghost use Rattle.w16_reloc.specs.Check.{AreMarks, IsOfRecords, Marks, site_at};

use crate::fault::RelocFault;

/// The most bytes of a site. Loops over so many turns are unrolled; those over a site's own width cost three times as much.
const WIDEST: usize = 4;

/// Whether no byte of a site is marked.
fn is_clear(marks: &[bool], at: usize, width: usize) -> bool
    requires inside { at + width ≤ length marks.now }
    requires narrow { width ≤ 4 }
    ensures clear { result ≡ true → (b : ℕ) → at ≤ b → b < at + width → slice_index_or marks.now b false ≡ false }
    ensures taken { result ≡ false → (b : ℕ) × (at ≤ b) × (b < at + width) × (slice_index_or marks.now b false ≡ true) }
{
    for i in 0..WIDEST {
        if i < width && marks[at + i] {
            return false;
        }
    }
    true
}

/// Marks the bytes of a site.
fn mark(marks: &mut [bool], at: usize, width: usize)
    requires inside { at + width ≤ length marks.old }
    requires narrow { width ≤ 4 }
    ensures { (b : ℕ) → slice_index_or marks.new b false ≡ (slice_index_or marks.old b false || (nat_le at b && nat_lt b (at + width))) }
{
    for i in 0..WIDEST {
        if i < width {
            marks[at + i] = true;
        }
    }
}

/// Marks the bytes of one more site. `SiteOutside` where it covers a byte past the marks, else `Overlap` where one is marked already.
#[tactic(auto, unfolding(crate::specs::Check::site_at))]
pub fn take(marks: &mut [bool], at: usize, width: usize) -> Result<(), RelocFault>
    requires wide { 0 < width }
    requires narrow { width ≤ 4 }
    requires small { at + width < 2 ^ 32 }
    ensures own { IfErr result IsOfRecords }
    ensures inside { OnOk result (at + width ≤ length marks.old) }
    ensures step { (sites : List Site) → AreMarks sites marks.old
        → Marks result marks.new (site_at (length marks.old) sites (record { at = at; width = width })) }
{
    if marks.len() < at + width {
        return Err(RelocFault::SiteOutside);
    }
    if !is_clear(marks, at, width) {
        return Err(RelocFault::Overlap);
    }
    mark(marks, at, width);
    Ok(())
}
