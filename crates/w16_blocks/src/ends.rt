//! Notes of where blocks end, so that a walk downwards finds the next block in one step.
ghost use Rattle.std.specs.Prelude.{◌≡◌, ◌+◌, ◌<◌, ℕ, length, IfSome};
ghost use Rattle.w16_blocks.specs.Kept.{slot_of};

use crate::Block;
use w16_holes::units_in;

/// In which unit a place lies, if it isn't below the range.
fn unit_at(place: u32, lo: u32, grain: u32) -> usize
    requires { 0 < grain }
{
    units_in(place.wrapping_sub(lo), grain) as usize
}

/// Notes where a block ends.
pub(crate) fn note_end(ends: &mut [u16], lo: u32, grain: u32, block: Block)
    requires { 0 < grain }
{
    let unit = unit_at(block.at.wrapping_add(block.size), lo, grain);
    if let (Some(note), Ok(id)) = (ends.get_mut(unit), u16::try_from(block.id)) {
        *note = id;
    }
}

/// The block that ends at a place, if the note there is right.
pub(crate) fn noted(slots: &[Block], ends: &[u16], lo: u32, grain: u32, place: u32) -> Option<Block>
    requires { 0 < grain }
    ensures { IfSome result (λ b. (id : ℕ) × (id < length slots.now) × (slot_of slots.now id ≡ b) × (0 < b.size) × (b.at + b.size ≡ place)) }
{
    let id = *ends.get(unit_at(place, lo, grain))?;
    let block = *slots.get(id as usize)?;
    if block.size > 0 && place.checked_sub(block.size) == Some(block.at) {
        Some(block)
    } else {
        None
    }
}
