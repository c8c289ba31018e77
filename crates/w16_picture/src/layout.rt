//! Where the parts of a walk stand on a strip.
ghost use Rattle.std.specs.Prelude.{◌≡◌, ◌+◌, ◌*◌, ◌/◌, ◌-◌, ◌^◌, ◌<◌, ◌≤◌, ◌↔◌, length, IsTrue, IfOk};
ghost use Rattle.w16_picture.specs.Layout.{Fills, edge, rect_of, strip, IsStrip};

use crate::facts::Part;
use std::alloc::{AllocError, Global};

/// A part of a walk, and where it begins and ends on its strip, in units from the strip's left end.
#[derive(Clone, Copy, Debug, PartialEq, Eq)]
pub struct Rect {
    pub left: u32,
    pub right: u32,
    pub item: Part,
}

impl Rect {
    /// How many units it is wide.
    pub fn width(&self) -> u32
        ensures { result ≡ self.now.right - self.now.left }
    {
        self.right.saturating_sub(self.left)
    }
}

/// Whether the parts lie one after another from the first byte of the memory up to its last, each with a byte.
pub fn covers(memory: u32, items: &[Part]) -> bool
    ensures { IsTrue result ↔ Fills 0 memory items.now }
{
    let mut at = 0;
    for item in items {
        if item.at != at || item.size == 0 || memory - at < item.size {
            return false;
        }
        at += item.size;
    }
    at == memory
}

/// Where an address stands that has that many parts before it, when that many units are left to be shared.
pub fn edge_of(spare: u32, memory: u32, before: u32, at: u32) -> u32
    requires inside { at ≤ memory }
    requires some { 0 < memory }
    requires fits { before + spare < 2 ^ 32 }
    ensures { result ≡ edge spare memory before at }
{
    before + (u64::from(at) * u64::from(spare) / u64::from(memory)) as u32
}

/// The rectangle of a part that has that many parts before it.
fn rectangle(spare: u32, memory: u32, before: u32, item: &Part) -> Rect
    requires inside { item.now.at + item.now.size ≤ memory }
    requires some { 0 < memory }
    requires fits { before + 1 + spare < 2 ^ 32 }
    ensures { result ≡ rect_of spare memory before item.now }
{
    Rect {
        left: edge_of(spare, memory, before, item.at),
        right: edge_of(spare, memory, before + 1, item.at + item.size),
        item: *item,
    }
}

/// The rectangles of a strip, one for each part in order. The strip has that many columns, or one for each part where there are more parts.
/// Each part has one unit for itself, and the units that are left are shared by size.
pub fn rectangles(
    alloc: Global,
    columns: u32,
    memory: u32,
    items: &[Part],
) -> Result<Vec<Rect>, AllocError>
    requires some { 0 < memory }
    requires whole { Fills 0 memory items.now }
    requires few { length items.now + columns < 2 ^ 32 }
    ensures value { IfOk result (λ rects. rects.items ≡ strip columns memory items.now) }
    ensures drawn { IfOk result (λ rects. IsStrip columns memory items.now rects.items) }
{
    let spare = columns.saturating_sub(items.len() as u32);
    let mut rects = Vec::with_capacity(alloc, items.len())?;
    for (i, item) in items.iter().enumerate() {
        rects.push(rectangle(spare, memory, i as u32, item))?;
    }
    Ok(rects)
}
