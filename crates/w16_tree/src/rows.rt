//! What one row of sixteen numbers is asked.
ghost use Rattle.std.specs.Prelude.{◌≡◌, ◌+◌, ◌-◌, ◌^◌, ◌<◌, ◌≤◌, ℕ, length, nat_le, slice_index, if◌then◌else◌};
ghost use Rattle.std.specs.Int.{bit_at};
ghost use Rattle.w16_tree.specs.Tree.{number, IsMost};

use std::simd::prelude::*;

/// How many numbers a row has.
const FAN: usize = 16;

/// The maximum of the row that begins at a place.
pub(crate) fn row_max(nodes: &[u32], at: usize) -> u32
    requires { at + 16 ≤ length nodes.now }
    ensures { IsMost (number nodes.now) at result }
{
    let mut most = nodes[at];
    for k in 0..FAN {
        most = most.max(nodes[at + k]);
    }
    most
}

/// Which numbers of the row that begins at a place are at least `n`, a bit for each from the lowest
/// on. All sixteen are compared at once.
fn reaching(nodes: &[u32], at: usize, n: u32) -> u32
    requires { at + 16 ≤ length nodes.now }
    ensures small { result < 2 ^ 16 }
    ensures bits { (k : ℕ) → k < 16 → bit_at result k ≡ (if nat_le n (slice_index nodes.now (at + k)) then 1 else 0) }
{
    let row = u32x16::from_slice(&nodes[at..]);
    row.simd_ge(u32x16::splat(n)).to_bitmask() as u32
}

/// How many numbers of a row stand before the first of at least `n`: all, where there is none.
pub(crate) fn first_in_row(nodes: &[u32], at: usize, n: u32) -> usize
    requires { at + 16 ≤ length nodes.now }
    ensures inside { result ≤ 16 }
    ensures before { (p : ℕ) → at ≤ p → p < at + result → slice_index nodes.now p < n }
    ensures found { result < 16 → n ≤ slice_index nodes.now (at + result) }
{
    let mask = reaching(nodes, at, n) + (1 << FAN);
    mask.trailing_zeros() as usize
}

/// Where the last number of a row before a place that isn't 0 ends: 0, where there is none.
pub(crate) fn last_in_row(nodes: &[u32], at: usize, end: usize) -> usize
    requires row { at + 16 ≤ length nodes.now }
    requires end { end ≤ 16 }
    ensures inside { result ≤ end }
    ensures found { 0 < result → 0 < slice_index nodes.now (at + result - 1) }
    ensures behind { (p : ℕ) → at + result ≤ p → p < at + end → slice_index nodes.now p ≡ 0 }
{
    let mask = reaching(nodes, at, 1) % (1 << end);
    (2 * mask + 1).ilog2() as usize
}
