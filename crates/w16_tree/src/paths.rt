//! The ways up and down the tree.
ghost use Rattle.std.specs.Prelude.{◌≡◌, ◌+◌, ◌-◌, ◌*◌, ◌/◌, ◌%◌, ◌^◌, ◌<◌, ◌≤◌, ℕ, Some, length, drop, set, slice_index};
ghost use Rattle.w16_tree.specs.Tree.{row, begin, number, IsMost, IsUpheld, IsFirstLeaf, IsLastLeaf};

use crate::rows::{first_in_row, last_in_row, row_max};

/// The maximum of the row where a number changed, from what it was with the number that was there.
fn most_after(nodes: &[u32], changed: usize, was: u32, most: u32) -> u32
    requires inside { changed / 16 * 16 + 16 ≤ length nodes.now }
    requires before { IsMost (number (set nodes.now changed was)) (changed / 16 * 16) most }
    ensures { IsMost (number nodes.now) (changed / 16 * 16) result }
{
    let is = nodes[changed];
    if is >= most {
        return is;
    }
    if was < most {
        return most;
    }
    row_max(nodes, changed / 16 * 16)
}

/// Makes the nodes above a changed one their children's maxima.
pub(crate) fn carry_up(nodes: &mut [u32], leaves: usize, changed: usize, was: u32)
    requires rows { length nodes.old % 16 ≡ 0 }
    requires inside { changed < length nodes.old }
    requires below { changed < 16 * leaves + 16 }
    requires upheld { (j : ℕ) → j < leaves → IsMost (number (set nodes.old changed was)) (row j) (slice_index nodes.old j) }
    ensures upheld { IsUpheld leaves (number nodes.new) }
    ensures leaves { leaves ≤ changed → drop leaves nodes.new ≡ drop leaves nodes.old }
    ensures length { length nodes.new ≡ length nodes.old }
{
    let mut i = changed;
    let mut old = was;
    'up: while i >= 16 {
        let above = i / 16 - 1;
        let most = nodes[above];
        let now = most_after(nodes, i, old, most);
        if now == most {
            return;
        }
        nodes[above] = now;
        old = most;
        i = above;
    }
}

/// The place among the leaves of the first number of at least `n`.
pub(crate) fn first_leaf(nodes: &[u32], height: usize, leaves: usize, n: u32) -> Option<usize>
    requires small { leaves ≤ 2 ^ 40 }
    requires some { 0 < n }
    requires rows { length nodes.now % 16 ≡ 0 }
    requires long { 16 ≤ length nodes.now }
    requires wide { begin height 0 ≡ leaves }
    requires upheld { IsUpheld leaves (number nodes.now) }
    ensures { IsFirstLeaf leaves (number nodes.now) n result }
{
    let top = first_in_row(nodes, 0, n);
    if top == 16 {
        return None;
    }
    let mut i = top;
    for _level in 0..height {
        let at = 16 * (i + 1);
        i = at + first_in_row(nodes, at, n);
    }
    Some(i - leaves)
}

/// The place among the leaves of the last number above 0 below a node that is above 0.
fn last_leaf(nodes: &[u32], height: usize, leaves: usize, node: usize) -> usize
    requires small { leaves ≤ 2 ^ 40 }
    requires rows { length nodes.now % 16 ≡ 0 }
    requires upheld { IsUpheld leaves (number nodes.now) }
    requires start { leaves ≤ begin height node }
    requires inside { begin height (node + 1) ≤ row leaves }
    requires reached { 0 < slice_index nodes.now node }
    ensures { IsLastLeaf leaves (number nodes.now) (begin height (node + 1)) (Some result) }
{
    let mut i = node;
    for _level in 0..height {
        let at = 16 * (i + 1);
        i = at + last_in_row(nodes, at, 16) - 1;
    }
    i - leaves
}

/// Where the last number above 0 before a place ends in the place's row: 0, where there is none. The
/// place may be where the list ends.
fn last_beside(nodes: &[u32], place: usize) -> usize
    requires rows { length nodes.now % 16 ≡ 0 }
    requires inside { place ≤ length nodes.now }
    ensures inside { result ≤ place % 16 }
    ensures found { 0 < result → 0 < slice_index nodes.now (place / 16 * 16 + result - 1) }
    ensures behind { (p : ℕ) → place / 16 * 16 + result ≤ p → p < place → slice_index nodes.now p ≡ 0 }
{
    if place % 16 == 0 {
        return 0;
    }
    last_in_row(nodes, place / 16 * 16, place % 16)
}

/// The place among the leaves of the last number above 0 before a leaf.
pub(crate) fn last_leaf_before(
    nodes: &[u32],
    height: usize,
    leaves: usize,
    end: usize,
) -> Option<usize>
    requires small { leaves ≤ 2 ^ 40 }
    requires rows { length nodes.now % 16 ≡ 0 }
    requires long { end ≤ length nodes.now }
    requires wide { begin height 0 ≡ leaves }
    requires upheld { IsUpheld leaves (number nodes.now) }
    requires from { leaves ≤ end }
    requires to { end < 16 * leaves + 16 }
    ensures { IsLastLeaf leaves (number nodes.now) end result }
{
    let mut i = end;
    let mut level = 0;
    'up: loop {
        let last = last_beside(nodes, i);
        if last > 0 {
            return Some(last_leaf(nodes, level, leaves, i / 16 * 16 + last - 1));
        }
        if i < 16 {
            return None;
        }
        i = i / 16 - 1;
        level += 1;
    }
}
