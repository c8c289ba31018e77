//! A list of numbers that knows its maximum.
//!
//! It has a fixed length. To change a number, to find the first of at least a bound, or the last
//! before a place that isn't 0, takes as many steps as the list's length has hexadecimal digits. No
//! call but the constructor takes memory, and zeros at the end cost the host none until a number
//! there is changed.
//!
//! - [`Maxima`] is the list. It lies in the leaves of a tree whose nodes have sixteen children, and
//!   are their maxima.
//! - `rows` asks one row of sixteen numbers, and `paths` has the ways up and down the tree.
#![tactic(auto)]

ghost use Rattle.std.specs.Prelude.{◌≡◌, ◌+◌, ◌-◌, ◌++◌, ◌<◌, ◌≤◌, ◌^◌, List, ℕ, length, set, replicate, slice_index, vec_capacity, max, nat_le, IfOk};
ghost use Rattle.std.specs.List.{position, fold};

mod paths;
mod rows;

use paths::{carry_up, first_leaf, last_leaf_before};
use rows::row_max;
use std::alloc::{AllocError, Allocator, Global};
use std::marker::Model;

/// A list of numbers that knows its maximum. A contract sees the list alone.
#[derive(Drop)]
pub struct Maxima<A: Allocator = Global> {
    /// The inner nodes, and after them the leaves as far as one was changed: further ones are 0. It
    /// has the capacity for all.
    nodes: Vec<u32, A>,
    leaves: usize,
    height: usize,
    len: usize,
}

impl<A: Allocator> Model for Maxima<A> {
    ghost use Rattle.std.specs.Prelude.{◌≤◌, ◌^◌, List, ℕ, vec_capacity};
    ghost use Rattle.w16_tree.specs.Tree.{IsTree, list_of, nodes_for};

    ghost Value = { List ℕ };

    ghost view = { λ s. list_of s.len s.leaves s.nodes.items };

    ghost invariant = { λ s. (s.leaves ≤ 2 ^ 40) × IsTree s.height s.len s.leaves s.nodes.items × (nodes_for s.leaves s.len ≤ vec_capacity s.nodes) };
}

/// Gives a list more numbers, for which it has the capacity. It stands apart so that a change of a
/// number stays short enough to be inlined.
#[cold]
#[inline(never)]
fn grow<A: Allocator>(nodes: &mut Vec<u32, A>, count: usize)
    requires { count ≤ vec_capacity nodes.old }
    ensures items { length nodes.old.items ≤ count → nodes.new.items ≡ nodes.old.items ++ replicate (count - length nodes.old.items) 0 }
    ensures capacity { vec_capacity nodes.old ≤ vec_capacity nodes.new }
{
    let Ok(()) = nodes.resize(count, 0) else {
        unreachable!()
    };
}

/// Gives a list at least so many numbers, for which it has the capacity. The new ones are 0. No
/// memory is taken.
#[inline(always)]
fn lengthen<A: Allocator>(nodes: &mut Vec<u32, A>, count: usize)
    requires { count ≤ vec_capacity nodes.old }
    ensures items { nodes.new.items ≡ nodes.old.items ++ replicate (count - length nodes.old.items) 0 }
    ensures capacity { vec_capacity nodes.old ≤ vec_capacity nodes.new }
{
    if nodes.len() < count {
        grow(nodes, count);
    }
}

impl<A: Allocator> Maxima<A> {
    ghost use Rattle.w16_tree.specs.Last.{last_below};

    /// `len` zeros. All the memory that the list ever has is taken here; fails where there is not
    /// enough.
    pub fn zeros(alloc: A, len: usize) -> Result<Maxima<A>, AllocError>
        requires { len < 2 ^ 33 }
        ensures { IfOk result (λ made. made ≡ replicate len 0) }
    {
        let mut leaves = 0;
        let mut height = 0;
        'deeper: while 15 * leaves + 16 <= len {
            leaves = 16 * (leaves + 1);
            height += 1;
        }
        let mut nodes = Vec::with_capacity(alloc, (leaves + len) / 16 * 16 + 16)?;
        lengthen(&mut nodes, leaves + 16);
        Ok(Maxima {
            nodes,
            leaves,
            height,
            len,
        })
    }

    /// How many numbers there are.
    pub fn len(&self) -> usize
        ensures { result ≡ length self.now }
    {
        self.len
    }

    /// The number at an index.
    pub fn get(&self, index: usize) -> u32
        requires { index < length self.now }
        ensures { result ≡ slice_index self.now index }
    {
        self.nodes.get(self.leaves + index).copied().unwrap_or(0)
    }

    /// Puts a number at an index. It goes up the tree no further than a maximum changes.
    pub fn set(&mut self, index: usize, value: u32)
        requires { index < length self.old }
        ensures { self.new ≡ set self.old index value }
    {
        let leaf = self.leaves + index;
        lengthen(&mut self.nodes, leaf / 16 * 16 + 16);
        let was = self.nodes[leaf];
        self.nodes[leaf] = value;
        carry_up(&mut self.nodes, self.leaves, leaf, was);
    }

    /// The maximum, 0 where there is no number.
    pub fn max(&self) -> u32
        ensures { result ≡ fold max 0 self.now }
    {
        row_max(&self.nodes, 0)
    }

    /// The index of the first number of at least `n`, which isn't 0.
    pub fn first_at_least(&self, n: u32) -> Option<usize>
        requires { 0 < n }
        ensures { result ≡ position (nat_le n) self.now }
    {
        first_leaf(&self.nodes, self.height, self.leaves, n)
    }

    /// The highest index below another whose number isn't 0.
    pub fn last_below(&self, index: usize) -> Option<usize>
        requires { index ≤ length self.now }
        ensures { result ≡ last_below self.now index }
    {
        let end = self.nodes.len().min(self.leaves + index);
        last_leaf_before(&self.nodes, self.height, self.leaves, end)
    }
}
