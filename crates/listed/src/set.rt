ghost use Rattle.std.specs.Prelude.{◌≡◌, ◌↔◌, ◌<◌, ◌≤◌, ◌+◌, ◌-◌, true, false, Option, Some, None, IfOk, IsTrue, length, slice_get, slice_index_or, slice_set, replicate};
ghost use Rattle.listed.specs.Sets.{is_member, members};
ghost use Rattle.listed.specs.Counting.{Counts, width};

use crate::counting::{one_less, one_more};
use std::alloc::{AllocError, Global};
use std::marker::Model;

/// A set of numbers from 1 to a bound, which is told when the set is made. It finds its members by their place in
/// ascending order.
///
/// Contracts see a list of flags, of which the one at place k - 1 says whether number k is a member. Each call takes a
/// time that grows with the logarithm of the bound, and no memory once the set is made.
#[derive(Drop)]
pub struct NumberSet {
    flags: Vec<bool>,
    /// How many members there are below each node of a binary tree. The root is node 1, below node i are nodes 2 i and
    /// 2 i + 1, and the leaves, one for each number, are the nodes from `leaves` on.
    counts: Vec<usize>,
    leaves: usize,
    height: usize,
}

impl Model for NumberSet {
    ghost use Rattle.std.specs.Prelude.{Bool, List};
    ghost use Rattle.listed.specs.Counting.{Counts};

    ghost Value = { List Bool };

    ghost view = { λ set. set.flags.items };

    ghost invariant = { λ set. Counts set.flags.items set.counts.items set.leaves set.height };
}

/// The least height of a tree with so many leaves, and how many leaves it has.
fn shape(most: u32) -> (usize, usize)
    ensures width { result.0 ≡ width result.1 }
    ensures enough { most ≤ result.0 }
    ensures small { result.0 ≤ 4294967296 + 4294967296 }
{
    let mut leaves = 1;
    let mut height = 0;
    while leaves < most as usize {
        leaves *= 2;
        height += 1;
    }
    (leaves, height)
}

impl NumberSet {
    /// The empty set, for numbers from 1 to the most. Out of memory is its only other answer.
    pub fn new(alloc: Global, most: u32) -> Result<NumberSet, AllocError>
        ensures { IfOk result (λ set. set ≡ replicate most false) }
    {
        let (leaves, height) = shape(most);
        let flags = vec![in alloc; false; most as usize]?;
        let counts = vec![in alloc; 0; 2 * leaves]?;
        Ok(NumberSet {
            flags,
            counts,
            leaves,
            height,
        })
    }

    /// The greatest number that the set may have.
    pub fn most(&self) -> u32
        ensures { result ≡ length self.now }
    {
        self.flags.len() as u32
    }

    /// How many members there are.
    pub fn count(&self) -> u32
        ensures { result ≡ length (members self.now) }
    {
        self.counts[1] as u32
    }

    /// Whether the number is a member.
    pub fn contains(&self, number: u32) -> bool
        requires from_one { 0 < number }
        requires to_most { number ≤ length self.now }
        ensures { result ≡ is_member self.now number }
    {
        self.flags[number as usize - 1]
    }

    /// Makes the number a member, which it may be already.
    pub fn insert(&mut self, number: u32)
        requires from_one { 0 < number }
        requires to_most { number ≤ length self.old }
        ensures { self.new ≡ slice_set self.old (number - 1) true }
    {
        let place = number as usize - 1;
        if self.flags[place] {
            return;
        }
        self.flags[place] = true;
        let leaves = self.leaves;
        one_more(self.counts.as_mut_slice(), leaves, leaves + place);
    }

    /// Takes the number out. It need not be a member.
    pub fn remove(&mut self, number: u32)
        requires from_one { 0 < number }
        requires to_most { number ≤ length self.old }
        ensures { self.new ≡ slice_set self.old (number - 1) false }
    {
        let place = number as usize - 1;
        if !self.flags[place] {
            return;
        }
        self.flags[place] = false;
        let leaves = self.leaves;
        one_less(self.counts.as_mut_slice(), leaves, leaves + place);
    }

    /// The member at this place in ascending order, from 0. It asks for a place below the count.
    pub fn nth(&self, place: u32) -> u32
        requires { place < length (members self.now) }
        ensures { slice_get (members self.now) place ≡ Some result }
    {
        let mut node = 1;
        let mut left = place as usize;
        for _ in 0..self.height {
            let below = self.counts[2 * node];
            if left < below {
                node *= 2;
                continue;
            }
            left -= below;
            node = 2 * node + 1;
        }
        (node - self.leaves) as u32 + 1
    }

    /// The least member, or none in the empty set.
    pub fn first(&self) -> Option<u32>
        ensures { result ≡ slice_get (members self.now) 0 }
    {
        if self.count() == 0 {
            return None;
        }
        Some(self.nth(0))
    }
}
