//! Adding what two rows store of each node: by whole vectors of lanes and then node by node, or node by node alone.

ghost use Rattle.std.specs.Prelude.{◌≡◌, ◌+◌, ◌<◌, ◌≤◌, ℕ, length, slice_index};

use crate::form::Form;
use std::simd::prelude::*;

/// How two stored numbers of a node are added.
pub(crate) trait Addition {
    /// Which numbers it adds.
    ghost fits: { ℕ → ℕ → Type 0 };

    /// What it makes of them.
    ghost joined: { ℕ → ℕ → ℕ };

    fn join(ours: u64, theirs: u64) -> u64
        requires { fits ours theirs }
        ensures { result ≡ joined ours theirs };

    fn join_lanes(ours: u64x8, theirs: u64x8) -> u64x8
        requires ours { length ours ≡ 8 }
        requires theirs { length theirs ≡ 8 }
        requires fits { (k : ℕ) → k < 8 → fits (slice_index ours k) (slice_index theirs k) }
        ensures lanes { length result ≡ 8 }
        ensures each { (k : ℕ) → k < 8 → slice_index result k ≡ joined (slice_index ours k) (slice_index theirs k) };
}

/// Adds the numbers of eight nodes, from one on.
#[inline(always)]
fn add_block<A: Addition>(into: &mut [u64], other: &[u64], at: usize)
    requires into { at + 8 ≤ length into.old }
    requires other { at + 8 ≤ length other.now }
    requires fits { (k : ℕ) → at ≤ k → k < at + 8 → A.fits (slice_index into.old k) (slice_index other.now k) }
    ensures block { (k : ℕ) → at ≤ k → k < at + 8 → slice_index into.new k ≡ A.joined (slice_index into.old k) (slice_index other.now k) }
    ensures below { (k : ℕ) → k < at → slice_index into.new k ≡ slice_index into.old k }
    ensures above { (k : ℕ) → at + 8 ≤ k → slice_index into.new k ≡ slice_index into.old k }
{
    let ours = u64x8::from_slice(&into[at..]);
    let theirs = u64x8::from_slice(&other[at..]);
    A::join_lanes(ours, theirs).copy_to_slice(&mut into[at..]);
}

/// Adds the numbers of every node from one on, node by node.
fn add_from<A: Addition>(into: &mut [u64], other: &[u64], first: usize)
    requires nodes { length into.old ≡ length other.now }
    requires fits { (k : ℕ) → first ≤ k → k < length into.old → A.fits (slice_index into.old k) (slice_index other.now k) }
    ensures added { (k : ℕ) → first ≤ k → k < length into.new → slice_index into.new k ≡ A.joined (slice_index into.old k) (slice_index other.now k) }
    ensures below { (k : ℕ) → k < first → slice_index into.new k ≡ slice_index into.old k }
{
    for node in first..into.len() {
        into[node] = A::join(into[node], other[node]);
    }
}

/// Adds the numbers of every node, by lanes.
fn add_by_lanes<A: Addition>(into: &mut [u64], other: &[u64])
    requires nodes { length into.old ≡ length other.now }
    requires fits { (k : ℕ) → k < length into.old → A.fits (slice_index into.old k) (slice_index other.now k) }
    ensures { (k : ℕ) → k < length into.new → slice_index into.new k ≡ A.joined (slice_index into.old k) (slice_index other.now k) }
{
    let count = into.len();
    let mut at = 0;
    while count - at >= 8 {
        add_block::<A>(into, other, at);
        at += 8;
    }
    add_from::<A>(into, other, at);
}

/// Adds the numbers of every node.
pub(crate) fn add<A: Addition>(into: &mut [u64], other: &[u64], form: Form)
    requires nodes { length into.old ≡ length other.now }
    requires fits { (k : ℕ) → k < length into.old → A.fits (slice_index into.old k) (slice_index other.now k) }
    ensures { (k : ℕ) → k < length into.new → slice_index into.new k ≡ A.joined (slice_index into.old k) (slice_index other.now k) }
{
    match form {
        Form::Lanes => add_by_lanes::<A>(into, other),
        Form::Plain => add_from::<A>(into, other, 0),
    }
}
