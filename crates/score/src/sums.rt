//! Sums of nodes, stored above a bias.

ghost use Rattle.std.specs.Prelude.{◌≡◌, ◌≢◌, ◌<◌, ◌+ℤ◌, ◌-ℤ◌, pos, ℕ, length, slice_index};
ghost use Rattle.score.specs.Row.{IsSumInRange};
ghost use Rattle.score.specs.StoredRows.{bias};

use crate::addition::Addition;
use std::simd::prelude::*;

/// What a stored sum of 0 is.
pub(crate) const BIAS: u64 = 1 << 40;

/// Of two biases one is taken away.
pub(crate) struct Sums;

impl Addition for Sums {
    ghost use Rattle.std.specs.Prelude.{◌+◌, ◌-◌, ◌≤◌, ◌<◌, ◌^◌};
    ghost use Rattle.score.specs.StoredRows.{bias};

    ghost fits = { λ ours theirs. (bias ≤ ours + theirs) × (ours + theirs < 2 ^ 64) };

    ghost joined = { λ ours theirs. ours + theirs - bias };

    #[inline(always)]
    fn join(ours: u64, theirs: u64) -> u64 {
        ours + theirs - BIAS
    }

    #[inline(always)]
    fn join_lanes(ours: u64x8, theirs: u64x8) -> u64x8 {
        ours.strict_add(theirs).strict_sub(u64x8::splat(BIAS))
    }
}

/// Adds to the sum of a node.
pub(crate) fn put(sums: &mut [u64], node: usize, points: i32)
    requires node { node < length sums.old }
    requires room { IsSumInRange ((pos (slice_index sums.old node) -ℤ pos bias) +ℤ points) }
    ensures added { pos (slice_index sums.new node) ≡ (pos (slice_index sums.old node) +ℤ points) }
    ensures others { (k : ℕ) → k ≢ node → slice_index sums.new k ≡ slice_index sums.old k }
{
    sums[node] = (sums[node] as i64 + i64::from(points)) as u64;
}
