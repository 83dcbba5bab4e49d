ghost use Rattle.std.specs.Prelude.{◌≡◌, ◌+◌, ◌<◌, ◌≤◌, ◌/◌, ◌%◌, ◌^◌, ℕ, ◌+ℤ◌, pos, length, slice_index, if◌then◌else◌, nat_lt, not, int_lt};
ghost use Rattle.score.specs.Choice.{points_at};
ghost use Rattle.score.specs.NodeSet.{is_set};

use crate::Score;
use std::simd::prelude::*;

/// The points of a score above those of -INFINITY, so that lanes need no sign.
#[inline(always)]
fn above_least(score: Score) -> u32
    ensures { pos result ≡ (score +ℤ pos 1000000) }
{
    (score.points + 1_000_000) as u32
}

/// The points of eight totals above those of -INFINITY, from one on.
#[inline(always)]
fn loaded(totals: &[Score], at: usize) -> u32x8
    requires { at + 8 ≤ length totals.now }
    ensures lanes { length result ≡ 8 }
    ensures each { (k : ℕ) → k < 8 → pos (slice_index result k) ≡ (points_at totals.now (at + k) +ℤ pos 1000000) }
{
    let mut lanes = [0u32; 8];
    for k in 0..8 {
        lanes[k] = above_least(totals[at + k]);
    }
    u32x8::from_array(lanes)
}

/// Which of eight lanes have at least `floor`, as bits.
#[inline(always)]
fn reached(lanes: u32x8, floor: u32) -> u64
    requires { length lanes ≡ 8 }
    ensures eight { result < 2 ^ 8 }
    ensures each { (k : ℕ) → k < 8 → result / 2 ^ k % 2 ≡ (if nat_lt (slice_index lanes k) floor then 0 else 1) }
{
    lanes.simd_ge(u32x8::splat(floor)).to_bitmask()
}

/// Which of eight totals, from one on, are `floor` or more, as bits.
#[inline(always)]
pub(crate) fn reaching(totals: &[Score], at: usize, floor: Score) -> u64
    requires { at + 8 ≤ length totals.now }
    ensures eight { result < 2 ^ 8 }
    ensures each { (k : ℕ) → k < 8 → is_set result k ≡ not (int_lt (points_at totals.now (at + k)) floor) }
{
    reached(loaded(totals, at), above_least(floor))
}
