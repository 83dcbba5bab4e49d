ghost use Rattle.std.specs.Prelude.{◌≡◌, ◌+◌, ◌<◌, ◌≤◌, ℕ, ◌-ℤ◌, pos, List, length, slice_index, map, if◌then◌else◌, nat_lt, ℤ};
ghost use Rattle.score.specs.Choice.{points_at};
ghost use Rattle.score.specs.Row.{Stands};
ghost use Rattle.score.specs.Inner.Row.{tally_total};
ghost use Rattle.score.specs.StoredRows.{stored_tally, bias};
ghost use Rattle.score.specs.Inner.StoredTotals.{stored_total, stored_least, stored_most};
ghost use Rattle.score.specs.Total.{total_of};

use crate::form::Form;
use crate::sums::BIAS;
use crate::{Row, Score};
use std::simd::prelude::*;

/// The stored points of -INFINITY.
const LEAST: u64 = BIAS - 1_000_000;

/// The stored points of INFINITY.
const MOST: u64 = BIAS + 1_000_000;

/// Of each lane `yes` where `a` is less than `b`, and else `no`.
#[inline(always)]
fn where_less(a: u64x8, b: u64x8, yes: u64x8, no: u64x8) -> u64x8
    requires a { length a ≡ 8 }
    requires b { length b ≡ 8 }
    requires yes { length yes ≡ 8 }
    requires no { length no ≡ 8 }
    ensures lanes { length result ≡ 8 }
    ensures each { (k : ℕ) → k < 8 → slice_index result k ≡ (if nat_lt (slice_index a k) (slice_index b k) then slice_index yes k else slice_index no k) }
{
    a.simd_lt(b).select(yes, no)
}

/// The stored points of the totals of eight nodes.
#[inline(always)]
fn total_lanes(minus: u64x8, plus: u64x8, sums: u64x8) -> u64x8
    requires minus { length minus ≡ 8 }
    requires plus { length plus ≡ 8 }
    requires sums { length sums ≡ 8 }
    ensures lanes { length result ≡ 8 }
    ensures each { (k : ℕ) → k < 8 → slice_index result k ≡ stored_total (slice_index minus k) (slice_index plus k) (slice_index sums k) }
{
    let unset = u64x8::splat(0);
    let least = u64x8::splat(LEAST);
    let most = u64x8::splat(MOST);
    let at_most = where_less(most, sums, most, sums);
    let cut = where_less(at_most, least, least, at_most);
    let with_plus = where_less(unset, plus, most, cut);
    where_less(unset, minus, least, with_plus)
}

/// The score of stored points.
#[inline(always)]
fn score_of(stored: u64) -> Score
    requires least { stored_least ≤ stored }
    requires most { stored ≤ stored_most }
    ensures { result ≡ (pos stored -ℤ pos bias) }
{
    Score {
        points: (stored as i64 - BIAS as i64) as i32,
    }
}

/// The total of one node.
fn total_at(minus: u64, plus: u64, sum: u64) -> Score
    ensures { result ≡ tally_total (stored_tally minus plus sum) }
{
    let stored = if minus > 0 {
        LEAST
    } else if plus > 0 {
        MOST
    } else {
        sum.min(MOST).max(LEAST)
    };
    score_of(stored)
}

/// The totals of eight nodes, from one on.
#[tactic(auto, using(crate::proofs::RowPoints::points_set_same, crate::proofs::RowPoints::points_set_other))]
#[inline(always)]
fn total_block(minus: &[u64], plus: &[u64], sums: &[u64], out: &mut [Score], at: usize)
    requires minus { at + 8 ≤ length minus.now }
    requires plus { at + 8 ≤ length plus.now }
    requires sums { at + 8 ≤ length sums.now }
    requires out { at + 8 ≤ length out.old }
    ensures block { (k : ℕ) → at ≤ k → k < at + 8 → points_at out.new k ≡ tally_total (stored_tally (slice_index minus.now k) (slice_index plus.now k) (slice_index sums.now k)) }
    ensures below { (k : ℕ) → k < at → points_at out.new k ≡ points_at out.old k }
{
    let minus = u64x8::from_slice(&minus[at..]);
    let plus = u64x8::from_slice(&plus[at..]);
    let sums = u64x8::from_slice(&sums[at..]);
    let lanes = total_lanes(minus, plus, sums).to_array();
    for k in 0..8 {
        out[at + k] = score_of(lanes[k]);
    }
}

/// The totals of every node from one on, node by node.
fn totals_from(minus: &[u64], plus: &[u64], sums: &[u64], out: &mut [Score], first: usize)
    requires minus { length minus.now ≡ length out.old }
    requires plus { length plus.now ≡ length out.old }
    requires sums { length sums.now ≡ length out.old }
    ensures totals { (k : ℕ) → first ≤ k → k < length out.new → points_at out.new k ≡ tally_total (stored_tally (slice_index minus.now k) (slice_index plus.now k) (slice_index sums.now k)) }
    ensures below { (k : ℕ) → k < first → points_at out.new k ≡ points_at out.old k }
{
    for node in first..out.len() {
        out[node] = total_at(minus[node], plus[node], sums[node]);
    }
}

/// The totals of every node, by lanes.
fn totals_by_lanes(minus: &[u64], plus: &[u64], sums: &[u64], out: &mut [Score])
    requires minus { length minus.now ≡ length out.old }
    requires plus { length plus.now ≡ length out.old }
    requires sums { length sums.now ≡ length out.old }
    ensures { (k : ℕ) → k < length out.new → points_at out.new k ≡ tally_total (stored_tally (slice_index minus.now k) (slice_index plus.now k) (slice_index sums.now k)) }
{
    let count = out.len();
    let mut at = 0;
    while count - at >= 8 {
        total_block(minus, plus, sums, out, at);
        at += 8;
    }
    totals_from(minus, plus, sums, out, at);
}

/// The totals of every node.
fn all_totals(minus: &[u64], plus: &[u64], sums: &[u64], out: &mut [Score], form: Form)
    requires minus { length minus.now ≡ length out.old }
    requires plus { length plus.now ≡ length out.old }
    requires sums { length sums.now ≡ length out.old }
    ensures { (k : ℕ) → k < length out.new → points_at out.new k ≡ tally_total (stored_tally (slice_index minus.now k) (slice_index plus.now k) (slice_index sums.now k)) }
{
    match form {
        Form::Lanes => totals_by_lanes(minus, plus, sums, out),
        Form::Plain => totals_from(minus, plus, sums, out, 0),
    }
}

/// Writes the total of each node.
fn write_totals(row: &Row, out: &mut [Score], form: Form)
    requires { length row.now ≡ length out.old }
    ensures { (terms : List (List ℤ)) → Stands row.now terms → out.new ≡ map total_of terms }
{
    all_totals(&row.minus, &row.plus, &row.sums, out, form);
}

/// Writes the total of each node, by lanes. It asks for as many places as the row has nodes.
pub fn totals(row: &Row, out: &mut [Score])
    requires { length row.now ≡ length out.old }
    ensures { (terms : List (List ℤ)) → Stands row.now terms → out.new ≡ map total_of terms }
{
    write_totals(row, out, Form::Lanes);
}

/// The plain form of `totals`: node by node alone.
pub fn totals_plain(row: &Row, out: &mut [Score])
    requires { length row.now ≡ length out.old }
    ensures { (terms : List (List ℤ)) → Stands row.now terms → out.new ≡ map total_of terms }
{
    write_totals(row, out, Form::Plain);
}
