ghost use Rattle.std.specs.Prelude.{◌≡◌, ℕ, ◌+◌, ◌<◌, ◌≤◌, ◌&&◌, length, true, not, if◌then◌else◌};
ghost use Rattle.std.specs.Int.{is_negative};
ghost use Rattle.score.specs.Choice.{has_enough};
ghost use Rattle.score.specs.Inner.Choice.{SaysEnough};
ghost use Rattle.score.specs.NodeSet.{has, is_set};

use crate::form::Form;
use crate::lanes::reaching;
use crate::{NodeSet, Score};

/// The bit of a total: 1 where it is 0 or more.
fn bit_of(total: Score) -> u64
    ensures { result ≡ (if is_negative total then 0 else 1) }
{
    u64::from(total.points >= 0)
}

/// The word of the nodes from the first on, below an end, by that of the nodes below another: node by node.
fn word_from(totals: &[Score], first: usize, from: usize, end: usize, before: u64) -> u64
    requires end { end ≤ length totals.now }
    requires few { end ≤ first + 64 }
    requires first { first ≤ from }
    requires from { from ≤ end }
    requires before { SaysEnough totals.now first from before }
    ensures { SaysEnough totals.now first end result }
{
    let mut word = before;
    for node in from..end {
        word |= bit_of(totals[node]) << (node - first);
    }
    word
}

/// The word of the nodes from the first on, below an end, by lanes.
fn word_by_lanes(totals: &[Score], first: usize, end: usize) -> u64
    requires end { end ≤ length totals.now }
    requires few { end ≤ first + 64 }
    requires first { first ≤ end }
    requires nodes { first + 64 ≤ 256 }
    ensures { SaysEnough totals.now first end result }
{
    let mut word = 0;
    let mut at = first;
    while end - at >= 8 {
        word |= reaching(totals, at, Score { points: 0 }) << (at - first);
        at += 8;
    }
    word_from(totals, first, at, end, word)
}

/// The word of 64 nodes from the first on, as far as they have totals.
fn word_of(totals: &[Score], first: usize, form: Form) -> u64
    requires { first + 64 ≤ 256 }
    ensures { SaysEnough totals.now first (length totals.now) result }
{
    let end = totals.len().min(first + 64);
    if end <= first {
        return 0;
    }
    match form {
        Form::Lanes => word_by_lanes(totals, first, end),
        Form::Plain => word_from(totals, first, first, end, 0),
    }
}

/// The nodes of the set whose total is 0 or more.
fn kept(totals: &[Score], within: &NodeSet, form: Form) -> NodeSet
    requires { (n : ℕ) → has within.now n ≡ true → n < length totals.now }
    ensures { (n : ℕ) → has result n ≡ (has within.now n && has_enough totals.now n) }
{
    let mut kept = NodeSet::none();
    for place in 0..4 {
        kept.words[place] = within.words[place] & word_of(totals, 64 * place, form);
    }
    kept
}

/// The nodes of the set whose total is 0 or more, by lanes. It asks for a total of each node of the set.
pub fn candidates(totals: &[Score], within: &NodeSet) -> NodeSet
    requires { (n : ℕ) → has within.now n ≡ true → n < length totals.now }
    ensures { (n : ℕ) → has result n ≡ (has within.now n && has_enough totals.now n) }
{
    kept(totals, within, Form::Lanes)
}

/// The plain form of `candidates`: node by node alone.
pub fn candidates_plain(totals: &[Score], within: &NodeSet) -> NodeSet
    requires { (n : ℕ) → has within.now n ≡ true → n < length totals.now }
    ensures { (n : ℕ) → has result n ≡ (has within.now n && has_enough totals.now n) }
{
    kept(totals, within, Form::Plain)
}
