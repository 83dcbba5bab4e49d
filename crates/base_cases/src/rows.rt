//! What `score` works out of rows, by lanes and in the plain form.

ghost use Rattle.std.specs.Prelude.{◌≡◌, ℕ, ◌+◌, ◌<◌, ◌≤◌, ◌≤ℤ◌, neg_ℤ, pos, true, length};
ghost use Rattle.score.specs.NodeSet.{has};
ghost use Rattle.score.specs.Inner.SmallRows.{IsSmallRow};

use crate::checked::assert_number;
use score::{
    NodeSet, Row, Score, add_row, add_row_plain, candidates, candidates_plain, greatest,
    greatest_plain, totals, totals_plain,
};
use std::alloc::Global;
use std::process::Abort;

const LENGTHS: &[u32] = &[0, 1, 7, 8, 9, 63, 64, 65, 255, 256];

const MINUS: i32 = -1_000_000;

const PLUS: i32 = 1_000_000;

const MANY: i32 = 600_000;

/// Adds one term to a row that holds the terms of so many calls.
fn put_next(row: &mut Row, calls: usize, node: u32, points: i32)
    requires node { node < length row.old }
    requires points { (neg_ℤ (pos 1000000) ≤ℤ points) × (points ≤ℤ pos 1000000) }
    requires few { calls < 4 }
    requires small { IsSmallRow calls row.old }
    ensures nodes { length row.new ≡ length row.old }
    ensures small { IsSmallRow (calls + 1) row.new }
{
    row.put(node, Score { points });
}

/// A row with these terms, each a node and its points.
fn row_with(rt: &impl Abort, alloc: Global, nodes: u32, terms: &[(u32, i32)]) -> Row
    requires nodes { nodes ≤ 256 }
    requires few { length terms.now ≤ 4 }
    ensures nodes { length result ≡ nodes }
    ensures small { IsSmallRow 4 result }
{
    let mut row = Row::zeros(alloc, nodes).expect(rt, "memory");
    for i in 0..terms.len() {
        let (node, points) = terms[i];
        assert!(rt; node < nodes);
        assert!(rt; MINUS <= points);
        assert!(rt; points <= PLUS);
        put_next(&mut row, i, node, points);
    }
    row
}

/// The score that a node of the table has: -INFINITY is at the last node, INFINITY at the first, and twice 600,000 at the one in the middle.
fn expected(nodes: usize, node: usize) -> Score {
    if nodes.saturating_sub(1) == node {
        Score { points: MINUS }
    } else if node == 0 || node == nodes / 2 {
        Score { points: PLUS }
    } else {
        Score { points: 0 }
    }
}

/// Whether the scores are those of the table.
fn are_expected(scores: &[Score]) -> bool {
    for node in 0..scores.len() {
        if scores[node] != expected(scores.len(), node) {
            return false;
        }
    }
    true
}

/// Whether the totals of a row are those of the table, by both forms.
fn has_expected_totals(row: &Row, nodes: u32) -> bool
    requires nodes { nodes ≤ 256 }
    requires row { length row.now ≡ nodes }
{
    let count = nodes as usize;
    let mut by_lanes = [Score { points: 7 }; 256];
    let mut plain = [Score { points: 7 }; 256];
    totals(row, &mut by_lanes[..count]);
    totals_plain(row, &mut plain[..count]);
    are_expected(&by_lanes[..count]) && are_expected(&plain[..count])
}

/// The row of the table with so many nodes.
fn whole_row(rt: &impl Abort, alloc: Global, nodes: u32) -> Row
    requires nodes { nodes ≤ 256 }
    ensures nodes { length result ≡ nodes }
{
    let terms = [
        (nodes.saturating_sub(1), MINUS),
        (0, PLUS),
        (nodes / 2, MANY),
        (nodes / 2, MANY),
    ];
    row_with(rt, alloc, nodes, &terms[..4 * nodes.min(1) as usize])
}

#[test]
fn totals_of_the_table(rt: HostRuntime) {
    for nodes in LENGTHS {
        assert!(rt; *nodes <= 256);
        let row = whole_row(&rt, rt.alloc(), *nodes);
        assert_number(&rt, has_expected_totals(&row, *nodes), i64::from(*nodes));
    }
}

/// A row of so many nodes with one of the terms of the table, and one of those of the node in the middle.
fn half_row(rt: &impl Abort, alloc: Global, nodes: u32, node: u32, points: i32) -> Row
    requires nodes { nodes ≤ 256 }
    ensures nodes { length result ≡ nodes }
    ensures small { IsSmallRow 4 result }
{
    let terms = [(node, points), (nodes / 2, MANY)];
    row_with(rt, alloc, nodes, &terms[..2 * nodes.min(1) as usize])
}

/// Whether the sums of two half rows are those of the table, by both forms.
fn has_expected_sums(rt: &impl Abort, alloc: Global, nodes: u32) -> bool
    requires { nodes ≤ 256 }
{
    let last = nodes.saturating_sub(1);
    let other = half_row(rt, alloc, nodes, 0, PLUS);
    let mut by_lanes = half_row(rt, alloc, nodes, last, MINUS);
    add_row(&mut by_lanes, &other);
    let mut plain = half_row(rt, alloc, nodes, last, MINUS);
    add_row_plain(&mut plain, &other);
    has_expected_totals(&by_lanes, nodes) && has_expected_totals(&plain, nodes)
}

#[test]
fn sums_of_the_table(rt: HostRuntime) {
    for nodes in LENGTHS {
        assert!(rt; *nodes <= 256);
        let holds = has_expected_sums(&rt, rt.alloc(), *nodes);
        assert_number(&rt, holds, i64::from(*nodes));
    }
}

/// The nodes below a bound, but for every third.
fn most_of(bound: u32) -> NodeSet
    requires { bound ≤ 256 }
    ensures { (n : ℕ) → has result n ≡ true → n < bound }
{
    let mut set = NodeSet::none();
    for node in 0..bound {
        if node % 3 != 1 {
            set.put(node);
        }
    }
    set
}

/// The scores of the table, and 7 points behind them.
fn expected_scores(nodes: usize) -> [Score; 256]
    requires { nodes ≤ 256 }
{
    let mut scores = [Score { points: 7 }; 256];
    for node in 0..nodes {
        scores[node] = expected(nodes, node);
    }
    scores
}

/// Whether a set has the candidates of the table, and no other node.
fn has_expected_candidates(set: &NodeSet, nodes: usize) -> bool {
    for node in 0..256u32 {
        let at = node as usize;
        let want = at < nodes && node % 3 != 1 && expected(nodes, at).points >= 0;
        if set.has(node) != want {
            return false;
        }
    }
    true
}

/// Whether the candidates are those of the table, by both forms.
fn finds_candidates(nodes: u32) -> bool
    requires { nodes ≤ 256 }
{
    let count = nodes as usize;
    let scores = expected_scores(count);
    let within = most_of(nodes);
    let by_lanes = candidates(&scores[..count], &within);
    let plain = candidates_plain(&scores[..count], &within);
    has_expected_candidates(&by_lanes, count) && has_expected_candidates(&plain, count)
}

#[test]
fn candidates_of_the_table(rt: HostRuntime) {
    for nodes in LENGTHS {
        assert!(rt; *nodes <= 256);
        assert_number(&rt, finds_candidates(*nodes), i64::from(*nodes));
    }
}

/// A set of these nodes, which are below a bound.
fn set_of(rt: &impl Abort, bound: u32, nodes: &[u32]) -> NodeSet
    requires { bound ≤ 256 }
    ensures { (n : ℕ) → has result n ≡ true → n < bound }
{
    let mut set = NodeSet::none();
    for node in nodes {
        assert!(rt; *node < bound);
        set.put(*node);
    }
    set
}

/// Loads of the four nodes, the nodes to choose from, and the one that is chosen.
type Choice = ([u32; 4], &'static [u32], Option<u32>);

const GREATEST: &[Choice] = &[
    ([0, 0, 1, 1], &[0, 1, 2, 3], Some(2)),
    ([0, 0, 1, 1], &[0, 1], Some(0)),
    ([0, 0, 2, 1], &[0, 1, 2, 3], Some(3)),
    ([0, 0, 1, 1], &[], None),
];

/// Chooses among scores of 5, 5, 7 and 7, by both forms.
fn choose(rt: &impl Abort, (loads, nodes, want): &Choice) {
    let scores = [
        Score { points: 5 },
        Score { points: 5 },
        Score { points: 7 },
        Score { points: 7 },
    ];
    let among = set_of(rt, 4, nodes);
    assert!(rt; greatest(&scores, loads, &among) == *want);
    assert!(rt; greatest_plain(&scores, loads, &among) == *want);
}

#[test]
fn the_greatest_of_four(rt: HostRuntime) {
    for choice in GREATEST {
        choose(&rt, choice);
    }
}

/// Whether a set has the first node and the last, and no other.
fn has_the_ends(set: &NodeSet) -> bool {
    for node in 0..256u32 {
        if set.has(node) != (node == 0 || node == 255) {
            return false;
        }
    }
    true
}

#[test]
fn a_node_is_taken_out(rt: HostRuntime) {
    let mut set = set_of(&rt, 256, &[0, 7, 255]);
    set.take_out(7);
    set.take_out(8);
    assert!(rt; has_the_ends(&set));
}
