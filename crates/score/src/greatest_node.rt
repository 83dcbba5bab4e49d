ghost use Rattle.std.specs.Prelude.{◌≡◌, ℕ, ◌+◌, ◌<◌, ◌≤◌, length, false, true, Option, IsTrue, IfSome, IfNone, MatchOption, neg_ℤ};
ghost use Rattle.std.specs.Option.{ForSome};
ghost use Rattle.score.specs.Choice.{points_at, GoesBefore, IsGreatest};
ghost use Rattle.score.specs.Inner.Choice.{IsGreatestSoFar};
ghost use Rattle.score.specs.Total.{infinity};
ghost use Rattle.score.specs.NodeSet.{has};

use crate::lanes::reaching;
use crate::{NodeSet, Score};

/// Whether a node goes before one of smaller number.
fn goes_before(totals: &[Score], loads: &[u32], node: usize, other: usize) -> bool
    requires node { node < length totals.now }
    requires other { other < node }
    requires loads { length loads.now ≡ length totals.now }
    ensures yes { IsTrue result → GoesBefore totals.now loads.now node other }
    ensures no { result ≡ false → GoesBefore totals.now loads.now other node }
{
    let ours = totals[node];
    let theirs = totals[other];
    ours > theirs || ours == theirs && loads[node] < loads[other]
}

/// The greatest node below `end`, from the greatest one below `first`, node by node.
fn greatest_from(
    totals: &[Score],
    loads: &[u32],
    among: &NodeSet,
    first: usize,
    end: usize,
    before: Option<usize>,
) -> Option<usize>
    requires totals { end ≤ length totals.now }
    requires loads { length loads.now ≡ length totals.now }
    requires nodes { end ≤ 256 }
    requires first { first ≤ end }
    requires before { IsGreatestSoFar totals.now loads.now among.now first before }
    ensures { IsGreatestSoFar totals.now loads.now among.now end result }
{
    let mut best = before;
    for node in first..end {
        if among.has(node as u32) {
            match best {
                Some(other) if !goes_before(totals, loads, node, other) => {}
                _ => best = Some(node),
            }
        }
    }
    best
}

/// The greatest node below `at + 8`, from the greatest one below `at`. Where lanes show that all eight totals are smaller, none is read alone.
fn greatest_in_block(
    totals: &[Score],
    loads: &[u32],
    among: &NodeSet,
    at: usize,
    before: Option<usize>,
) -> Option<usize>
    requires totals { at + 8 ≤ length totals.now }
    requires loads { length loads.now ≡ length totals.now }
    requires nodes { at + 8 ≤ 256 }
    requires before { IsGreatestSoFar totals.now loads.now among.now at before }
    ensures { IsGreatestSoFar totals.now loads.now among.now (at + 8) result }
{
    match before {
        Some(node) if reaching(totals, at, totals[node]) == 0 => before,
        _ => greatest_from(totals, loads, among, at, at + 8, before),
    }
}

/// The number of a node, if there is one.
fn number_of(node: Option<usize>) -> Option<u32>
    requires { ForSome node (λ n. n < 256) }
    ensures { result ≡ node }
{
    match node {
        Some(n) => Some(n as u32),
        None => None,
    }
}

/// The node of the set with the greatest total, of these the one with the smallest load, of these the one with the smallest number, by lanes.
/// None when the set is empty. It asks for a total of each node of the set, and for as many loads as totals.
#[tactic(auto, unfolding(crate::specs::NodeSet::has))]
pub fn greatest(totals: &[Score], loads: &[u32], among: &NodeSet) -> Option<u32>
    requires nodes { (n : ℕ) → has among.now n ≡ true → n < length totals.now }
    requires loads { length loads.now ≡ length totals.now }
    ensures some { IfSome result (IsGreatest totals.now loads.now among.now) }
    ensures none { IfNone result ((n : ℕ) → has among.now n ≡ false) }
{
    let count = totals.len().min(256);
    let mut best = None;
    let mut at = 0;
    while count - at >= 8 {
        best = greatest_in_block(totals, loads, among, at, best);
        at += 8;
    }
    number_of(greatest_from(totals, loads, among, at, count, best))
}

/// The plain form of `greatest`: node by node alone.
#[tactic(auto, unfolding(crate::specs::NodeSet::has))]
pub fn greatest_plain(totals: &[Score], loads: &[u32], among: &NodeSet) -> Option<u32>
    requires nodes { (n : ℕ) → has among.now n ≡ true → n < length totals.now }
    requires loads { length loads.now ≡ length totals.now }
    ensures some { IfSome result (IsGreatest totals.now loads.now among.now) }
    ensures none { IfNone result ((n : ℕ) → has among.now n ≡ false) }
{
    number_of(greatest_from(totals, loads, among, 0, totals.len().min(256), None))
}
