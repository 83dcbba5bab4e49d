//! The last of the nodes that a decision chooses.

ghost use Rattle.std.specs.Prelude.{◌≡◌, ◌<◌, ◌≤◌, ℕ, true, length, find};
ghost use Rattle.std.specs.List.{list_all, range_with_len};
ghost use Rattle.account_text.specs.Inner.VerdictsByStates as spec;

use cluster_types::NodeId;
use score::{NodeSet, Score};

/// Whether the one node is chosen before the other: by a greater total, then by fewer leaves, then since it is earlier.
fn goes_before(totals: &[Score], loads: &[u32], node: NodeId, other: NodeId) -> bool
    requires node { node < length totals.now }
    requires other { other < length totals.now }
    requires loads { length loads.now ≡ length totals.now }
    ensures { result ≡ spec.goes_ahead totals.now loads.now node other }
{
    let one = totals[node as usize];
    let two = totals[other as usize];
    if one.points != two.points {
        return one.points > two.points;
    }
    let load = loads[node as usize];
    let other_load = loads[other as usize];
    load < other_load || load == other_load && node < other
}

/// Whether the other node goes before the node, if it is another and chosen.
fn stays_before(
    totals: &[Score],
    loads: &[u32],
    chosen: &NodeSet,
    other: NodeId,
    node: NodeId,
) -> bool
    requires few { length totals.now ≤ 256 }
    requires other { other < length totals.now }
    requires node { node < length totals.now }
    requires loads { length loads.now ≡ length totals.now }
    ensures { result ≡ spec.stays_before totals.now loads.now chosen.now other node }
{
    !chosen.has(other) || (other == node || goes_before(totals, loads, other, node))
}

/// Whether each other node that is chosen goes before the node.
fn all_go_before(totals: &[Score], loads: &[u32], chosen: &NodeSet, node: NodeId) -> bool
    requires few { length totals.now ≤ 256 }
    requires node { node < length totals.now }
    requires loads { length loads.now ≡ length totals.now }
    ensures { result ≡ list_all (λ m. spec.stays_before totals.now loads.now chosen.now m node) (range_with_len 0 (length totals.now)) }
{
    (0..totals.len() as u32).all(|other| stays_before(totals, loads, chosen, other, node))
}

/// Whether the node is chosen, and each other that is goes before it.
fn is_last(totals: &[Score], loads: &[u32], chosen: &NodeSet, node: NodeId) -> bool
    requires few { length totals.now ≤ 256 }
    requires node { node < length totals.now }
    requires loads { length loads.now ≡ length totals.now }
    ensures { result ≡ spec.is_last_of totals.now loads.now chosen.now node }
{
    chosen.has(node) && all_go_before(totals, loads, chosen, node)
}

/// The last of the chosen nodes: each other goes before it.
pub(crate) fn last_chosen(totals: &[Score], loads: &[u32], chosen: &NodeSet) -> Option<NodeId>
    requires few { length totals.now ≤ 256 }
    requires loads { length loads.now ≡ length totals.now }
    ensures { result ≡ spec.last_of totals.now loads.now chosen.now }
{
    (0..totals.len() as u32).find(|node| is_last(totals, loads, chosen, *node))
}
