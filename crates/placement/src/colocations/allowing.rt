//! On which nodes colocations allow a decision.

ghost use Rattle.std.specs.Prelude.{◌≡◌, ◌&&◌, ◌<◌, ◌≤◌, ℕ, true, length};
ghost use Rattle.cluster_types.specs.Choice as choice;
ghost use Rattle.cluster_types.specs.Tables.{targets_of};
ghost use Rattle.score.specs.NodeSet.{has};
ghost use Rattle.placement.specs.Inner.AllowedNodes as spec;

use crate::{has_primary, keeps_apart};
use cluster_types::{Cluster, Colocation, Decision, NodeId, Table};
use score::NodeSet;

/// Whether the colocation may forbid the decision a node.
fn is_strict(rule: &Colocation, decision: Decision) -> bool
    ensures { result ≡ spec.is_strict decision rule.now }
{
    rule.is_mandatory() && decision.is_dependent_in(rule)
        || rule.is_separation() && (decision.is_dependent_in(rule) || decision.is_primary_in(rule))
}

fn allows(rule: &Colocation, table: &Table, decision: Decision, node: NodeId) -> bool
    ensures { result ≡ spec.allows (targets_of table.now) decision node rule.now }
{
    has_primary(rule, table, decision, node) && keeps_apart(rule, table, decision, node)
}

/// Those of some nodes on which the colocation allows the decision. It goes over the nodes only where it may forbid one.
fn cut(rule: &Colocation, table: &Table, decision: Decision, nodes: u32, among: NodeSet) -> NodeSet
    requires few { nodes ≤ 256 }
    requires there { (n : ℕ) → has among n ≡ true → n < nodes }
    ensures { (n : ℕ) → has result n ≡ (has among n && spec.allows (targets_of table.now) decision n rule.now) }
{
    if !is_strict(rule, decision) {
        return among;
    }
    NodeSet::of(nodes, |node| {
        among.has(node) && allows(rule, table, decision, node)
    })
}

/// Those of some nodes on which all colocations allow the decision, with the table so far (Pacemaker Explained, "Placing Resources Relative to other
/// Resources").
pub(crate) fn allowed_nodes(
    cluster: &Cluster,
    table: &Table,
    decision: Decision,
    among: NodeSet,
) -> NodeSet
    requires few { length cluster.now.nodes ≤ 256 }
    requires there { (n : ℕ) → has among n ≡ true → n < length cluster.now.nodes }
    ensures { (n : ℕ) → has result n ≡ (has among n && (choice.has_primaries cluster.now (targets_of table.now) decision n
        && choice.is_apart cluster.now (targets_of table.now) decision n)) }
{
    let nodes = cluster.nodes.len() as u32;
    let mut left = among;
    for rule in cluster.colocations.as_slice() {
        left = cut(rule, table, decision, nodes, left);
    }
    left
}
