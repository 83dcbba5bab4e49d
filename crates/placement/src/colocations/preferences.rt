//! How much colocations prefer a decision on a node.

ghost use Rattle.std.specs.Prelude.{◌≡◌, ◌≤ℤ◌, pos, neg_ℤ};
ghost use Rattle.cluster_types.specs.Choice as choice;
ghost use Rattle.cluster_types.specs.Tables.{targets_of};
ghost use Rattle.cluster_types.specs.Valid.{KeepsLimits};
ghost use Rattle.placement.specs.Tests as spec;

use cluster_types::{Cluster, Colocation, Decision, NodeId, Table};
use score::{Score, cut};

/// Whether the colocation is finite and counts for the decision on the node, since its primary holds its role there.
pub fn counts(rule: &Colocation, table: &Table, decision: Decision, node: NodeId) -> bool
    ensures { result ≡ spec.counts (targets_of table.now) decision node rule.now }
{
    !rule.is_mandatory()
        && !rule.is_separation()
        && decision.is_dependent_in(rule)
        && table.holds_role(rule.primary, rule.primary_role, node)
}

/// The points of a colocation that counts, and 0 for another.
fn points(rule: &Colocation, table: &Table, decision: Decision, node: NodeId) -> i64
    ensures value { result ≡ spec.points (targets_of table.now) decision node rule.now }
    ensures low { neg_ℤ (pos 1000000) ≤ℤ result }
    ensures high { result ≤ℤ pos 1000000 }
{
    if counts(rule, table, decision, node) {
        i64::from(rule.score.points)
    } else {
        0
    }
}

/// How much the colocations prefer the decision on the node, with the table so far: the total of the finite ones of which it gives the dependent its
/// role and whose primary holds its role there (Pacemaker Explained, "Placing Resources Relative to other Resources"). It asks for a cluster within
/// the limits.
pub fn preference(cluster: &Cluster, table: &Table, decision: Decision, node: NodeId) -> Score
    requires { KeepsLimits cluster.now }
    ensures { result ≡ choice.preference cluster.now (targets_of table.now) decision node }
{
    let mut sum = 0;
    for rule in cluster.colocations.as_slice() {
        sum += points(rule, table, decision, node);
    }
    cut(sum)
}
