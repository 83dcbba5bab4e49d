//! On which nodes colocations allow a decision.

ghost use Rattle.std.specs.Prelude.{◌≡◌, ◌&&◌};
ghost use Rattle.std.specs.List.{list_all};
ghost use Rattle.cluster_types.specs.Choice as choice;
ghost use Rattle.cluster_types.specs.Tables.{targets_of};
ghost use Rattle.placement.specs.Tests as spec;

use cluster_types::{Cluster, Colocation, Decision, NodeId, Table};

/// Whether the primary holds its role on the node, if the colocation is mandatory and the decision gives the dependent its role.
pub fn has_primary(rule: &Colocation, table: &Table, decision: Decision, node: NodeId) -> bool
    ensures { result ≡ spec.has_primary (targets_of table.now) decision node rule.now }
{
    !(rule.is_mandatory() && decision.is_dependent_in(rule))
        || table.holds_role(rule.primary, rule.primary_role, node)
}

/// Whether the other side doesn't hold its role on the node, if the colocation keeps the two apart and the decision gives one of them its role.
pub fn keeps_apart(rule: &Colocation, table: &Table, decision: Decision, node: NodeId) -> bool
    ensures { result ≡ spec.keeps_apart (targets_of table.now) decision node rule.now }
{
    !rule.is_separation()
        || !(decision.is_dependent_in(rule)
            && table.holds_role(rule.primary, rule.primary_role, node))
            && !(decision.is_primary_in(rule)
                && table.holds_role(rule.dependent, rule.dependent_role, node))
}

fn has_primaries(cluster: &Cluster, table: &Table, decision: Decision, node: NodeId) -> bool
    ensures { result ≡ list_all (spec.has_primary (targets_of table.now) decision node) cluster.now.colocations }
{
    cluster
        .colocations
        .iter()
        .all(|rule| has_primary(rule, table, decision, node))
}

fn is_apart(cluster: &Cluster, table: &Table, decision: Decision, node: NodeId) -> bool
    ensures { result ≡ list_all (spec.keeps_apart (targets_of table.now) decision node) cluster.now.colocations }
{
    cluster
        .colocations
        .iter()
        .all(|rule| keeps_apart(rule, table, decision, node))
}

/// Whether the colocations allow the decision on the node, with the table so far: the primary of each mandatory one of which it gives the dependent its
/// role holds its own there, and nothing that must be apart from it does (Pacemaker Explained, "Placing Resources Relative to other Resources").
pub fn allowed(cluster: &Cluster, table: &Table, decision: Decision, node: NodeId) -> bool
    ensures { result ≡ (choice.has_primaries cluster.now (targets_of table.now) decision node
        && choice.is_apart cluster.now (targets_of table.now) decision node) }
{
    has_primaries(cluster, table, decision, node) && is_apart(cluster, table, decision, node)
}
