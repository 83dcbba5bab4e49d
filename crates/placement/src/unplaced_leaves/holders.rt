//! Which rule holds a leaf back.

ghost use Rattle.std.specs.Prelude.{◌≡◌};
ghost use Rattle.std.specs.Option.{option_copied};
ghost use Rattle.cluster_types.specs.Tables.{targets_of};
ghost use Rattle.placement.specs.Inner.Reasoning as spec;

use crate::held_targets::dependencies::Dependency;
use cluster_types::{Cluster, Colocation, Decision, LeafId, NodeId, Order, Table};

/// Whether the dependency holds the leaf back on the node, by the targets in the end.
fn holds_back(targets: &Table, leaf: LeafId, node: NodeId, rule: Option<Dependency>) -> bool
    ensures { result ≡ spec.holds_back targets.now.nodes (targets_of targets.now) leaf node rule }
{
    match rule {
        Some(rule) => {
            Decision::Place(leaf) == Decision::of_role(rule.dependent, rule.dependent_role)
                && !rule.has_primary(targets, node)
        }
        None => false,
    }
}

fn first_colocation<'c>(
    cluster: &'c Cluster,
    targets: &Table,
    leaf: LeafId,
    node: NodeId,
) -> Option<&'c Colocation>
    ensures { option_copied result ≡ spec.first_colocation targets.now.nodes (targets_of targets.now) cluster.now leaf node }
{
    cluster.colocations.iter().find(|rule| holds_back(
        targets,
        leaf,
        node,
        Dependency::of_colocation(*rule),
    ))
}

fn first_order<'c>(
    cluster: &'c Cluster,
    targets: &Table,
    leaf: LeafId,
    node: NodeId,
) -> Option<&'c Order>
    ensures { option_copied result ≡ spec.first_order targets.now.nodes (targets_of targets.now) cluster.now leaf node }
{
    cluster.orders.iter().find(|rule| holds_back(targets, leaf, node, Dependency::of_order(*rule)))
}

/// The id of the rule that holds the leaf back on the node: of the first such colocation, or of the first such order where there is no such
/// colocation.
pub fn holder_id<'c>(
    cluster: &'c Cluster,
    targets: &Table,
    leaf: LeafId,
    node: NodeId,
) -> Option<&'c [u8]>
    ensures { option_copied result ≡ spec.holder_id cluster.now targets.now.nodes (targets_of targets.now) leaf node }
{
    if let Some(rule) = first_colocation(cluster, targets, leaf, node) {
        return Some(rule.id.bytes());
    }
    match first_order(cluster, targets, leaf, node) {
        Some(rule) => Some(rule.id.bytes()),
        None => None,
    }
}
