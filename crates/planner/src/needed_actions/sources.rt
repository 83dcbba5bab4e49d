//! From which nodes leaves migrate.

ghost use Rattle.std.specs.Prelude.{◌≡◌};
ghost use Rattle.cluster_types.specs.Valid.{KeepsLimits};
ghost use Rattle.planner.specs.Inner.Actions as actions;
ghost use Rattle.planner.specs.Inner.Works.{marks_of, needs_of};

use crate::needed_actions::work::CellWork;
use cluster_types::{CellState, Cluster, LeafId, NodeId, Op};

/// Whether the leaf may run on no other node.
fn is_alone(cluster: &Cluster, work: &CellWork, leaf: LeafId, node: NodeId) -> bool
    requires { KeepsLimits cluster.now }
    ensures { result ≡ actions.is_alone cluster.now (needs_of work.now) leaf node }
{
    let nodes = cluster.nodes.len() as u32;
    (0..nodes).all(|other| node == other || !work.need(leaf, other).may)
}

/// Whether the leaf runs on the node, and nowhere else, and is to be stopped there.
fn is_source(cluster: &Cluster, work: &CellWork, leaf: LeafId, node: NodeId) -> bool
    requires { KeepsLimits cluster.now }
    ensures { result ≡ actions.is_source cluster.now (needs_of work.now) (marks_of work.now) leaf node }
{
    is_alone(cluster, work, leaf, node)
        && work.need(leaf, node).state == CellState::On
        && work.has_step(Op::Stop, leaf, node)
}

/// The first node on which the leaf may run.
fn first_node(cluster: &Cluster, work: &CellWork, leaf: LeafId) -> Option<NodeId>
    requires { KeepsLimits cluster.now }
    ensures { result ≡ actions.first_node cluster.now (needs_of work.now) leaf }
{
    let nodes = cluster.nodes.len() as u32;
    (0..nodes).find(|node| work.need(leaf, *node).may)
}

/// Whether the leaf may migrate, as far as it goes by itself: it may be moved live, is no clone's, and none of the rules keeps it.
fn may_migrate(cluster: &Cluster, leaf: LeafId, free: bool) -> bool
    ensures { result ≡ actions.may_be_sent cluster.now leaf free }
{
    cluster.may_migrate(leaf) && !cluster.is_cloned(leaf) && !cluster.is_promotable(leaf) && free
}

/// The node from which the leaf migrates, wherever it is to be started, and None where it doesn't migrate.
pub fn source_of(cluster: &Cluster, work: &CellWork, leaf: LeafId, free: bool) -> Option<NodeId>
    requires { KeepsLimits cluster.now }
    ensures { result ≡ actions.migration_source cluster.now (needs_of work.now) (marks_of work.now) free leaf }
{
    if !may_migrate(cluster, leaf, free) {
        return None;
    }
    match first_node(cluster, work, leaf) {
        Some(node) if is_source(cluster, work, leaf, node) => Some(node),
        _ => None,
    }
}
