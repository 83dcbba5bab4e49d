//! What is known of nodes and leaves, by what is kept of their cells.

ghost use Rattle.std.specs.Prelude.{◌≡◌, false, unwrap_or};
ghost use Rattle.cluster_types.specs.Valid.{KeepsLimits};
ghost use Rattle.state_unpack.specs.Inner.CellsKept as spec;
ghost use Rattle.state_unpack.specs.Inner.Facts.{no_facts};
ghost use Rattle.state_unpack.specs.KeptCells.{cell_in};
ghost use Rattle.state_unpack.specs.declared.facts.Facts.{Facts as FactsOf};
ghost use Rattle.std.specs.Option.{option_map_or};

use crate::cells::counted_of;
use crate::facts::Facts;
use crate::signs::{Sign, state_by_sign};
use cluster_types::{Cluster, LeafId, NodeId, NodeState, cell_place};
use listed::value_at;

/// What is kept of a cell.
pub fn facts_at(cluster: &Cluster, cells: &[Facts], leaf: LeafId, node: NodeId) -> Option<Facts>
    requires { KeepsLimits cluster.now }
    ensures { result ≡ cell_in cluster.now cells.now leaf node }
{
    cells
        .get(cell_place(cluster.nodes.len(), leaf, node))
        .copied()
}

/// What is kept of a cell, or what no event tells where there is no such cell.
pub fn facts_or_none(cluster: &Cluster, cells: &[Facts], leaf: LeafId, node: NodeId) -> Facts
    requires { KeepsLimits cluster.now }
    ensures { result ≡ unwrap_or (cell_in cluster.now cells.now leaf node) no_facts }
{
    facts_at(cluster, cells, leaf, node).unwrap_or(Facts::none())
}

fn wants_fence(facts: Option<Facts>) -> bool
    ensures { result ≡ option_map_or (λ (facts : FactsOf). facts.tally.fence) facts false }
{
    match facts {
        Some(facts) => facts.tally.fence,
        None => false,
    }
}

/// Whether a failure in force of some leaf wants the node fenced.
fn is_blamed(cluster: &Cluster, cells: &[Facts], node: NodeId) -> bool
    requires { KeepsLimits cluster.now }
    ensures { result ≡ spec.is_blamed cluster.now node cells.now }
{
    (0..cluster.leaves.len() as u32).any(|leaf| wants_fence(facts_at(cluster, cells, leaf, node)))
}

fn is_fatal_there(cluster: &Cluster, leaf: LeafId, now: u128, facts: Option<Facts>) -> bool
    ensures { result ≡ option_map_or (λ facts. spec.is_fatal (spec.counted_of cluster.now leaf now facts)) facts false }
{
    match facts {
        Some(facts) => counted_of(cluster, leaf, now, facts).fatal,
        None => false,
    }
}

/// Whether a failure on some node keeps the leaf from all nodes at the moment `now`, in seconds.
pub fn is_fatal(cluster: &Cluster, cells: &[Facts], leaf: LeafId, now: u128) -> bool
    requires { KeepsLimits cluster.now }
    ensures { result ≡ spec.somewhere spec.is_fatal cluster.now leaf now cells.now }
{
    (0..cluster.nodes.len() as u32).any(|node| is_fatal_there(
        cluster,
        leaf,
        now,
        facts_at(cluster, cells, leaf, node),
    ))
}

fn is_stopped_there(cluster: &Cluster, leaf: LeafId, now: u128, facts: Option<Facts>) -> bool
    ensures { result ≡ option_map_or (λ facts. spec.is_stopping (spec.counted_of cluster.now leaf now facts)) facts false }
{
    match facts {
        Some(facts) => counted_of(cluster, leaf, now, facts).stop,
        None => false,
    }
}

/// Whether a failure on some node keeps the leaf stopped on all nodes at the moment `now`, in seconds.
pub fn is_stopped(cluster: &Cluster, cells: &[Facts], leaf: LeafId, now: u128) -> bool
    requires { KeepsLimits cluster.now }
    ensures { result ≡ spec.somewhere spec.is_stopping cluster.now leaf now cells.now }
{
    (0..cluster.nodes.len() as u32).any(|node| is_stopped_there(
        cluster,
        leaf,
        now,
        facts_at(cluster, cells, leaf, node),
    ))
}

/// The state of a node.
pub fn node_from(
    cluster: &Cluster,
    cells: &[Facts],
    signs: &[Option<Sign>],
    node: NodeId,
) -> NodeState
    requires { KeepsLimits cluster.now }
    ensures { result ≡ spec.node_from cluster.now cells.now signs.now node }
{
    state_by_sign(
        cluster.properties.fencing,
        is_blamed(cluster, cells, node),
        value_at(signs, node as usize),
    )
}
