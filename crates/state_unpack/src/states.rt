//! What is known of a cluster, put together from what is kept.

ghost use Rattle.std.specs.Prelude.{◌≡◌, ◌++◌, IfOk, OnOk, length, map};
ghost use Rattle.std.specs.List.{flat_map, range_with_len};
ghost use Rattle.cluster_types.specs.Valid.{KeepsLimits};
ghost use Rattle.state_unpack.specs.Inner.CellsKept as spec;

use crate::cells::cell_from;
use crate::facts::Facts;
use crate::nodes::{facts_or_none, is_fatal, is_stopped, node_from};
use crate::signs::Sign;
use cluster_types::{Cell, Cluster, LeafId, NodeState, Promotion, States, is_online};
use listed::Listed;
use std::alloc::{AllocError, Global};

fn node_states(
    alloc: Global,
    cluster: &Cluster,
    cells: &[Facts],
    signs: &[Option<Sign>],
) -> Result<Vec<NodeState>, AllocError>
    requires { KeepsLimits cluster.now }
    ensures { IfOk result (λ states. states.items ≡ map (spec.node_from cluster.now cells.now signs.now) (range_with_len 0 (length cluster.now.nodes))) }
{
    let mut states = Vec::with_capacity(alloc, cluster.nodes.len())?;
    for node in 0..cluster.nodes.len() {
        states.push(node_from(cluster, cells, signs, node as u32))?;
    }
    Ok(states)
}

/// Adds what is known of each cell of the leaf, node by node.
fn push_row(
    cluster: &Cluster,
    cells: &[Facts],
    nodes: &[NodeState],
    now: u128,
    leaf: LeafId,
    known: &mut Vec<Cell>,
) -> Result<(), AllocError>
    requires { KeepsLimits cluster.now }
    ensures { OnOk result (known.new.items ≡ known.old.items ++ spec.row_from cluster.now cells.now nodes.now now leaf) }
{
    let fatal = is_fatal(cluster, cells, leaf, now);
    for place in 0..cluster.nodes.len() {
        let node = place as u32;
        let facts = facts_or_none(cluster, cells, leaf, node);
        known.push(cell_from(cluster, leaf, now, fatal, is_online(nodes, node), facts))?;
    }
    Ok(())
}

/// What is known of all cells, leaf by leaf and node by node.
fn all_cells(
    alloc: Global,
    cluster: &Cluster,
    cells: &[Facts],
    nodes: &[NodeState],
    now: u128,
) -> Result<Vec<Cell>, AllocError>
    requires { KeepsLimits cluster.now }
    ensures { IfOk result (λ known. known.items ≡ flat_map (spec.row_from cluster.now cells.now nodes.now now) (range_with_len 0 (length cluster.now.leaves))) }
{
    let mut known = Vec::with_capacity(alloc, cells.len())?;
    for leaf in 0..cluster.leaves.len() {
        push_row(cluster, cells, nodes, now, leaf as u32, &mut known)?;
    }
    Ok(known)
}

/// Per leaf, whether a failure keeps it stopped everywhere.
fn stopped_leaves(
    alloc: Global,
    cluster: &Cluster,
    cells: &[Facts],
    now: u128,
) -> Result<Vec<bool>, AllocError>
    requires { KeepsLimits cluster.now }
    ensures { IfOk result (λ stopped. stopped.items ≡ map (λ r. spec.somewhere spec.is_stopping cluster.now r now cells.now) (range_with_len 0 (length cluster.now.leaves))) }
{
    let mut stopped = Vec::with_capacity(alloc, cluster.leaves.len())?;
    for leaf in 0..cluster.leaves.len() {
        stopped.push(is_stopped(cluster, cells, leaf as u32, now))?;
    }
    Ok(stopped)
}

/// All that is known, by what is kept of the cells and the nodes, where there is quorum or there isn't, at the moment, in seconds.
pub fn states_from(
    alloc: Global,
    cluster: &Cluster,
    cells: &[Facts],
    signs: &[Option<Sign>],
    quorum: bool,
    moment: u64,
    promotions: &[Promotion],
) -> Result<States, AllocError>
    requires { KeepsLimits cluster.now }
    ensures { IfOk result (λ states. states ≡ spec.states_from cluster.now cells.now signs.now quorum moment promotions.now) }
{
    let now = u128::from(moment);
    let nodes = node_states(alloc, cluster, cells, signs)?;
    let known = all_cells(alloc, cluster, cells, nodes.as_slice(), now)?;
    let fail_stop = stopped_leaves(alloc, cluster, cells, now)?;
    let promotions = Vec::from_slice(alloc, promotions)?;
    Ok(States {
        nodes: Listed::from(nodes),
        cells: Listed::from(known),
        fail_stop: Listed::from(fail_stop),
        promotions: Listed::from(promotions),
        quorum,
        moment,
    })
}
