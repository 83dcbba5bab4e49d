//! The row of a leaf's own terms.

ghost use Rattle.std.specs.Prelude.{◌≡◌, ◌+◌, ◌*◌, ◌<◌, ◌≤◌, ℕ, length, slice_get, IfOk};
ghost use Rattle.cluster_types.specs.Valid.{IsValid};
ghost use Rattle.score.specs.NodeSet.{has};
ghost use Rattle.placement.specs.OwnRows as spec;
ghost use Rattle.placement.specs.Rows.{IsRow};

use crate::totals::locations::{given_row, unnamed_nodes};
use crate::totals::putting::put_each;
use cluster_types::{Cluster, LeafId, NodeId, Role, States, cell_place};
use score::{NoMemory, NodeSet, Row, Score};
use std::alloc::Global;

/// Whether the leaf is active on a node of the cluster, by what is known of its cell. Where nothing is known it isn't. It asks for at most 256 nodes.
pub fn is_active(cluster: &Cluster, states: &States, leaf: LeafId, node: NodeId) -> bool
    requires { length cluster.now.nodes ≤ 256 }
    ensures { result ≡ spec.is_active_by cluster.now states.now leaf node }
{
    let place = cell_place(cluster.nodes.len(), leaf, node);
    match states.cells.as_slice().get(place) {
        Some(cell) => cell.state.is_active(),
        None => false,
    }
}

/// Whether its failures ban the leaf from a node of the cluster, by what is known of its cell. Where nothing is known they don't. It asks for at most 256
/// nodes.
pub fn is_banned(cluster: &Cluster, states: &States, leaf: LeafId, node: NodeId) -> bool
    requires { length cluster.now.nodes ≤ 256 }
    ensures { result ≡ spec.is_banned_by cluster.now states.now leaf node }
{
    let place = cell_place(cluster.nodes.len(), leaf, node);
    match states.cells.as_slice().get(place) {
        Some(cell) => cell.banned,
        None => false,
    }
}

/// How much the leaf wants to stay where it is active, and 0 for a leaf that isn't there.
pub fn stickiness_of(cluster: &Cluster, leaf: LeafId) -> Score
    ensures { result ≡ spec.stickiness_of cluster.now leaf }
{
    match cluster.leaf(leaf) {
        Some(found) => found.stickiness,
        None => Score { points: 0 },
    }
}

/// Adds the leaf's stickiness where it is active.
fn put_stickiness(cluster: &Cluster, states: &States, leaf: LeafId, row: Row) -> Row
    requires valid { IsValid cluster.now }
    requires row { IsRow (length cluster.now.nodes) (spec.given_by cluster.now states.now leaf) row }
    ensures { IsRow (length cluster.now.nodes) (spec.sticky_by cluster.now states.now leaf) result }
{
    let nodes = cluster.nodes.len() as u32;
    let active = NodeSet::of(nodes, |node| is_active(cluster, states, leaf, node));
    let mut row = row;
    put_each(&mut row, nodes, stickiness_of(cluster, leaf), &active);
    row
}

/// Adds -INFINITY where its failures ban the leaf.
fn put_bans(cluster: &Cluster, states: &States, leaf: LeafId, row: Row) -> Row
    requires valid { IsValid cluster.now }
    requires row { IsRow (length cluster.now.nodes) (spec.sticky_by cluster.now states.now leaf) row }
    ensures { IsRow (length cluster.now.nodes) (spec.banned_by cluster.now states.now leaf) result }
{
    let nodes = cluster.nodes.len() as u32;
    let banned = NodeSet::of(nodes, |node| is_banned(cluster, states, leaf, node));
    let mut row = row;
    put_each(&mut row, nodes, Score::MINUS_INFINITY, &banned);
    row
}

/// Adds -INFINITY where a location must name the leaf, and none does.
fn put_opt_in(cluster: &Cluster, states: &States, leaf: LeafId, row: Row) -> Row
    requires valid { IsValid cluster.now }
    requires row { IsRow (length cluster.now.nodes) (spec.banned_by cluster.now states.now leaf) row }
    ensures { IsRow (length cluster.now.nodes) (spec.own_by cluster.now states.now leaf) result }
{
    let nodes = cluster.nodes.len() as u32;
    let unnamed = unnamed_nodes(cluster, leaf, states.moment);
    let mut row = row;
    put_each(&mut row, nodes, Score::MINUS_INFINITY, &unnamed);
    row
}

/// The row of the leaf's own terms (Pacemaker Explained, "Scores"): its locations, its stickiness, and what keeps it away.
pub(crate) fn own_row(
    alloc: Global,
    cluster: &Cluster,
    states: &States,
    leaf: LeafId,
) -> Result<Row, NoMemory>
    requires { IsValid cluster.now }
    ensures { IfOk result (λ row. IsRow (length cluster.now.nodes) (spec.own_by cluster.now states.now leaf) row) }
{
    let given = given_row(alloc, cluster, leaf, Role::Started, states.moment)?;
    let sticky = put_stickiness(cluster, states, leaf, given);
    let banned = put_bans(cluster, states, leaf, sticky);
    Ok(put_opt_in(cluster, states, leaf, banned))
}
