//! The positions of the actions that change a cell, node by node.

ghost use Rattle.std.specs.Prelude.{◌≡◌, ◌<◌, All, IfOk, length, vec_len};
ghost use Rattle.planner.specs.Inner.Chains as spec;
ghost use Rattle.planner.specs.Inner.Chains.{AreBuckets};

use crate::precedence::index::add_place;
use crate::precedence::inputs::Known;
use crate::precedence::keys::{Key, change_key};
use cluster_types::{Action, NodeId};
use listed::{Listed, empty_lists};
use std::alloc::{AllocError, Global};

fn changed_node(key: Option<Key>) -> Option<NodeId>
    ensures { result ≡ spec.changed_node key }
{
    match key {
        Some(key) => Some(key.node),
        None => None,
    }
}

/// The node of the cell that the action at the position changes, if it changes one.
fn node_at(actions: &[Action], place: u32) -> Option<NodeId>
    requires { place < length actions.now }
    ensures { result ≡ spec.changed_node_at actions.now place }
{
    changed_node(change_key(actions[place as usize]))
}

/// Of each node the positions at which one of its cells changes, in time linear in the nodes and the positions.
pub(crate) fn node_buckets(
    alloc: Global,
    known: &Known,
    places: &[u32],
) -> Result<Vec<Listed<u32>>, AllocError>
    requires { All (λ place. place < length known.now.actions.now) places.now }
    ensures long { IfOk result (λ buckets. vec_len buckets ≡ length known.now.cluster.now.nodes) }
    ensures buckets { IfOk result (λ buckets. AreBuckets known.now.actions.now places.now (length known.now.cluster.now.nodes) buckets.items) }
{
    let mut buckets = empty_lists(alloc, known.cluster.nodes.len() as u32)?;
    for place in places {
        add_place(&mut buckets, node_at(known.actions, *place), *place)?;
    }
    Ok(buckets)
}
