//! The edges of an order of the kind Serialize, over the positions of its actions in the order of numbers.

ghost use Rattle.std.specs.Prelude.{◌≡◌, ◌<◌, ◌≤◌, ◌+◌, ◌*◌, [], true, All, OnOk, length, slice_get, unwrap_or};
ghost use Rattle.planner.specs.Chains.{IsChained};
ghost use Rattle.planner.specs.Inner.Chains.{IsChainedSomewhere};
ghost use Rattle.planner.specs.Inner.Groups.{AddsGroup};

use crate::precedence::buckets::node_buckets;
use crate::precedence::chains::{Changes, add_chain};
use crate::precedence::edge_building::Building;
use crate::precedence::inputs::Known;
use cluster_types::{Action, NodeId, Order};
use listed::Listed;
use std::alloc::{AllocError, Global};

/// The chains of an order, each way, for the node where it is local. A leaf with itself needs one.
pub(crate) fn add_both(
    building: &mut Building,
    actions: &[Action],
    order: &Order,
    node: NodeId,
    places: &[u32],
) -> Result<(), AllocError>
    requires within { All (λ place. place < length actions.now) places.now }
    requires enough { length actions.now ≤ building.old.base }
    requires room { building.old.base + 2 * (length places.now + 1) < 4294967296 }
    ensures adds { OnOk result (AddsGroup (length actions.now) building.old.list.items building.new.list.items building.old.base building.new.base (3 * length places.now)
        (IsChained actions.now order.now places.now node)) }
    ensures room { OnOk result (building.new.base ≤ building.old.base + 2 * (length places.now + 1)) }
{
    let first = Changes {
        leaf: order.first,
        local: order.local,
        node,
    };
    let other = Changes {
        leaf: order.then_leaf,
        local: order.local,
        node,
    };
    add_chain(building, actions, first, other, places)?;
    if order.first == order.then_leaf {
        return Ok(());
    }
    add_chain(building, actions, other, first, places)
}

/// The positions of a node.
fn bucket<'a>(buckets: &'a [Listed<u32>], node: NodeId) -> &'a [u32]
    requires { node < length buckets.now }
    ensures { result.now ≡ unwrap_or (slice_get buckets.now node) [] }
{
    buckets[node as usize].as_slice()
}

/// The chains of a local order, in time linear in the nodes and the positions.
fn add_by_node(
    building: &mut Building,
    alloc: Global,
    known: &Known,
    order: &Order,
    places: &[u32],
) -> Result<(), AllocError>
    requires local { order.now.local ≡ true }
    requires within { All (λ place. place < length known.now.actions.now) places.now }
    requires enough { length known.now.actions.now ≤ building.old.base }
    requires room { building.old.base + 2 * (length places.now + 256) < 4294967296 }
    ensures adds { OnOk result (AddsGroup (length known.now.actions.now) building.old.list.items building.new.list.items building.old.base building.new.base
        (3 * length places.now) (IsChainedSomewhere known.now.actions.now order.now places.now)) }
    ensures room { OnOk result (building.new.base ≤ building.old.base + 2 * (length places.now + 256)) }
{
    let buckets = node_buckets(alloc, known, places)?;
    for node in 0..known.cluster.nodes.len() as u32 {
        add_both(
            building,
            known.actions,
            order,
            node,
            bucket(buckets.as_slice(), node),
        )?;
    }
    Ok(())
}

/// The chains of an order, for each node where it is local, and else one for all.
pub(crate) fn add_chains(
    building: &mut Building,
    alloc: Global,
    known: &Known,
    order: &Order,
    places: &[u32],
) -> Result<(), AllocError>
    requires within { All (λ place. place < length known.now.actions.now) places.now }
    requires enough { length known.now.actions.now ≤ building.old.base }
    requires room { building.old.base + 2 * (length places.now + 256) < 4294967296 }
    ensures adds { OnOk result (AddsGroup (length known.now.actions.now) building.old.list.items building.new.list.items building.old.base building.new.base
        (3 * length places.now) (IsChainedSomewhere known.now.actions.now order.now places.now)) }
    ensures room { OnOk result (building.new.base ≤ building.old.base + 2 * (length places.now + 256)) }
{
    if order.local {
        add_by_node(building, alloc, known, order, places)
    } else {
        add_both(building, known.actions, order, 0, places)
    }
}
