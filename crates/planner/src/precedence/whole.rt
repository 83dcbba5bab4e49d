//! All edges.

ghost use Rattle.std.specs.Prelude.{◌≡◌, ◌+◌, ◌*◌, ◌≤◌, AllPairs, Contains, IfOk, length, true};
ghost use Rattle.cluster_types.specs.declared.journal.Action.{Action as ActionOf};
ghost use Rattle.cluster_types.specs.Numbers.{is_earlier};
ghost use Rattle.cluster_types.specs.Plans.{first_gates, most_edges};
ghost use Rattle.cluster_types.specs.Valid.{IsValid};
ghost use Rattle.planner.specs.Joins.{joins_of};
ghost use Rattle.planner.specs.Inner.Places.{places_of};
ghost use Rattle.planner.specs.PrecedenceEdges.{AreEdges};
ghost use Rattle.planner.specs.Inner.Rooms.{Builds};
ghost use Rattle.planner.specs.ActionNames.{IsActionWithin};

use crate::precedence::edge_building::{Building, first_edges};
use crate::precedence::index::leaf_index;
use crate::precedence::inputs::Known;
use crate::precedence::migrating::migrating_flags;
use crate::precedence::rules::{add_colocations, add_orders, add_serials};
use cluster_types::{Action, Cluster, Edges, NoMemory};
use faults::with;
use listed::Listed;
use std::alloc::{AllocError, Global};

/// The edges of all joins.
fn all_joins(alloc: Global, known: &Known) -> Result<Building, AllocError>
    ensures builds { IfOk result (λ building. Builds known.now.cluster.now known.now.actions.now (places_of known.now.actions.now) building.list.items
        building.base (joins_of known.now.cluster.now)) }
    ensures gates { IfOk result (λ building. building.base
        ≤ length known.now.actions.now + first_gates known.now.cluster.now + 512 * length known.now.cluster.now.colocations + 512 * length known.now.cluster.now.orders) }
{
    let mut building = first_edges(alloc, known)?;
    add_colocations(&mut building, alloc, known)?;
    add_orders(&mut building, alloc, known)?;
    Ok(building)
}

/// The edges of all joins, and of all orders of the kind Serialize.
fn all_edges(alloc: Global, known: &Known) -> Result<Edges, NoMemory>
    ensures { IfOk result (AreEdges known.now.cluster.now known.now.actions.now (is_earlier known.now.cluster.now known.now.actions.now)) }
{
    let mut building = all_joins(alloc, known)?;
    add_serials(&mut building, alloc, known)?;
    Ok(Edges {
        positions: building.base,
        list: Listed::from(building.list),
    })
}

/// Which of some actions of a valid cluster must have succeeded before which may begin (rule of this project: `must_precede`): those
/// from whose position the edges lead to the other's, directly or through gates alone. The positions of the actions come first, in the
/// order that they have here; the gates follow. There are at most as many edges as `most_edges` says, and
/// at most as many positions as `most_positions` says.
///
/// The actions stand in the order of their numbers, and their leaves and nodes are those of the cluster. It asks that `most_edges` is at
/// most 2,000,000,000. Out of memory is the only other answer. But for the sorts that orders of the kind Serialize need, the time is
/// linear: in the actions, and for each rule in the nodes and the actions of its leaves.
pub fn edges(alloc: Global, cluster: &Cluster, actions: &[Action]) -> Result<Edges, NoMemory>
    requires valid { IsValid cluster.now }
    requires few { most_edges cluster.now actions.now ≤ 2000000000 }
    requires inside { (a : ActionOf) → Contains actions.now a → IsActionWithin cluster.now a }
    requires in_order { AllPairs (λ x y. is_earlier cluster.now actions.now x y ≡ true) actions.now }
    ensures { IfOk result (AreEdges cluster.now actions.now (is_earlier cluster.now actions.now)) }
{
    let leaves = cluster.leaves.len() as u32;
    let migrating = migrating_flags(alloc, leaves, actions)?;
    let (migrating, index) = with(migrating, leaf_index(alloc, leaves, actions))?;
    let known = Known {
        cluster,
        actions,
        migrating: migrating.as_slice(),
        index: index.as_slice(),
    };
    all_edges(alloc, &known)
}
