//! The edges of separations.

ghost use Rattle.std.specs.Prelude.{◌≡◌, ◌+◌, ◌*◌, ◌++◌, ◌<◌, ◌≤◌, List, OnOk, length};
ghost use Rattle.planner.specs.declared.precedence.sides.Join.{Join as JoinOf};
ghost use Rattle.planner.specs.Inner.Gates.{join_edges, key_at};
ghost use Rattle.planner.specs.Inner.Index as indexed;
ghost use Rattle.planner.specs.Joins.{colocation_joins};
ghost use Rattle.planner.specs.Inner.Places.{places_of};
ghost use Rattle.planner.specs.Inner.Rooms as rooms;
ghost use Rattle.planner.specs.Inner.Rooms.{Builds};

use crate::precedence::edge_building::Building;
use crate::precedence::index::places_in;
use crate::precedence::inputs::Known;
use crate::precedence::sides::{Join, Side};
use cluster_types::{Colocation, LeafId};
use std::alloc::{AllocError, Global};

/// Adds the edges of a join that hangs on a rule of two leaves, in time linear in their actions.
pub(crate) fn add_rule(
    building: &mut Building,
    alloc: Global,
    known: &Known,
    join: Join,
    one: LeafId,
    other: LeafId,
) -> Result<(), AllocError>
    requires one { one < length known.now.cluster.now.leaves }
    requires other { other < length known.now.cluster.now.leaves }
    requires even { rooms.IsEven known.now.cluster.now join }
    requires room { building.old.base + rooms.width_of known.now.cluster.now join.from * rooms.rows_of known.now.cluster.now join.from < 4294967296 }
    ensures edges { OnOk result (building.new.list.items
        ≡ building.old.list.items
        ++ join_edges building.old.base (rooms.width_of known.now.cluster.now join.from) (key_at known.now.cluster.now known.now.actions.now join.from)
        (key_at known.now.cluster.now known.now.actions.now join.to) (indexed.places_in known.now.index.now one other)) }
    ensures gates { OnOk result (building.new.base
        ≡ building.old.base + rooms.width_of known.now.cluster.now join.from * rooms.rows_of known.now.cluster.now join.from) }
{
    let places = places_in(alloc, known.index, one, other)?;
    building.add(known, join, places.as_slice())
}

/// Adds the edges of a colocation, if it is a separation: what takes its role from each leaf comes before what gives the other its own,
/// on each node.
pub(crate) fn add_colocation(
    building: &mut Building,
    alloc: Global,
    known: &Known,
    colocation: &Colocation,
) -> Result<(), AllocError>
    requires dependent { colocation.now.dependent < length known.now.cluster.now.leaves }
    requires primary { colocation.now.primary < length known.now.cluster.now.leaves }
    requires room { building.old.base + 512 < 4294967296 }
    ensures builds { (js : List JoinOf)
        → Builds known.now.cluster.now known.now.actions.now (places_of known.now.actions.now) building.old.list.items building.old.base js
        → OnOk result (Builds known.now.cluster.now known.now.actions.now (places_of known.now.actions.now) building.new.list.items building.new.base
        (js ++ colocation_joins colocation.now)) }
    ensures gates { OnOk result (building.new.base ≤ building.old.base + 512) }
{
    if !colocation.is_separation() {
        return Ok(());
    }
    let one = Join {
        from: Side::Parts {
            leaf: colocation.dependent,
            role: colocation.dependent_role,
        },
        to: Side::GivesRole {
            leaf: colocation.primary,
            role: colocation.primary_role,
        },
    };
    add_rule(
        building,
        alloc,
        known,
        one,
        colocation.dependent,
        colocation.primary,
    )?;
    let other = Join {
        from: Side::Parts {
            leaf: colocation.primary,
            role: colocation.primary_role,
        },
        to: Side::GivesRole {
            leaf: colocation.dependent,
            role: colocation.dependent_role,
        },
    };
    add_rule(
        building,
        alloc,
        known,
        other,
        colocation.primary,
        colocation.dependent,
    )
}
