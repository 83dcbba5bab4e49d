//! The edges of all separations and of all orders.

ghost use Rattle.std.specs.Prelude.{◌≡◌, ◌+◌, ◌*◌, ◌++◌, ◌<◌, ◌≤◌, List, OnOk, length, sum_by, true};
ghost use Rattle.std.specs.List.{flat_map, list_any};
ghost use Rattle.cluster_types.specs.Numbers.{is_earlier};
ghost use Rattle.planner.specs.Inner.Chains.{serialized_at};
ghost use Rattle.planner.specs.Inner.Groups.{AddsGroup};
ghost use Rattle.planner.specs.Inner.Serials.{most_serial, serial_room};
ghost use Rattle.planner.specs.declared.precedence.sides.Join.{Join as JoinOf};
ghost use Rattle.planner.specs.Joins.{colocation_joins, order_joins};
ghost use Rattle.planner.specs.Inner.Places.{places_of};
ghost use Rattle.planner.specs.Inner.Rooms.{Builds};

use crate::precedence::colocations::add_colocation;
use crate::precedence::edge_building::Building;
use crate::precedence::inputs::Known;
use crate::precedence::orders::add_order;
use crate::precedence::serials::add_serial;
use std::alloc::{AllocError, Global};

/// Adds the edges of all separations.
pub(crate) fn add_colocations(
    building: &mut Building,
    alloc: Global,
    known: &Known,
) -> Result<(), AllocError>
    requires room { building.old.base + 512 * length known.now.cluster.now.colocations < 4294967296 }
    ensures builds { (js : List JoinOf)
        → Builds known.now.cluster.now known.now.actions.now (places_of known.now.actions.now) building.old.list.items building.old.base js
        → OnOk result (Builds known.now.cluster.now known.now.actions.now (places_of known.now.actions.now) building.new.list.items building.new.base
        (js ++ flat_map colocation_joins known.now.cluster.now.colocations)) }
    ensures gates { OnOk result (building.new.base ≤ building.old.base + 512 * length known.now.cluster.now.colocations) }
{
    for colocation in known.cluster.colocations.as_slice() {
        add_colocation(building, alloc, known, colocation)?;
    }
    Ok(())
}

/// Adds the edges of all orders that aren't Serialize.
pub(crate) fn add_orders(
    building: &mut Building,
    alloc: Global,
    known: &Known,
) -> Result<(), AllocError>
    requires room { building.old.base + 512 * length known.now.cluster.now.orders < 4294967296 }
    ensures builds { (js : List JoinOf)
        → Builds known.now.cluster.now known.now.actions.now (places_of known.now.actions.now) building.old.list.items building.old.base js
        → OnOk result (Builds known.now.cluster.now known.now.actions.now (places_of known.now.actions.now) building.new.list.items building.new.base
        (js ++ flat_map order_joins known.now.cluster.now.orders)) }
    ensures gates { OnOk result (building.new.base ≤ building.old.base + 512 * length known.now.cluster.now.orders) }
{
    for order in known.cluster.orders.as_slice() {
        add_order(building, alloc, known, order)?;
    }
    Ok(())
}

/// Adds the edges of all orders of the kind Serialize.
pub(crate) fn add_serials(
    building: &mut Building,
    alloc: Global,
    known: &Known,
) -> Result<(), AllocError>
    requires enough { length known.now.actions.now ≤ building.old.base }
    requires room { building.old.base + sum_by (serial_room known.now.actions.now) known.now.cluster.now.orders < 4294967296 }
    ensures adds { OnOk result (AddsGroup (length known.now.actions.now) building.old.list.items building.new.list.items building.old.base building.new.base
        (sum_by (most_serial known.now.actions.now) known.now.cluster.now.orders)
        (λ x y. list_any (serialized_at known.now.actions.now (is_earlier known.now.cluster.now known.now.actions.now) x y) known.now.cluster.now.orders ≡ true)) }
    ensures room { OnOk result (building.new.base ≤ building.old.base + sum_by (serial_room known.now.actions.now) known.now.cluster.now.orders) }
{
    for order in known.cluster.orders.as_slice() {
        add_serial(building, alloc, known, order)?;
    }
    Ok(())
}
