//! The positions of the actions of two leaves, in the order of numbers.

ghost use Rattle.std.specs.Prelude.{◌≡◌, ◌+◌, ◌<◌, ◌≤◌, IfOk, OnOk, length, true};
ghost use Rattle.cluster_types.specs.Numbers.{is_earlier};
ghost use Rattle.planner.specs.Inner.Chains.{serialized_at};
ghost use Rattle.planner.specs.Inner.Groups.{AddsGroup};
ghost use Rattle.planner.specs.Inner.Index as indexed;
ghost use Rattle.planner.specs.Inner.Serials.{AreAscending, AreSerials, most_serial, serial_room};

use crate::precedence::edge_building::Building;
use crate::precedence::index::places_in;
use crate::precedence::inputs::Known;
use crate::precedence::orders::is_serialize;
use crate::precedence::serialize::add_chains;
use cluster_types::{LeafId, Order};
use listed::Listed;
use std::alloc::{AllocError, Global};

/// The positions of the actions of two leaves, ascending, each once.
fn ascending(
    alloc: Global,
    index: &[Listed<u32>],
    one: LeafId,
    other: LeafId,
) -> Result<Vec<u32>, AllocError>
    ensures { IfOk result (λ places. AreAscending (indexed.places_in index.now one other) places.items) }
{
    let mut places = places_in(alloc, index, one, other)?;
    places.sort()?;
    places.dedup();
    Ok(places)
}

/// The positions of the actions of an order, in the order of numbers.
fn serial_places(alloc: Global, known: &Known, order: &Order) -> Result<Vec<u32>, AllocError>
    requires first { order.now.first < length known.now.cluster.now.leaves }
    requires then_leaf { order.now.then_leaf < length known.now.cluster.now.leaves }
    ensures { IfOk result (λ places. AreSerials known.now.actions.now (is_earlier known.now.cluster.now known.now.actions.now) order.now places.items) }
{
    ascending(alloc, known.index, order.first, order.then_leaf)
}

/// Adds the edges of an order, if it is of the kind Serialize.
pub(crate) fn add_serial(
    building: &mut Building,
    alloc: Global,
    known: &Known,
    order: &Order,
) -> Result<(), AllocError>
    requires first { order.now.first < length known.now.cluster.now.leaves }
    requires then_leaf { order.now.then_leaf < length known.now.cluster.now.leaves }
    requires enough { length known.now.actions.now ≤ building.old.base }
    requires room { building.old.base + serial_room known.now.actions.now order.now < 4294967296 }
    ensures adds { OnOk result (AddsGroup (length known.now.actions.now) building.old.list.items building.new.list.items building.old.base building.new.base
        (most_serial known.now.actions.now order.now)
        (λ x y. serialized_at known.now.actions.now (is_earlier known.now.cluster.now known.now.actions.now) x y order.now ≡ true)) }
    ensures room { OnOk result (building.new.base ≤ building.old.base + serial_room known.now.actions.now order.now) }
{
    if !is_serialize(order) {
        return Ok(());
    }
    let places = serial_places(alloc, known, order)?;
    add_chains(building, alloc, known, order, places.as_slice())
}
