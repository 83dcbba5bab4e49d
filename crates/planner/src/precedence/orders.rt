//! The edges of orders that aren't Serialize.

ghost use Rattle.std.specs.Prelude.{◌≡◌, ◌+◌, ◌++◌, ◌<◌, ◌≤◌, List, OnOk, length};
ghost use Rattle.cluster_types.specs.Precedence as precedence;
ghost use Rattle.planner.specs.declared.precedence.sides.Join.{Join as JoinOf};
ghost use Rattle.planner.specs.Joins as joins;
ghost use Rattle.planner.specs.Joins.{order_joins};
ghost use Rattle.planner.specs.Inner.Places.{places_of};
ghost use Rattle.planner.specs.Inner.Rooms.{Builds};

use crate::precedence::colocations::add_rule;
use crate::precedence::edge_building::Building;
use crate::precedence::inputs::Known;
use crate::precedence::sides::{Join, Side};
use cluster_types::{Order, OrderKind};
use std::alloc::{AllocError, Global};

/// Whether the order is of the kind Serialize.
pub fn is_serialize(order: &Order) -> bool
    ensures { result ≡ precedence.is_serialize order.now.kind }
{
    match order.kind {
        OrderKind::Serialize => true,
        OrderKind::Mandatory | OrderKind::Optional => false,
    }
}

/// Its own two words.
fn own_join(order: &Order) -> Join
    ensures { result ≡ joins.own_join order.now }
{
    let local = order.local;
    Join {
        from: Side::Earlier {
            leaf: order.first,
            word: order.first_op,
            local,
        },
        to: Side::Later {
            leaf: order.then_leaf,
            word: order.then_op,
            local,
        },
    }
}

/// What takes away what two words give.
fn takers_join(order: &Order) -> Join
    ensures { result ≡ joins.takers_join order.now }
{
    let local = order.local;
    Join {
        from: Side::EarlierTakers {
            leaf: order.then_leaf,
            word: order.then_op,
            local,
        },
        to: Side::LaterTakers {
            leaf: order.first,
            word: order.first_op,
            local,
        },
    }
}

/// The inverses of two words.
fn turned_join(order: &Order) -> Join
    ensures { result ≡ joins.turned_join order.now }
{
    let local = order.local;
    Join {
        from: Side::Earlier {
            leaf: order.then_leaf,
            word: order.then_op.inverse(),
            local,
        },
        to: Side::Later {
            leaf: order.first,
            word: order.first_op.inverse(),
            local,
        },
    }
}

/// The inverse of the order.
fn inverse_join(order: &Order) -> Join
    ensures { result ≡ joins.inverse_join order.now }
{
    if order.first_op.is_giving() && order.then_op.is_giving() {
        takers_join(order)
    } else {
        turned_join(order)
    }
}

/// Adds the edges of an order, if it isn't Serialize: its own, and those of its inverse where it has one.
pub(crate) fn add_order(
    building: &mut Building,
    alloc: Global,
    known: &Known,
    order: &Order,
) -> Result<(), AllocError>
    requires first { order.now.first < length known.now.cluster.now.leaves }
    requires then_leaf { order.now.then_leaf < length known.now.cluster.now.leaves }
    requires room { building.old.base + 512 < 4294967296 }
    ensures builds { (js : List JoinOf)
        → Builds known.now.cluster.now known.now.actions.now (places_of known.now.actions.now) building.old.list.items building.old.base js
        → OnOk result (Builds known.now.cluster.now known.now.actions.now (places_of known.now.actions.now) building.new.list.items building.new.base
        (js ++ order_joins order.now)) }
    ensures gates { OnOk result (building.new.base ≤ building.old.base + 512) }
{
    if is_serialize(order) {
        return Ok(());
    }
    let own = own_join(order);
    add_rule(building, alloc, known, own, order.first, order.then_leaf)?;
    if !order.symmetrical {
        return Ok(());
    }
    let back = inverse_join(order);
    add_rule(building, alloc, known, back, order.then_leaf, order.first)
}
