//! The edges of joins, through a gate for each cell.

ghost use Rattle.std.specs.Prelude.{◌≡◌, ◌++◌, ◌∷◌, [], ◌<◌, ◌≤◌, All, IfSome, OnOk, length};
ghost use Rattle.planner.specs.Inner.Gates.{edge, edge_in, edge_out, gate_edges_at, gate_of, join_edges, key_at};
ghost use Rattle.planner.specs.Inner.Leaves as leaves;
ghost use Rattle.planner.specs.Inner.Rooms.{GatesHaveRoom};

use crate::precedence::inputs::Known;
use crate::precedence::keys::{Key, key_of};
use crate::precedence::sides::{Join, Side};
use cluster_types::{Action, Edge, LeafId};
use listed::flag_at;
use std::alloc::AllocError;

fn leaf_of(action: Action) -> LeafId
    ensures { result ≡ leaves.action_leaf action }
{
    match action {
        Action::Fence { .. } => 0,
        Action::Probe { leaf, .. } => leaf,
        Action::Operation { leaf, .. } => leaf,
        Action::MigrateTo { leaf, .. } => leaf,
        Action::MigrateFrom { leaf, .. } => leaf,
    }
}

/// By which cell the action at the position stands on the side.
fn key_at(known: &Known, side: Side, place: u32) -> Option<Key>
    requires within { place < length known.now.actions.now }
    ensures { result ≡ key_at known.now.cluster.now known.now.actions.now side place }
{
    let action = known.actions[place as usize];
    let moves = flag_at(known.migrating, leaf_of(action));
    key_of(known.cluster, side, action, moves)
}

/// Which gate a cell has.
fn gate_of(base: u32, width: u32, key: Key) -> u32
    requires { gate_of base width key < 4294967296 }
    ensures { result ≡ gate_of base width key }
{
    base + (key.leaf * width + key.node)
}

/// Adds an edge.
pub fn push(list: &mut Vec<Edge>, before: u32, after: u32) -> Result<(), AllocError>
    ensures { OnOk result (list.new.items ≡ list.old.items ++ edge before after ∷ []) }
{
    list.push(Edge { before, after })?;
    Ok(())
}

/// The edge from a position to its gate, if it has one.
fn add_in(
    list: &mut Vec<Edge>,
    base: u32,
    width: u32,
    key: Option<Key>,
    place: u32,
) -> Result<(), AllocError>
    requires { IfSome key (λ k. gate_of base width k < 4294967296) }
    ensures { OnOk result (list.new.items ≡ list.old.items ++ edge_in base width key place) }
{
    match key {
        Some(key) => push(list, place, gate_of(base, width, key)),
        None => Ok(()),
    }
}

/// The edge from its gate to a position, if it has one.
fn add_out(
    list: &mut Vec<Edge>,
    base: u32,
    width: u32,
    key: Option<Key>,
    place: u32,
) -> Result<(), AllocError>
    requires { IfSome key (λ k. gate_of base width k < 4294967296) }
    ensures { OnOk result (list.new.items ≡ list.old.items ++ edge_out base width key place) }
{
    match key {
        Some(key) => push(list, gate_of(base, width, key), place),
        None => Ok(()),
    }
}

/// The edges of a join at one position.
fn add_at(
    list: &mut Vec<Edge>,
    known: &Known,
    join: Join,
    base: u32,
    width: u32,
    place: u32,
) -> Result<(), AllocError>
    requires within { place < length known.now.actions.now }
    requires room { GatesHaveRoom known.now.cluster.now known.now.actions.now join base width }
    ensures { OnOk result (list.new.items
        ≡ list.old.items
        ++ gate_edges_at base width (key_at known.now.cluster.now known.now.actions.now join.from) (key_at known.now.cluster.now known.now.actions.now join.to) place) }
{
    let from = key_at(known, join.from, place);
    add_in(list, base, width, from, place)?;
    let to = key_at(known, join.to, place);
    add_out(list, base, width, to, place)
}

/// The edges of a join over some positions, in time linear in these.
pub(crate) fn add_join(
    list: &mut Vec<Edge>,
    known: &Known,
    join: Join,
    base: u32,
    width: u32,
    places: &[u32],
) -> Result<(), AllocError>
    requires within { All (λ place. place < length known.now.actions.now) places.now }
    requires room { GatesHaveRoom known.now.cluster.now known.now.actions.now join base width }
    ensures { OnOk result (list.new.items
        ≡ list.old.items
        ++ join_edges base width (key_at known.now.cluster.now known.now.actions.now join.from) (key_at known.now.cluster.now known.now.actions.now join.to)
        places.now) }
{
    for place in places {
        add_at(list, known, join, base, width, *place)?;
    }
    Ok(())
}
