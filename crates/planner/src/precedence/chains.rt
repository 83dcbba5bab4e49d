//! The edges of chains, through gates in the order of numbers.

ghost use Rattle.std.specs.Prelude.{◌≡◌, ◌++◌, ◌∷◌, [], ◌<◌, ◌≤◌, ◌+◌, All, IfOk, OnOk, if◌then◌else◌, length};
ghost use Rattle.planner.specs.Chains as spec;
ghost use Rattle.planner.specs.Inner.Chains.{changes_by};
ghost use Rattle.planner.specs.Inner.Gates.{chain_edges, chain_step, edge, last_gate, next_gate, then_step};

use crate::precedence::edge_building::Building;
use crate::precedence::gates::push;
use crate::precedence::keys::{Key, change_key, in_leaf};
use cluster_types::{Action, Edge, LeafId, NodeId};
use std::alloc::AllocError;

/// The actions of a leaf that change a cell, on one node where they are chained node by node.
#[derive(Clone, Copy)]
pub struct Changes {
    pub leaf: LeafId,
    pub local: bool,
    pub node: NodeId,
}

fn is_on(node: NodeId, key: Option<Key>) -> bool
    ensures { result ≡ spec.is_cell_on node key }
{
    match key {
        Some(key) => key.node == node,
        None => false,
    }
}

impl Changes {
    /// Whether the action at the position is one of them.
    pub fn has(&self, actions: &[Action], place: u32) -> bool
        requires { place < length actions.now }
        ensures { result ≡ changes_by actions.now self.now place }
    {
        let action = actions[place as usize];
        is_on(
            self.node,
            in_leaf(self.leaf, self.local, change_key(action)),
        )
    }
}

/// The edge to a position of the other kind.
fn add_then(list: &mut Vec<Edge>, is_then: bool, gate: u32, place: u32) -> Result<(), AllocError>
    ensures { OnOk result (list.new.items ≡ list.old.items ++ (if is_then then edge gate place ∷ [] else [])) }
{
    if is_then {
        push(list, gate, place)
    } else {
        Ok(())
    }
}

/// The edges from a position of the first kind, and on to the next gate.
fn add_first(list: &mut Vec<Edge>, is_first: bool, gate: u32, place: u32) -> Result<u32, AllocError>
    requires { gate + 1 < 4294967296 }
    ensures edges { OnOk result (list.new.items ≡ list.old.items ++ (if is_first then edge place (gate + 1) ∷ edge gate (gate + 1) ∷ [] else [])) }
    ensures next { IfOk result (λ next. next ≡ (if is_first then gate + 1 else gate)) }
{
    if !is_first {
        return Ok(gate);
    }
    push(list, place, gate + 1)?;
    push(list, gate, gate + 1)?;
    Ok(gate + 1)
}

/// The edges of one position of a chain.
fn add_link(
    list: &mut Vec<Edge>,
    actions: &[Action],
    first: Changes,
    other: Changes,
    gate: u32,
    place: u32,
) -> Result<u32, AllocError>
    requires within { place < length actions.now }
    requires room { gate + 1 < 4294967296 }
    ensures edges { OnOk result (list.new.items ≡ list.old.items ++ (then_step (changes_by actions.now first) (changes_by actions.now other) gate place ++ chain_step (changes_by actions.now first) (changes_by actions.now other) gate place)) }
    ensures next { IfOk result (λ next. next ≡ next_gate (changes_by actions.now first) (changes_by actions.now other) gate place) }
{
    add_then(list, other.has(actions, place), gate, place)?;
    add_first(list, first.has(actions, place), gate, place)
}

/// The edges of a chain over positions in the order of numbers, in time linear in these.
pub fn add_chain(
    building: &mut Building,
    actions: &[Action],
    first: Changes,
    other: Changes,
    places: &[u32],
) -> Result<(), AllocError>
    requires within { All (λ place. place < length actions.now) places.now }
    requires room { building.old.base + length places.now + 1 < 4294967296 }
    ensures edges { OnOk result (building.new.list.items ≡ building.old.list.items ++ chain_edges (changes_by actions.now first) (changes_by actions.now other) building.old.base places.now) }
    ensures gates { OnOk result (building.new.base ≡ last_gate (changes_by actions.now first) (changes_by actions.now other) building.old.base places.now + 1) }
    ensures room { OnOk result (building.new.base ≤ building.old.base + length places.now + 1) }
{
    let mut gate = building.base;
    for place in places {
        gate = add_link(&mut building.list, actions, first, other, gate, *place)?;
    }
    building.base = gate + 1;
    Ok(())
}
