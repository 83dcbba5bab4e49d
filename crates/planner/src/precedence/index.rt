//! The positions of the actions, leaf by leaf.

ghost use Rattle.std.specs.Prelude.{◌≡◌, ◌<◌, ◌++◌, [], Contains, length, IfOk, IfSome, OnOk, slice_get, unwrap_or, vec_len};
ghost use Rattle.cluster_types.specs.declared.journal.Action.{Action as ActionOf};
ghost use Rattle.planner.specs.Inner.Index.{IsIndex, leaf_if, places_in, with_place};

use cluster_types::{Action, LeafId};
use listed::{Listed, empty_lists};
use std::alloc::{AllocError, Global};

/// Adds some positions.
fn push_all(list: &mut Vec<u32>, more: &[u32]) -> Result<(), AllocError>
    ensures { OnOk result (list.new.items ≡ list.old.items ++ more.now) }
{
    for place in more {
        list.push(*place)?;
    }
    Ok(())
}

/// Adds the positions of the leaf.
fn push_leaf(list: &mut Vec<u32>, index: &[Listed<u32>], leaf: LeafId) -> Result<(), AllocError>
    ensures { OnOk result (list.new.items ≡ list.old.items ++ unwrap_or (slice_get index.now leaf) []) }
{
    match index.get(leaf as usize) {
        Some(places) => push_all(list, places.as_slice()),
        None => Ok(()),
    }
}

/// The positions of the actions of two leaves, each once, in time linear in these.
pub fn places_in(
    alloc: Global,
    index: &[Listed<u32>],
    one: LeafId,
    other: LeafId,
) -> Result<Vec<u32>, AllocError>
    ensures { IfOk result (λ places. places.items ≡ places_in index.now one other) }
{
    let mut list = Vec::new(alloc);
    push_leaf(&mut list, index, one)?;
    if one == other {
        return Ok(list);
    }
    push_leaf(&mut list, index, other)?;
    Ok(list)
}

/// The leaf of an action, if it has one.
fn leaf_if(action: Action) -> Option<LeafId>
    ensures { result ≡ leaf_if action }
{
    match action {
        Action::Fence { .. } => None,
        Action::Probe { leaf, .. } => Some(leaf),
        Action::Operation { leaf, .. } => Some(leaf),
        Action::MigrateTo { leaf, .. } => Some(leaf),
        Action::MigrateFrom { leaf, .. } => Some(leaf),
    }
}

/// One position more of the leaf, if there is one.
pub fn add_place(
    index: &mut Vec<Listed<u32>>,
    leaf: Option<LeafId>,
    place: u32,
) -> Result<(), AllocError>
    requires { IfSome leaf (λ leaf. leaf < vec_len index.old) }
    ensures long { vec_len index.new ≡ vec_len index.old }
    ensures more { OnOk result (index.new.items ≡ with_place index.old.items leaf place) }
{
    match leaf {
        Some(leaf) => {
            index[leaf as usize].push(place)?;
            Ok(())
        }
        None => Ok(()),
    }
}

/// Of each leaf the positions of its actions, in time linear in the leaves and the actions.
pub fn leaf_index(
    alloc: Global,
    leaves: u32,
    actions: &[Action],
) -> Result<Vec<Listed<u32>>, AllocError>
    requires few { length actions.now < 4294967296 }
    requires inside { (a : ActionOf) → Contains actions.now a → IfSome (leaf_if a) (λ leaf. leaf < leaves) }
    ensures { IfOk result (λ index. IsIndex actions.now leaves index.items) }
{
    let mut index = empty_lists(alloc, leaves)?;
    for place in 0..actions.len() as u32 {
        add_place(&mut index, leaf_if(actions[place as usize]), place)?;
    }
    Ok(index)
}
