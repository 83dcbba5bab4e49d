//! What is known of the cells of a leaf.

ghost use Rattle.std.specs.Prelude.{◌≡◌, ◌≤◌, length};
ghost use Rattle.cluster_types.specs.Choice as choice;
ghost use Rattle.placement.specs.Reads as spec;

use crate::is_active;
use cluster_types::{CellState, Cluster, Decision, LeafId, NodeId, States, cell_place};

/// The state of a cell, if it is known.
fn state_of(cluster: &Cluster, states: &States, leaf: LeafId, node: NodeId) -> Option<CellState>
    requires { length cluster.now.nodes ≤ 256 }
    ensures { result ≡ spec.state_in cluster.now states.now leaf node }
{
    let place = cell_place(cluster.nodes.len(), leaf, node);
    match states.cells.as_slice().get(place) {
        Some(cell) => Some(cell.state),
        None => None,
    }
}

/// In how many cells the leaf is active.
pub(crate) fn active_count(cluster: &Cluster, states: &States, leaf: LeafId) -> u32
    requires { length cluster.now.nodes ≤ 256 }
    ensures { result ≡ spec.active_count_in cluster.now states.now leaf }
{
    let mut count = 0;
    for node in 0..cluster.nodes.len() as u32 {
        if !is_active(cluster, states, leaf, node) {
            continue;
        }
        count += 1;
    }
    count
}

/// Whether what runs in a cell of this state may stay there by the decision.
fn is_kept_by(decision: Decision, state: CellState) -> bool
    ensures { result ≡ choice.is_kept_by decision state }
{
    match decision {
        Decision::Place(_) => matches!(state, CellState::On | CellState::Promoted),
        Decision::Promote(_) => matches!(state, CellState::Promoted),
    }
}

/// Whether what runs in the cell may stay there by the decision.
pub fn is_kept(cluster: &Cluster, states: &States, decision: Decision, node: NodeId) -> bool
    requires { length cluster.now.nodes ≤ 256 }
    ensures { result ≡ spec.is_kept_in cluster.now states.now decision node }
{
    match state_of(cluster, states, decision.leaf(), node) {
        Some(state) => is_kept_by(decision, state),
        None => false,
    }
}
