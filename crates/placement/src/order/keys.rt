//! By what decisions are compared.

ghost use Rattle.std.specs.Prelude.{◌≡◌, ◌≤◌, ℕ, if◌then◌else◌, filter, length, map, IfOk};
ghost use Rattle.std.specs.Int.{int_max};
ghost use Rattle.std.specs.List.{range_with_len};
ghost use Rattle.cluster_types.specs.Decisions as decisions;
ghost use Rattle.score.specs.NodeSet.{has};
ghost use Rattle.placement.specs.Scores.{score_in};
ghost use Rattle.placement.specs.UsableNodes.{is_usable_by};
ghost use Rattle.placement.specs.Inner.DecisionLists as spec;

use crate::order::decision_set::DecisionSet;
use crate::{ScoreTable, usable_nodes};
use cluster_types::{CellState, Cluster, Decision, NodeId, States, cell_place};
use score::{NodeSet, Score};
use std::alloc::{AllocError, Global};
use std::marker::Model;

/// The priority of the leaf, its greatest total where it is active, and its greatest total on a usable node (rule of this project).
#[derive(Clone, Copy)]
pub(crate) struct Key {
    pub(crate) priority: Score,
    pub(crate) active: Score,
    pub(crate) usable: Score,
}

impl Model for Key {
    ghost use Rattle.cluster_types.specs.Decisions.{Key as KeyOf};

    ghost Value = { KeyOf };

    ghost view = { λ key. record { priority = key.priority; active = key.active; usable = key.usable } };

    ghost inverse = { λ key. record { priority = key.priority; active = key.active; usable = key.usable } };
}

impl Key {
    pub(crate) fn is_less(self, other: Key) -> bool
        ensures { result ≡ decisions.is_less self other }
    {
        self.priority < other.priority
            || self.priority == other.priority
                && (self.active < other.active
                    || self.active == other.active && self.usable < other.usable)
    }
}

/// Whether what runs in such a cell counts for the decision: for a promote only what is promoted.
fn is_active_for(decision: Decision, state: CellState) -> bool
    ensures { result ≡ decisions.is_active_for decision state }
{
    match decision {
        Decision::Place(_) => state.is_active(),
        Decision::Promote(_) => state == CellState::Promoted,
    }
}

fn is_active_at(cluster: &Cluster, states: &States, decision: Decision, node: NodeId) -> bool
    requires { length cluster.now.nodes ≤ 256 }
    ensures { result ≡ spec.is_active_by_cell cluster.now states.now decision node }
{
    let place = cell_place(cluster.nodes.len(), decision.leaf(), node);
    match states.cells.as_slice().get(place) {
        Some(cell) => is_active_for(decision, cell.state),
        None => false,
    }
}

/// The greater of both, if the second is wanted, else the first.
fn greater_if(greatest: Score, total: Score, wanted: bool) -> Score
    ensures { result ≡ (if wanted then int_max greatest total else greatest) }
{
    if wanted {
        greatest.max(total)
    } else {
        greatest
    }
}

/// The greatest total of the decision on the nodes of a set, and -INFINITY where it is empty.
fn greatest_among(scores: &ScoreTable, decision: Decision, nodes: u32, among: &NodeSet) -> Score
    requires { nodes ≤ 256 }
    ensures { result ≡ decisions.greatest_of (map (score_in scores.now decision) (filter (has among.now) (range_with_len 0 nodes))) }
{
    let mut greatest = Score::MINUS_INFINITY;
    for node in 0..nodes {
        greatest = greater_if(greatest, scores.total_at(decision, node), among.has(node));
    }
    greatest
}

/// The key of a decision. The nodes that may run resources are handed in.
fn key_of(
    cluster: &Cluster,
    states: &States,
    scores: &ScoreTable,
    usable: &NodeSet,
    decision: Decision,
) -> Key
    requires few { length cluster.now.nodes ≤ 256 }
    requires usable { (n : ℕ) → has usable.now n ≡ is_usable_by cluster.now states.now n }
    ensures { result ≡ spec.compared_key cluster.now states.now scores.now decision }
{
    let nodes = cluster.nodes.len() as u32;
    let active = NodeSet::of(nodes, |node| is_active_at(cluster, states, decision, node));
    Key {
        priority: cluster.priority(decision.leaf()),
        active: greatest_among(scores, decision, nodes, &active),
        usable: greatest_among(scores, decision, nodes, usable),
    }
}

/// The key of each decision of the set.
pub(crate) fn all_keys(
    alloc: Global,
    set: &DecisionSet,
    states: &States,
    scores: &ScoreTable,
) -> Result<Vec<Key>, AllocError>
    ensures { IfOk result (λ keys. keys.items ≡ map (spec.compared_key set.now.cluster.now states.now scores.now) set.now.list.items) }
{
    let usable = usable_nodes(set.cluster, states);
    let mut keys = Vec::with_capacity(alloc, set.list.len())?;
    for position in 0..set.list.len() {
        let key = key_of(set.cluster, states, scores, &usable, set.list[position]);
        keys.push(key)?;
    }
    Ok(keys)
}
