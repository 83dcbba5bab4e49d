//! The totals of all decisions.

ghost use Rattle.std.specs.Prelude.{◌≡◌, ◌<◌, ◌++◌, ℕ, List, length, map, IfOk, OnOk};
ghost use Rattle.std.specs.List.{range_with_len};
ghost use Rattle.cluster_types.specs.declared.journal.Event.{Event};
ghost use Rattle.cluster_types.specs.declared.journal.Promotion.{Promotion as PromotionOf};
ghost use Rattle.cluster_types.specs.UnpackedStates.{states_of};
ghost use Rattle.cluster_types.specs.Valid.{IsValid};
ghost use Rattle.placement.specs.Inner.ScoresByStates as by_states;
ghost use Rattle.placement.specs.Promotions.{AreSaid};
ghost use Rattle.placement.specs.Scores as spec;
ghost use Rattle.placement.specs.Ties.{AreTies};

use crate::totals::lending_rows::lent_row;
use crate::totals::own_rows::OwnRows;
use crate::totals::promotions::{first_said, promote_row};
use crate::totals::row_totals::totals_of;
use crate::totals::ties::ties_of;
use cluster_types::{Cluster, Decision, LeafId, NoMemory, NodeId, States, cell_place};
use edges::Edge;
use faults::with;
use listed::Listed;
use score::Score;
use std::alloc::Global;

/// The totals of all decisions, leaf by leaf and node by node.
#[derive(PartialEq, Eq, Drop)]
pub struct ScoreTable {
    /// How many nodes there are.
    pub nodes: u32,
    /// The totals of placing the leaves.
    pub places: Listed<Score>,
    /// The totals of promoting them.
    pub promotes: Listed<Score>,
}

fn score_at(scores: &[Score], nodes: u32, leaf: LeafId, node: NodeId) -> Score
    ensures { result ≡ spec.score_in_list scores.now nodes leaf node }
{
    if node >= nodes {
        return Score { points: 0 };
    }
    match scores.get(cell_place(nodes as usize, leaf, node)) {
        Some(score) => *score,
        None => Score { points: 0 },
    }
}

impl ScoreTable {
    /// The total of a decision on a node, before colocations. It is 0 for a cell that the table doesn't have.
    pub fn total_at(&self, decision: Decision, node: NodeId) -> Score
        ensures { result ≡ spec.score_in self.now decision node }
    {
        match decision {
            Decision::Place(leaf) => score_at(self.places.as_slice(), self.nodes, leaf, node),
            Decision::Promote(leaf) => score_at(self.promotes.as_slice(), self.nodes, leaf, node),
        }
    }
}

/// Adds the totals of placing a leaf that is there, node by node.
fn push_places(
    alloc: Global,
    own: &OwnRows,
    ties: &[Edge],
    leaf: LeafId,
    all: &mut Vec<Score>,
) -> Result<(), NoMemory>
    requires valid { IsValid own.now.cluster.now }
    requires ties { AreTies own.now.cluster.now ties.now }
    requires leaf { leaf < length own.now.cluster.now.leaves }
    ensures { OnOk result (all.new.items ≡ all.old.items
        ++ map (by_states.place_by own.now.cluster.now own.now.states.now leaf) (range_with_len 0 (length own.now.cluster.now.nodes))) }
{
    let row = lent_row(alloc, own, ties, leaf)?;
    let of_leaf = totals_of(alloc, &row, own.cluster.nodes.len() as u32)?;
    all.extend_from_slice(&of_leaf)?;
    Ok(())
}

/// The totals of placing each leaf, leaf by leaf and node by node.
fn place_totals(alloc: Global, own: &OwnRows) -> Result<Vec<Score>, NoMemory>
    requires { IsValid own.now.cluster.now }
    ensures { IfOk result (λ all. all.items ≡ spec.cells_of own.now.cluster.now (by_states.place_by own.now.cluster.now own.now.states.now)) }
{
    let cluster = own.cluster;
    let ties = ties_of(alloc, cluster)?;
    let mut all = Vec::with_capacity(alloc, cluster.leaves.len() * cluster.nodes.len())?;
    for leaf in 0..cluster.leaves.len() {
        push_places(alloc, own, &ties, leaf as u32, &mut all)?;
    }
    Ok(all)
}

/// The totals of placing each leaf, by what is read of the cluster and the states.
fn places_by(alloc: Global, cluster: &Cluster, states: &States) -> Result<Vec<Score>, NoMemory>
    requires { IsValid cluster.now }
    ensures { IfOk result (λ all. all.items ≡ spec.cells_of cluster.now (by_states.place_by cluster.now states.now)) }
{
    let own = OwnRows::new(alloc, cluster, states)?;
    place_totals(alloc, &own)
}

/// Adds the totals of promoting a leaf that is there, node by node, where these scores are said.
fn push_promotes(
    alloc: Global,
    cluster: &Cluster,
    states: &States,
    said: &[Option<Score>],
    leaf: LeafId,
    all: &mut Vec<Score>,
) -> Result<(), NoMemory>
    requires valid { IsValid cluster.now }
    requires said { AreSaid cluster.now states.now.promotions said.now }
    requires leaf { leaf < length cluster.now.leaves }
    ensures { OnOk result (all.new.items ≡ all.old.items
        ++ map (by_states.promote_by cluster.now states.now leaf) (range_with_len 0 (length cluster.now.nodes))) }
{
    let row = promote_row(alloc, cluster, said, leaf, states.moment)?;
    let of_leaf = totals_of(alloc, &row, cluster.nodes.len() as u32)?;
    all.extend_from_slice(&of_leaf)?;
    Ok(())
}

/// The totals of promoting each leaf, leaf by leaf and node by node.
fn promote_totals(alloc: Global, cluster: &Cluster, states: &States) -> Result<Vec<Score>, NoMemory>
    requires { IsValid cluster.now }
    ensures { IfOk result (λ all. all.items ≡ spec.cells_of cluster.now (by_states.promote_by cluster.now states.now)) }
{
    let said = first_said(alloc, cluster, states.promotions.as_slice())?;
    let mut all = Vec::with_capacity(alloc, cluster.leaves.len() * cluster.nodes.len())?;
    for leaf in 0..cluster.leaves.len() {
        push_promotes(alloc, cluster, states, &said, leaf as u32, &mut all)?;
    }
    Ok(all)
}

/// The table of what is known by these states.
fn table_by(alloc: Global, cluster: &Cluster, states: &States) -> Result<ScoreTable, NoMemory>
    requires { IsValid cluster.now }
    ensures { IfOk result (λ table. table ≡ by_states.table_by cluster.now states.now) }
{
    let places = places_by(alloc, cluster, states)?;
    let promotes = promote_totals(alloc, cluster, states);
    let (places, promotes) = with(places, promotes)?;
    Ok(ScoreTable {
        nodes: cluster.nodes.len() as u32,
        places: Listed::from(places),
        promotes: Listed::from(promotes),
    })
}

/// The total of each decision on each node, before colocations. That of placing a leaf is of what its locations, its stickiness, what keeps
/// it away and its lenders give. That of promoting it is of how much it wants to be promoted and of what its locations in the role Promoted
/// give (Pacemaker Explained, "Scores" and "Promotable Clones"; which leaves lend is a rule of this project). It asks for a valid cluster.
/// What it gives is said of states that `unpack` gives. Out of memory is the only other answer.
pub fn rows(alloc: Global, cluster: &Cluster, states: &States) -> Result<ScoreTable, NoMemory>
    requires { IsValid cluster.now }
    ensures { (events : List Event) (promotions : List PromotionOf) → states.now ≡ states_of cluster.now events promotions
        → IfOk result (λ table. table ≡ spec.scores_of cluster.now events promotions) }
{
    table_by(alloc, cluster, states)
}
