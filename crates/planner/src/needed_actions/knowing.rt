//! What each cell needs, by what is known of it and where everything goes.

ghost use Rattle.std.specs.Prelude.{◌≡◌, ◌≤◌, ◌++◌, List, Option, IfOk, OnOk, length, map};
ghost use Rattle.std.specs.List.{range_with_len};
ghost use Rattle.cluster_types.specs.declared.journal.Event.{Event as EventOf};
ghost use Rattle.cluster_types.specs.declared.journal.Promotion.{Promotion as PromotionOf};
ghost use Rattle.cluster_types.specs.NeededActions as needed;
ghost use Rattle.cluster_types.specs.Pins.{pin_of};
ghost use Rattle.cluster_types.specs.Rights as rights;
ghost use Rattle.cluster_types.specs.Tables.{is_somewhere, targets_of};
ghost use Rattle.cluster_types.specs.UnpackedStates.{states_of};
ghost use Rattle.cluster_types.specs.Valid.{KeepsLimits};
ghost use Rattle.planner.specs.Inner.Knowing as knowing;
ghost use Rattle.planner.specs.Inner.Levels.{AreNeeds};

use crate::needed_actions::steps::CellNeed;
use cluster_types::{
    Cell, CellState, Cluster, LeafId, NoMemory, NodeId, Pin, Placed, States, Target, cell_place,
    is_pinned,
};
use std::alloc::{AllocError, Global};

/// Only what runs can be cycled.
fn runs(state: CellState) -> bool
    ensures { result ≡ needed.runs state }
{
    matches!(state, CellState::On | CellState::Promoted)
}

fn need_from(known: Cell, target: Target, pinned: bool, may_start: bool) -> CellNeed
    ensures { result ≡ knowing.need_from known target pinned may_start }
{
    CellNeed {
        state: known.state,
        may: known.may,
        running: known.running,
        target,
        pinned,
        can_cycle: may_start && !pinned && runs(known.state) && target != Target::Nowhere,
    }
}

fn need_by(
    cells: &[Cell],
    placed: &Placed,
    may_start: bool,
    nodes: u32,
    leaf: LeafId,
    node: NodeId,
) -> CellNeed
    ensures { result ≡ knowing.need_by cells.now placed.now.pins placed.now.table may_start nodes leaf node }
{
    let target = placed.table.target(leaf, node);
    let pinned = is_pinned(placed.pins.as_slice(), leaf);
    match cells.get(cell_place(nodes as usize, leaf, node)) {
        Some(known) => need_from(*known, target, pinned, may_start),
        None => CellNeed::none(),
    }
}

/// Adds what the cells of a leaf need, node by node.
fn push_row(
    list: &mut Vec<CellNeed>,
    cells: &[Cell],
    placed: &Placed,
    may_start: bool,
    nodes: u32,
    leaf: LeafId,
) -> Result<(), AllocError>
    ensures { OnOk result (list.new.items ≡ list.old.items
        ++ map (knowing.need_by cells.now placed.now.pins placed.now.table may_start nodes leaf) (range_with_len 0 nodes)) }
{
    for node in 0..nodes {
        list.push(need_by(cells, placed, may_start, nodes, leaf, node))?;
    }
    Ok(())
}

/// What each cell needs, leaf by leaf and node by node: the states are those that some journal tells of the cluster, and the pins and the
/// table those that were placed for it.
pub fn cell_needs(
    alloc: Global,
    cluster: &Cluster,
    states: &States,
    placed: &Placed,
    may_start: bool,
) -> Result<Vec<CellNeed>, NoMemory>
    requires { KeepsLimits cluster.now }
    ensures { IfOk result (λ needs. (events : List EventOf) (promotions : List PromotionOf)
        → states.now ≡ states_of cluster.now events promotions
        → placed.now.pins ≡ map (pin_of cluster.now events) (range_with_len 0 (length cluster.now.leaves))
        → may_start ≡ rights.may_start cluster.now events
        → AreNeeds cluster.now events (targets_of placed.now.table) needs.items) }
{
    let nodes = cluster.nodes.len() as u32;
    let mut needs = Vec::new(alloc);
    for leaf in 0..cluster.leaves.len() as u32 {
        push_row(
            &mut needs,
            states.cells.as_slice(),
            placed,
            may_start,
            nodes,
            leaf,
        )?;
    }
    Ok(needs)
}
