//! What is kept of all cells, and what one more event changes of it.

ghost use Rattle.std.specs.Prelude.{◌==◌, ◌||◌, [], IfOk};
ghost use Rattle.cluster_types.specs.Cells.{is_same_cell};
ghost use Rattle.cluster_types.specs.Valid.{KeepsLimits};
ghost use Rattle.state_unpack.specs.KeptCells.{IsFull, KeepsFacts};
ghost use Rattle.state_unpack.specs.Inner.ToldCells.{TellsEvent};
ghost use Rattle.state_unpack.specs.Inner.Touching.{action_touches, touches};

use crate::facts::Facts;
use cluster_types::{Action, Cluster, Event, LeafId, NodeId, cell_place};
use std::alloc::{AllocError, Global};

/// Tells the cell of one more event, if there is such a cell.
fn tell_cell(cluster: &Cluster, leaf: LeafId, node: NodeId, event: Event, cells: &mut Vec<Facts>)
    requires { IsFull cluster.now cells.old.items }
    ensures { TellsEvent cluster.now event (λ r n. is_same_cell r n leaf node) cells.old.items cells.new.items }
{
    let nodes = cluster.nodes.len();
    if (leaf as usize) < cluster.leaves.len() && (node as usize) < nodes {
        let place = cell_place(nodes, leaf, node);
        cells[place] = cells[place].after(cluster, leaf, node, event);
    }
}

/// Tells all cells of the node of one more event.
fn tell_node(cluster: &Cluster, node: NodeId, event: Event, cells: &mut Vec<Facts>)
    requires limits { KeepsLimits cluster.now }
    requires full { IsFull cluster.now cells.old.items }
    ensures { TellsEvent cluster.now event (λ r n. node == n) cells.old.items cells.new.items }
{
    for leaf in 0..cluster.leaves.len() {
        tell_cell(cluster, leaf as u32, node, event, cells);
    }
}

/// Tells both cells of a migration of one more event.
fn tell_both(
    cluster: &Cluster,
    leaf: LeafId,
    source: NodeId,
    target: NodeId,
    event: Event,
    cells: &mut Vec<Facts>,
)
    requires { IsFull cluster.now cells.old.items }
    ensures { TellsEvent cluster.now event (λ r n. is_same_cell r n leaf source || is_same_cell r n leaf target) cells.old.items cells.new.items }
{
    tell_cell(cluster, leaf, source, event, cells);
    if target != source {
        tell_cell(cluster, leaf, target, event, cells);
    }
}

/// Tells the cells that the action is about of the event.
fn tell_action(cluster: &Cluster, action: Action, event: Event, cells: &mut Vec<Facts>)
    requires limits { KeepsLimits cluster.now }
    requires full { IsFull cluster.now cells.old.items }
    ensures { TellsEvent cluster.now event (λ r n. action_touches r n action) cells.old.items cells.new.items }
{
    match action {
        Action::Fence { node } => tell_node(cluster, node, event, cells),
        Action::Probe { leaf, node } | Action::Operation { leaf, node, .. } => {
            tell_cell(cluster, leaf, node, event, cells)
        }
        Action::MigrateTo {
            leaf,
            source,
            target,
        }
        | Action::MigrateFrom {
            leaf,
            source,
            target,
        } => tell_both(cluster, leaf, source, target, event, cells),
    }
}

/// Tells all cells of one more event that it is about.
pub fn tell(cluster: &Cluster, event: Event, cells: &mut Vec<Facts>)
    requires limits { KeepsLimits cluster.now }
    requires full { IsFull cluster.now cells.old.items }
    ensures { TellsEvent cluster.now event (λ r n. touches r n event) cells.old.items cells.new.items }
{
    match event {
        Event::Up { node } | Event::Down { node } | Event::Lost { node } => {
            tell_node(cluster, node, event, cells)
        }
        Event::Cleanup { leaf, node } => tell_cell(cluster, leaf, node, event, cells),
        Event::Begin { action, .. } | Event::Ended { action, .. } => {
            tell_action(cluster, action, event, cells)
        }
        Event::Quorum { .. } | Event::Wait { .. } => {}
    }
}

/// What no event tells of any cell.
pub fn nothing_told(alloc: Global, cluster: &Cluster) -> Result<Vec<Facts>, AllocError>
    requires { KeepsLimits cluster.now }
    ensures { IfOk result (λ cells. KeepsFacts cluster.now [] cells.items) }
{
    let count = cluster.leaves.len() * cluster.nodes.len();
    let mut cells = Vec::with_capacity(alloc, count)?;
    while cells.len() < count {
        cells.push(Facts::none())?;
    }
    Ok(cells)
}
