//! Of which cells a journal has heard.

ghost use Rattle.std.specs.Prelude.{◌≡◌, ◌*◌, ◌==◌, ◌++◌, ◌∷◌, [], true, false, IfOk, length, List};
ghost use Rattle.cluster_types.specs.declared.journal.Event.{Event as EventOf};
ghost use Rattle.cluster_types.specs.Cells as cells;
ghost use Rattle.cluster_types.specs.Valid.{KeepsLimits};
ghost use Rattle.simulated.specs.Inner.Firsts.{HearsOutcomes, IsSaidOf};

use cluster_types::{Action, Cluster, Event, LeafId, NodeId, cell_place};
use state_unpack::is_ignored;
use std::alloc::{AllocError, Global};

/// From now on this is so of the cell, if there is such a cell.
fn say_of_cell(cluster: &Cluster, leaf: LeafId, node: NodeId, is_heard: bool, heard: &mut Vec<bool>)
    requires { length heard.old.items ≡ length cluster.now.leaves * length cluster.now.nodes }
    ensures { IsSaidOf cluster.now (λ r n. cells.is_same_cell r n leaf node) is_heard heard.old.items heard.new.items }
{
    let nodes = cluster.nodes.len();
    if (leaf as usize) < cluster.leaves.len() && (node as usize) < nodes {
        let place = cell_place(nodes, leaf, node);
        heard[place] = is_heard;
    }
}

/// Nothing that was heard of a node counts any more.
fn forget_node(cluster: &Cluster, node: NodeId, heard: &mut Vec<bool>)
    requires limits { KeepsLimits cluster.now }
    requires full { length heard.old.items ≡ length cluster.now.leaves * length cluster.now.nodes }
    ensures { IsSaidOf cluster.now (λ r n. node == n) false heard.old.items heard.new.items }
{
    for leaf in 0..cluster.leaves.len() {
        say_of_cell(cluster, leaf as u32, node, false, heard);
    }
}

/// An outcome of an action was heard: of its cell, if it has one.
fn hear_of(cluster: &Cluster, action: Action, heard: &mut Vec<bool>)
    requires { length heard.old.items ≡ length cluster.now.leaves * length cluster.now.nodes }
    ensures { IsSaidOf cluster.now (λ r n. cells.is_of_cell r n action) true heard.old.items heard.new.items }
{
    match action {
        Action::Fence { .. } => {}
        Action::Probe { leaf, node } | Action::Operation { leaf, node, .. } => {
            say_of_cell(cluster, leaf, node, true, heard)
        }
        Action::MigrateTo { leaf, source, .. } => say_of_cell(cluster, leaf, source, true, heard),
        Action::MigrateFrom { leaf, target, .. } => say_of_cell(cluster, leaf, target, true, heard),
    }
}

/// One more event.
fn hear(cluster: &Cluster, event: Event, heard: &mut Vec<bool>)
    requires limits { KeepsLimits cluster.now }
    requires full { length heard.old.items ≡ length cluster.now.leaves * length cluster.now.nodes }
    ensures heard { (es : List EventOf) → HearsOutcomes cluster.now es heard.old.items → HearsOutcomes cluster.now (es ++ event ∷ []) heard.new.items }
    ensures len { length heard.new.items ≡ length heard.old.items }
{
    match event {
        Event::Up { node } => forget_node(cluster, node, heard),
        Event::Cleanup { leaf, node } => say_of_cell(cluster, leaf, node, false, heard),
        Event::Ended {
            action,
            outcome,
            ..
        } => {
            if !is_ignored(cluster, action, outcome) {
                hear_of(cluster, action, heard);
            }
        }
        Event::Down { .. }
        | Event::Lost { .. }
        | Event::Quorum { .. }
        | Event::Wait { .. }
        | Event::Begin { .. } => {}
    }
}

/// Before the first event nothing was heard of any cell.
fn nothing_heard(alloc: Global, cluster: &Cluster) -> Result<Vec<bool>, AllocError>
    requires { KeepsLimits cluster.now }
    ensures { IfOk result (λ heard. HearsOutcomes cluster.now [] heard.items) }
{
    let count = cluster.leaves.len() * cluster.nodes.len();
    let mut heard = Vec::with_capacity(alloc, count)?;
    while heard.len() < count {
        heard.push(false)?;
    }
    Ok(heard)
}

/// Of which cells these events tell an outcome in force, leaf by leaf and node by node.
pub(crate) fn heard_of(
    alloc: Global,
    cluster: &Cluster,
    events: &[Event],
) -> Result<Vec<bool>, AllocError>
    requires { KeepsLimits cluster.now }
    ensures { IfOk result (λ heard. HearsOutcomes cluster.now events.now heard.items) }
{
    let mut heard = nothing_heard(alloc, cluster)?;
    for event in events {
        hear(cluster, *event, &mut heard);
    }
    Ok(heard)
}
