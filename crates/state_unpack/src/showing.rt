//! What an event shows of a node and of the monitors of a cell.

ghost use Rattle.std.specs.Prelude.{◌≡◌};
ghost use Rattle.cluster_types.specs.CellStates as cells;
ghost use Rattle.cluster_types.specs.May as may;

use crate::is_ignored;
use cluster_types::exit_codes::SUCCESS;
use cluster_types::{Action, Cluster, Event, LeafId, NodeId, Op, Outcome};

/// Whether the event shows an outcome that is ignored.
pub fn shows_nothing(cluster: &Cluster, event: Event) -> bool
    ensures { result ≡ may.shows_nothing cluster.now event }
{
    match event {
        Event::Ended {
            action,
            outcome,
            ..
        } => is_ignored(cluster, action, outcome),
        _ => false,
    }
}

/// Whether the node is out from the event on: it is down, it was fenced, or it was lost where a lost node is taken as down.
pub fn takes_out(fencing: bool, node: NodeId, event: Event) -> bool
    ensures { result ≡ may.takes_out fencing node event }
{
    match event {
        Event::Down { node: its_node } => its_node == node,
        Event::Lost { node: its_node } => its_node == node && !fencing,
        Event::Ended {
            action: Action::Fence { node: its_node },
            outcome,
            ..
        } => its_node == node && outcome == Outcome::Code(SUCCESS),
        _ => false,
    }
}

/// Whether the event says that the leaf was sent away from the cell that it is of.
pub fn is_sent_away(event: Event) -> bool
    ensures { result ≡ cells.is_sent_away event }
{
    matches!(
        event,
        Event::Ended {
            action: Action::MigrateTo { .. },
            ..
        }
    )
}

/// Whether a migration to the cell begins.
pub fn begins_sending_to(leaf: LeafId, node: NodeId, event: Event) -> bool
    ensures { result ≡ cells.begins_sending_to leaf node event }
{
    match event {
        Event::Begin { action, .. } => action.is_sent_to(leaf, node),
        _ => false,
    }
}

fn changes_cell(leaf: LeafId, node: NodeId, action: Action) -> bool
    ensures { result ≡ cells.changes_cell leaf node action }
{
    match action {
        Action::Fence { .. }
        | Action::Probe { .. }
        | Action::Operation {
            op: Op::Monitor,
            ..
        } => false,
        other => other.is_of_cell(leaf, node),
    }
}

/// Whether the event ends what the monitors of the cell were doing.
pub fn ends_monitors(leaf: LeafId, node: NodeId, event: Event) -> bool
    ensures { result ≡ cells.ends_monitors leaf node event }
{
    match event {
        Event::Begin { action, .. } | Event::Ended { action, .. } => {
            changes_cell(leaf, node, action)
        }
        other => other.is_reset(leaf, node),
    }
}

/// Whether the monitor of the cell with this interval answered.
pub fn is_end_of_monitor(leaf: LeafId, node: NodeId, interval_ms: u32, event: Event) -> bool
    ensures { result ≡ cells.is_end_of_monitor leaf node interval_ms event }
{
    match event {
        Event::Ended {
            action: Action::Operation {
                op: Op::Monitor,
                leaf: its_leaf,
                node: its_node,
                interval_ms: its_interval_ms,
                ..
            },
            ..
        } => its_leaf == leaf && its_node == node && its_interval_ms == interval_ms,
        _ => false,
    }
}
