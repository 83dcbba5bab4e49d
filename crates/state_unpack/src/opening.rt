//! Which events open a cell for its leaf, and which close it.

ghost use Rattle.std.specs.Prelude.{◌≡◌, ℕ};
ghost use Rattle.cluster_types.specs.May as may;
ghost use Rattle.cluster_types.specs.declared.journal.Event.TheVariants.{Begin, Ended};
ghost use Rattle.state_unpack.specs.Inner.Operations as operations;

use crate::is_among;
use crate::showing::{shows_nothing, takes_out};
use cluster_types::exit_codes::{ERR_INSTALLED, NOT_RUNNING, SUCCESS};
use cluster_types::{Action, Cluster, Event, LeafId, NodeId, Op, Outcome, is_same_cell};

/// Whether the leaf may run on the node once the action begins.
fn opens_as_it_begins(leaf: LeafId, node: NodeId, action: Action) -> bool
    ensures { (number : ℕ) → result ≡ may.opens_cell leaf node (Begin number action) }
{
    match action {
        Action::Operation {
            op: Op::Start | Op::Promote | Op::Demote,
            leaf: its_leaf,
            node: its_node,
            ..
        }
        | Action::MigrateTo {
            leaf: its_leaf,
            target: its_node,
            ..
        }
        | Action::MigrateFrom {
            leaf: its_leaf,
            target: its_node,
            ..
        } => is_same_cell(leaf, node, its_leaf, its_node),
        _ => false,
    }
}

/// Whether a resource may run after the operation ended so.
fn may_run_after(op: Op, outcome: Outcome) -> bool
    ensures { result ≡ operations.may_run_after op outcome }
{
    match op {
        Op::Start | Op::Promote | Op::Demote => true,
        Op::Stop => false,
        Op::Monitor => !is_among(&[NOT_RUNNING], outcome),
    }
}

/// Whether the leaf may run on the node once the action ended so.
fn opens_as_it_ends(leaf: LeafId, node: NodeId, action: Action, outcome: Outcome) -> bool
    ensures { (number moment : ℕ) → result ≡ may.opens_cell leaf node (Ended number action outcome moment) }
{
    match action {
        Action::Operation {
            op,
            leaf: its_leaf,
            node: its_node,
            ..
        } => is_same_cell(leaf, node, its_leaf, its_node) && may_run_after(op, outcome),
        Action::Probe {
            leaf: its_leaf,
            node: its_node,
        } => is_same_cell(leaf, node, its_leaf, its_node)
            && !is_among(&[NOT_RUNNING, ERR_INSTALLED], outcome),
        Action::MigrateFrom {
            leaf: its_leaf,
            target,
            ..
        } => is_same_cell(leaf, node, its_leaf, target),
        Action::Fence { .. } | Action::MigrateTo { .. } => false,
    }
}

fn opens_cell(leaf: LeafId, node: NodeId, event: Event) -> bool
    ensures { result ≡ may.opens_cell leaf node event }
{
    match event {
        Event::Up { node: joined } => joined == node,
        Event::Begin { action, .. } => opens_as_it_begins(leaf, node, action),
        Event::Ended {
            action,
            outcome,
            ..
        } => opens_as_it_ends(leaf, node, action, outcome),
        _ => false,
    }
}

/// Whether the operation that ended so shows that the resource doesn't run.
fn is_off_after(op: Op, outcome: Outcome) -> bool
    ensures { result ≡ operations.is_off_after op outcome }
{
    match op {
        Op::Start | Op::Promote | Op::Demote => false,
        Op::Stop => is_among(&[SUCCESS], outcome),
        Op::Monitor => is_among(&[NOT_RUNNING], outcome),
    }
}

fn closes_cell(leaf: LeafId, node: NodeId, event: Event) -> bool
    ensures { result ≡ may.closes_cell leaf node event }
{
    match event {
        Event::Ended {
            action: Action::Operation {
                op,
                leaf: its_leaf,
                node: its_node,
                ..
            },
            outcome,
            ..
        } => is_same_cell(leaf, node, its_leaf, its_node) && is_off_after(op, outcome),
        Event::Ended {
            action: Action::Probe {
                leaf: its_leaf,
                node: its_node,
            },
            outcome,
            ..
        } => is_same_cell(leaf, node, its_leaf, its_node)
            && is_among(&[NOT_RUNNING, ERR_INSTALLED], outcome),
        _ => false,
    }
}

/// Whether the leaf may run on the node from the event on.
pub fn opens(cluster: &Cluster, leaf: LeafId, node: NodeId, event: Event) -> bool
    ensures { result ≡ may.opens cluster.now leaf node event }
{
    opens_cell(leaf, node, event) && !shows_nothing(cluster, event)
}

/// Whether it is known from the event on that the leaf doesn't run on the node.
pub fn closes(cluster: &Cluster, leaf: LeafId, node: NodeId, event: Event) -> bool
    ensures { result ≡ may.closes cluster.now leaf node event }
{
    takes_out(cluster.properties.fencing, node, event)
        || closes_cell(leaf, node, event) && !shows_nothing(cluster, event)
}
