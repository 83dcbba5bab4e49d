//! Which events open a cell for its leaf to be promoted, and which close it.

ghost use Rattle.std.specs.Prelude.{◌≡◌, ℕ};
ghost use Rattle.cluster_types.specs.May as may;
ghost use Rattle.cluster_types.specs.declared.journal.Event.TheVariants.{Ended};
ghost use Rattle.state_unpack.specs.Inner.Operations as operations;

use crate::is_among;
use crate::showing::{shows_nothing, takes_out};
use cluster_types::exit_codes::{
    DEGRADED, DEGRADED_PROMOTED, ERR_INSTALLED, FAILED_PROMOTED, NOT_RUNNING, RUNNING_PROMOTED,
    SUCCESS,
};
use cluster_types::{Action, Cluster, Event, LeafId, NodeId, Op, Outcome, is_same_cell};

/// The exit codes of probes and monitors that find a resource promoted.
const PROMOTED: &[u8] = &[RUNNING_PROMOTED, FAILED_PROMOTED, DEGRADED_PROMOTED];

/// Whether a resource may be promoted after the operation ended so, if it wasn't before.
fn may_be_promoted_after(op: Op, outcome: Outcome) -> bool
    ensures { result ≡ operations.may_be_promoted_after op outcome }
{
    match op {
        Op::Promote => true,
        Op::Start | Op::Stop | Op::Demote => false,
        Op::Monitor => is_among(PROMOTED, outcome),
    }
}

/// Whether the leaf may be promoted on the node once the action ended so.
fn promotes_as_it_ends(leaf: LeafId, node: NodeId, action: Action, outcome: Outcome) -> bool
    ensures { (number moment : ℕ) → result ≡ may.promotes_cell leaf node (Ended number action outcome moment) }
{
    match action {
        Action::Operation {
            op,
            leaf: its_leaf,
            node: its_node,
            ..
        } => is_same_cell(leaf, node, its_leaf, its_node) && may_be_promoted_after(op, outcome),
        Action::Probe {
            leaf: its_leaf,
            node: its_node,
        } => is_same_cell(leaf, node, its_leaf, its_node) && is_among(PROMOTED, outcome),
        _ => false,
    }
}

fn promotes_cell(leaf: LeafId, node: NodeId, event: Event) -> bool
    ensures { result ≡ may.promotes_cell leaf node event }
{
    match event {
        Event::Up { node: joined } => joined == node,
        Event::Begin {
            action: Action::Operation {
                op: Op::Promote,
                leaf: its_leaf,
                node: its_node,
                ..
            },
            ..
        } => is_same_cell(leaf, node, its_leaf, its_node),
        Event::Ended {
            action,
            outcome,
            ..
        } => promotes_as_it_ends(leaf, node, action, outcome),
        _ => false,
    }
}

/// Whether the operation that ended so shows that the resource isn't promoted.
fn is_unpromoted_after(op: Op, outcome: Outcome) -> bool
    ensures { result ≡ operations.is_unpromoted_after op outcome }
{
    match op {
        Op::Start | Op::Stop | Op::Demote => is_among(&[SUCCESS], outcome),
        Op::Promote => false,
        Op::Monitor => is_among(&[SUCCESS, DEGRADED, NOT_RUNNING], outcome),
    }
}

fn demotes_cell(leaf: LeafId, node: NodeId, event: Event) -> bool
    ensures { result ≡ may.demotes_cell leaf node event }
{
    match event {
        Event::Ended {
            action: Action::Operation {
                op,
                leaf: its_leaf,
                node: its_node,
                ..
            },
            outcome,
            ..
        } => is_same_cell(leaf, node, its_leaf, its_node) && is_unpromoted_after(op, outcome),
        Event::Ended {
            action: Action::Probe {
                leaf: its_leaf,
                node: its_node,
            },
            outcome,
            ..
        } => is_same_cell(leaf, node, its_leaf, its_node)
            && is_among(&[SUCCESS, DEGRADED, NOT_RUNNING, ERR_INSTALLED], outcome),
        _ => false,
    }
}

/// Whether the leaf may be promoted on the node from the event on.
pub fn opens_promoted(cluster: &Cluster, leaf: LeafId, node: NodeId, event: Event) -> bool
    ensures { result ≡ may.opens_promoted cluster.now leaf node event }
{
    promotes_cell(leaf, node, event) && !shows_nothing(cluster, event)
}

/// Whether it is known from the event on that the leaf isn't promoted on the node.
pub fn closes_promoted(cluster: &Cluster, leaf: LeafId, node: NodeId, event: Event) -> bool
    ensures { result ≡ may.closes_promoted cluster.now leaf node event }
{
    takes_out(cluster.properties.fencing, node, event)
        || demotes_cell(leaf, node, event) && !shows_nothing(cluster, event)
}
