//! What some events tell of a cell.

ghost use Rattle.std.specs.Prelude.{◌≡◌, ◌&&◌, ◌||◌, if◌then◌else◌, not};
ghost use Rattle.cluster_types.specs.CellStates.{begins_sending_to};
ghost use Rattle.cluster_types.specs.May.{closes, closes_promoted, opens, opens_promoted};
ghost use Rattle.state_unpack.specs.Facts as spec;
ghost use Rattle.state_unpack.specs.Inner.Facts as inner;

use crate::opening::{closes, opens};
use crate::promoting::{closes_promoted, opens_promoted};
use crate::showing::{begins_sending_to, ends_monitors, is_end_of_monitor, is_sent_away};
use crate::{Tally, is_failure, is_outcome};
use cluster_types::{Cluster, Event, LeafId, NodeId};

/// What some events tell of a cell, as far as later ones can change it.
#[derive(Clone, Copy)]
pub struct Facts {
    /// What the failures come to that are in force.
    pub tally: Tally,
    /// Whether an outcome is in force.
    pub seen: bool,
    /// Whether the last outcome in force is bad, or sent the leaf away.
    pub left: bool,
    /// Whether a migration to the cell began after the last outcome.
    pub awaited: bool,
    /// Whether the leaf may run there.
    pub may: bool,
    /// Whether it may be promoted there, if it ever may.
    pub promoted: bool,
    /// Which of its monitors are running, by their index.
    pub running: [bool; 8],
}

/// Whether the monitor of this index answered.
fn answers(cluster: &Cluster, leaf: LeafId, node: NodeId, event: Event, index: usize) -> bool
    ensures { result ≡ inner.answers cluster.now leaf node event index }
{
    match cluster.monitors(leaf).get(index) {
        Some(monitor) => is_end_of_monitor(leaf, node, monitor.interval_ms, event),
        None => false,
    }
}

/// Whether the monitor of this index is running after one more event.
fn runs_after(
    cluster: &Cluster,
    leaf: LeafId,
    node: NodeId,
    event: Event,
    index: usize,
    was_running: bool,
) -> bool
    ensures { result ≡ inner.runs_after cluster.now leaf node event index was_running }
{
    !ends_monitors(leaf, node, event) && (was_running || answers(cluster, leaf, node, event, index))
}

/// Which monitors are running after one more event, of those that were.
fn running_after(
    cluster: &Cluster,
    leaf: LeafId,
    node: NodeId,
    running: [bool; 8],
    event: Event,
) -> [bool; 8]
    ensures { result ≡ inner.running_after cluster.now leaf node running event }
{
    let mut after = running;
    for index in 0..8 {
        after[index] = runs_after(cluster, leaf, node, event, index, running[index]);
    }
    after
}

/// Whether an outcome is in force after one more event, which is an outcome or isn't.
fn seen_after(seen: bool, is_new: bool, is_outcome: bool) -> bool
    ensures { result ≡ (not is_new && (seen || is_outcome)) }
{
    !is_new && (seen || is_outcome)
}

/// Whether a migration to the cell began after the last outcome, with one more event, which is an outcome or isn't.
fn awaited_after(awaited: bool, leaf: LeafId, node: NodeId, event: Event, is_outcome: bool) -> bool
    ensures { result ≡ (not is_outcome && (awaited || begins_sending_to leaf node event)) }
{
    !is_outcome && (awaited || begins_sending_to(leaf, node, event))
}

/// Whether the leaf may run there after one more event.
fn may_after(cluster: &Cluster, leaf: LeafId, node: NodeId, event: Event, may: bool) -> bool
    ensures { result ≡ (opens cluster.now leaf node event || may && not (closes cluster.now leaf node event)) }
{
    opens(cluster, leaf, node, event) || may && !closes(cluster, leaf, node, event)
}

/// Whether it may be promoted there after one more event, if it ever may.
fn promoted_after(
    cluster: &Cluster,
    leaf: LeafId,
    node: NodeId,
    event: Event,
    promoted: bool,
) -> bool
    ensures { result ≡ (opens_promoted cluster.now leaf node event || promoted && not (closes_promoted cluster.now leaf node event)) }
{
    opens_promoted(cluster, leaf, node, event)
        || promoted && !closes_promoted(cluster, leaf, node, event)
}

/// Whether it is left open what runs there after one more event, which is an outcome or isn't.
fn left_after(left: bool, is_new: bool, is_outcome: bool, event: Event) -> bool
    ensures { result ≡ (not is_new && (if is_outcome then spec.leaves_open event else left)) }
{
    !is_new
        && if is_outcome {
            is_failure(event) || is_sent_away(event)
        } else {
            left
        }
}

impl Facts {
    /// What no event tells.
    pub fn none() -> Facts
        ensures { result ≡ inner.no_facts }
    {
        Facts {
            tally: Tally::none(),
            seen: false,
            left: false,
            awaited: false,
            may: false,
            promoted: false,
            running: [false; 8],
        }
    }

    /// What is told with one more event.
    pub fn after(self, cluster: &Cluster, leaf: LeafId, node: NodeId, event: Event) -> Facts
        ensures { result ≡ inner.facts_after cluster.now leaf node self event }
    {
        let is_new = event.is_reset(leaf, node);
        let is_outcome = is_outcome(cluster, leaf, node, event);
        Facts {
            tally: self.tally.after(cluster, leaf, node, event),
            seen: seen_after(self.seen, is_new, is_outcome),
            left: left_after(self.left, is_new, is_outcome, event),
            awaited: awaited_after(self.awaited, leaf, node, event, is_outcome),
            may: may_after(cluster, leaf, node, event, self.may),
            promoted: promoted_after(cluster, leaf, node, event, self.promoted),
            running: running_after(cluster, leaf, node, self.running, event),
        }
    }
}
