//! Which events are failures, and of which kind.

ghost use Rattle.std.specs.Prelude.{◌≡◌};
ghost use Rattle.cluster_types.specs.CellStates.{asks_for_block};
ghost use Rattle.cluster_types.specs.Failures as failures;
ghost use Rattle.cluster_types.specs.NodeStates.{asks_for_fence};

use crate::outcomes::{effective_on_fail, is_among, is_bad, is_ignored};
use cluster_types::{Action, Cluster, Event, LeafId, NodeId, OnFail, Op};

/// Whether the event is an outcome of the cell that isn't ignored.
pub fn is_outcome(cluster: &Cluster, leaf: LeafId, node: NodeId, event: Event) -> bool
    ensures { result ≡ failures.is_outcome cluster.now leaf node event }
{
    match event {
        Event::Ended {
            action,
            outcome,
            ..
        } => action.is_of_cell(leaf, node) && !is_ignored(cluster, action, outcome),
        _ => false,
    }
}

/// Whether the event is an outcome that is bad.
pub fn is_failure(event: Event) -> bool
    ensures { result ≡ failures.is_failure event }
{
    match event {
        Event::Ended {
            action,
            outcome,
            ..
        } => is_bad(action, outcome),
        _ => false,
    }
}

/// Whether a start ended.
pub fn is_start(event: Event) -> bool
    ensures { result ≡ failures.is_start event }
{
    matches!(
        event,
        Event::Ended {
            action: Action::Operation { op: Op::Start, .. },
            ..
        }
    )
}

/// Whether an action ended with one of these exit codes.
pub fn has_code(codes: &[u8], event: Event) -> bool
    ensures { result ≡ failures.has_code codes.now event }
{
    match event {
        Event::Ended { outcome, .. } => is_among(codes, outcome),
        _ => false,
    }
}

/// Whether an action ended whose failure leads to this.
pub fn wants(what: OnFail, cluster: &Cluster, event: Event) -> bool
    ensures stop { what ≡ OnFail.Stop → result ≡ failures.asks_for_stop cluster.now event }
    ensures fence { what ≡ OnFail.Fence → result ≡ asks_for_fence cluster.now event }
    ensures block { what ≡ OnFail.Block → result ≡ asks_for_block cluster.now event }
{
    match event {
        Event::Ended { action, .. } => effective_on_fail(cluster, action) == what,
        _ => false,
    }
}

/// When the action ended, in seconds.
pub fn ended_at(event: Event) -> u64
    ensures { result ≡ failures.ended_at event }
{
    match event {
        Event::Ended { moment, .. } => moment,
        _ => 0,
    }
}
