//! What an event means for the transition that it is of.

ghost use Rattle.std.specs.Prelude.{◌≡◌};
ghost use Rattle.cluster_types.specs.Journals as journals;
ghost use Rattle.cluster_types.specs.Steps as steps;

use cluster_types::exit_codes::{
    DEGRADED, DEGRADED_PROMOTED, NOT_RUNNING, RUNNING_PROMOTED, SUCCESS,
};
use cluster_types::{Action, Cluster, Event, NodeId, Op, Outcome, Role};
use state_unpack::{is_among, is_ignored};

/// The exit codes that are expected of the action.
fn expected_codes(action: Action) -> &'static [u8]
    ensures { result.now ≡ steps.expected_codes action }
{
    match action {
        Action::Probe { .. } => &[NOT_RUNNING],
        Action::Operation {
            op: Op::Monitor,
            role: Role::Promoted,
            ..
        } => &[RUNNING_PROMOTED, DEGRADED_PROMOTED],
        Action::Operation {
            op: Op::Monitor,
            ..
        } => &[SUCCESS, DEGRADED],
        _ => &[SUCCESS],
    }
}

/// The exit code with which the action ends when nothing more is said of it.
pub fn silent_code(action: Action) -> u8
    ensures { result ≡ steps.silent_code action }
{
    match action {
        Action::Probe { .. } => NOT_RUNNING,
        Action::Operation {
            op: Op::Monitor,
            role: Role::Promoted,
            ..
        } => RUNNING_PROMOTED,
        _ => SUCCESS,
    }
}

/// Whether the outcome of the action is a success: an expected exit code, or one that is ignored.
pub fn is_success(cluster: &Cluster, action: Action, outcome: Outcome) -> bool
    ensures { result ≡ steps.is_success cluster.now action outcome }
{
    is_among(expected_codes(action), outcome) || is_ignored(cluster, action, outcome)
}

/// Whether the event aborts the transition.
pub fn aborts(cluster: &Cluster, event: Event) -> bool
    ensures { result ≡ steps.aborts cluster.now event }
{
    match event {
        Event::Ended {
            outcome: Outcome::Gone,
            ..
        } => false,
        Event::Ended {
            action,
            outcome,
            ..
        } => !is_success(cluster, action, outcome),
        Event::Up { .. } | Event::Lost { .. } | Event::Quorum { .. } => true,
        Event::Down { .. } | Event::Wait { .. } | Event::Cleanup { .. } | Event::Begin { .. } => {
            false
        }
    }
}

/// Whether the event is an answer from outside, and no end of an action of the transition.
pub fn is_from_outside(event: Event) -> bool
    ensures { result ≡ steps.is_from_outside event }
{
    match event {
        Event::Ended { number, .. } => number == 0,
        Event::Up { .. } | Event::Lost { .. } | Event::Quorum { .. } | Event::Wait { .. } => true,
        Event::Down { .. } | Event::Cleanup { .. } | Event::Begin { .. } => false,
    }
}

/// Whether the action is of a cell on the node.
pub fn is_on(node: NodeId, action: Action) -> bool
    ensures { result ≡ journals.is_on node action }
{
    match action {
        Action::Fence { .. } => false,
        Action::Probe { node: its_node, .. } | Action::Operation { node: its_node, .. } => {
            its_node == node
        }
        Action::MigrateTo { source, .. } => source == node,
        Action::MigrateFrom { target, .. } => target == node,
    }
}
