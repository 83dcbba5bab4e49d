//! Which outcomes of an action are good, bad or ignored, and what follows a bad one.

ghost use Rattle.std.specs.Prelude.{◌≡◌, ◌==◌};
ghost use Rattle.std.specs.List.{list_any};
ghost use Rattle.cluster_types.specs.Outcomes as outcomes;
ghost use Rattle.state_unpack.specs.Inner.LeafFields.{on_fail_of_leaf};

use cluster_types::exit_codes::{
    DEGRADED, DEGRADED_PROMOTED, NOT_RUNNING, RUNNING_PROMOTED, SUCCESS,
};
use cluster_types::{Action, Cluster, Leaf, LeafId, Monitor, OnFail, Op, Outcome};

fn has_code(codes: &[u8], code: u8) -> bool
    ensures { result ≡ list_any (λ each. each == code) codes.now }
{
    codes.iter().any(|each| *each == code)
}

/// Whether the outcome is one of these exit codes.
pub fn is_among(codes: &[u8], outcome: Outcome) -> bool
    ensures { result ≡ outcomes.is_code_among codes.now outcome }
{
    match outcome {
        Outcome::Code(code) => has_code(codes, code),
        _ => false,
    }
}

fn good_codes_of_op(op: Op) -> &'static [u8]
    ensures { result.now ≡ outcomes.good_codes_of_op op }
{
    match op {
        Op::Start | Op::Stop | Op::Promote | Op::Demote => &[SUCCESS],
        Op::Monitor => &[SUCCESS, DEGRADED, RUNNING_PROMOTED, DEGRADED_PROMOTED],
    }
}

fn good_codes(action: Action) -> &'static [u8]
    ensures { result.now ≡ outcomes.good_codes action }
{
    match action {
        Action::Probe { .. } => &[
            SUCCESS,
            DEGRADED,
            NOT_RUNNING,
            RUNNING_PROMOTED,
            DEGRADED_PROMOTED,
        ],
        Action::Operation { op, .. } => good_codes_of_op(op),
        Action::Fence { .. } | Action::MigrateTo { .. } | Action::MigrateFrom { .. } => &[SUCCESS],
    }
}

/// Whether the outcome of the action is bad: it took too long, or its exit code is none of the good ones. Good are 0; of a monitor of either role
/// also 190, 8 and 191; of a probe also 190, 7, 8 and 191. What is gone with its node is neither good nor bad (OCF Resource Agent API 1.1, exit
/// status codes; which are good of which action is a rule of this project).
pub fn is_bad(action: Action, outcome: Outcome) -> bool
    ensures { result ≡ outcomes.is_bad action outcome }
{
    match outcome {
        Outcome::Code(code) => !has_code(good_codes(action), code),
        Outcome::TimedOut => true,
        Outcome::Gone => false,
    }
}

fn on_fail_of_monitor(monitors: &[Monitor], interval_ms: u32) -> OnFail
    ensures { result ≡ outcomes.on_fail_of_monitor monitors.now interval_ms }
{
    for monitor in monitors {
        if monitor.interval_ms == interval_ms {
            return monitor.on_fail;
        }
    }
    OnFail::Restart
}

fn on_fail_of_leaf(leaf: &Leaf, op: Op, interval_ms: u32) -> OnFail
    ensures { result ≡ on_fail_of_leaf leaf.now op interval_ms }
{
    match op {
        Op::Start => leaf.start_fail,
        Op::Stop => leaf.stop_fail,
        Op::Promote => leaf.promote_fail,
        Op::Demote => leaf.demote_fail,
        Op::Monitor => on_fail_of_monitor(leaf.monitors.as_slice(), interval_ms),
    }
}

fn on_fail_of_op(cluster: &Cluster, leaf: LeafId, op: Op, interval_ms: u32) -> OnFail
    ensures { result ≡ outcomes.on_fail_of_op cluster.now leaf op interval_ms }
{
    match cluster.leaf(leaf) {
        Some(leaf) => on_fail_of_leaf(leaf, op, interval_ms),
        None => OnFail::Restart,
    }
}

fn on_fail_of_action(cluster: &Cluster, action: Action) -> OnFail
    ensures { result ≡ outcomes.on_fail_of_action cluster.now action }
{
    match action {
        Action::Operation {
            op,
            leaf,
            interval_ms,
            ..
        } => on_fail_of_op(cluster, leaf, op, interval_ms),
        _ => OnFail::Restart,
    }
}

/// What the failure of the action leads to. A failure that wants its node fenced blocks the resource where the cluster doesn't fence; that of a
/// probe, of a migration and of a monitor without a statement of its interval restarts it (Pacemaker Explained, "on-fail"; these three are rules
/// of this project).
pub fn effective_on_fail(cluster: &Cluster, action: Action) -> OnFail
    ensures { result ≡ outcomes.effective_on_fail cluster.now action }
{
    match on_fail_of_action(cluster, action) {
        OnFail::Fence if !cluster.properties.fencing => OnFail::Block,
        other => other,
    }
}

fn is_monitor(action: Action) -> bool
    ensures { result ≡ outcomes.is_monitor action }
{
    matches!(
        action,
        Action::Operation {
            op: Op::Monitor,
            ..
        }
    )
}

/// Whether the outcome is ignored: a bad one of a monitor whose on-fail is `ignore`. It shows that the monitor runs, and nothing else (Pacemaker
/// Explained, "on-fail"; that it counts nowhere else is a rule of this project).
pub fn is_ignored(cluster: &Cluster, action: Action, outcome: Outcome) -> bool
    ensures { result ≡ outcomes.is_ignored cluster.now action outcome }
{
    is_monitor(action)
        && is_bad(action, outcome)
        && on_fail_of_action(cluster, action) == OnFail::Ignore
}
