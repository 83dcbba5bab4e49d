//! Reasons that are no rule's.

ghost use Rattle.std.specs.Prelude.{◌≡◌};
ghost use Rattle.cluster_types.specs.Choice.{is_stopped_role};
ghost use Rattle.placement.specs.Inner.Reasoning as spec;

use cluster_types::{Cluster, LeafId, NoReason, TargetRole};

fn is_stopped(role: TargetRole) -> bool
    ensures { result ≡ is_stopped_role role }
{
    role == TargetRole::Stopped
}

/// The first reason that holds, of those that are no rule's: the leaf may have no copy, it is to be stopped, a failure stops it, all are stopped, the
/// cluster may not start it, or no node was chosen for it.
pub fn plain_reason(
    cluster: &Cluster,
    leaf: LeafId,
    stopped: bool,
    may_start: bool,
    nowhere: bool,
) -> Option<NoReason>
    ensures { result ≡ spec.plain_by cluster.now leaf stopped may_start nowhere }
{
    if cluster.copies(leaf) == 0 {
        Some(NoReason::NoCopies)
    } else if is_stopped(cluster.target_role(leaf)) {
        Some(NoReason::Stopped)
    } else if stopped {
        Some(NoReason::OnFail)
    } else if cluster.properties.stop_all {
        Some(NoReason::StopAll)
    } else if !may_start {
        Some(NoReason::NoQuorum)
    } else if nowhere {
        Some(NoReason::NoNode)
    } else {
        None
    }
}
