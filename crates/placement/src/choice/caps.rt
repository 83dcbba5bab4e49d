//! How many nodes a decision chooses at most.

ghost use Rattle.std.specs.Prelude.{◌≡◌};
ghost use Rattle.cluster_types.specs.declared.placement.Decision.TheVariants.{Place};
ghost use Rattle.placement.specs.Inner.Reads as spec;

use cluster_types::{Cluster, Decision, LeafId, States, TargetRole};

/// Whether a failure stops the leaf everywhere.
pub(crate) fn is_fail_stopped(states: &States, leaf: LeafId) -> bool
    ensures { result ≡ spec.is_fail_stopped_in states.now leaf }
{
    match states.fail_stop.as_slice().get(leaf as usize) {
        Some(stopped) => *stopped,
        None => false,
    }
}

fn place_cap(cluster: &Cluster, states: &States, leaf: LeafId) -> u32
    ensures { result ≡ spec.cap_in cluster.now states.now (Place leaf) }
{
    if cluster.target_role(leaf) == TargetRole::Stopped || is_fail_stopped(states, leaf) {
        0
    } else {
        cluster.copies(leaf)
    }
}

fn promote_cap(cluster: &Cluster, leaf: LeafId) -> u32
    ensures { result ≡ spec.promote_cap_of cluster.now leaf }
{
    match cluster.target_role(leaf) {
        TargetRole::Stopped | TargetRole::Unpromoted => 0,
        _ => cluster.copies(leaf).min(cluster.promoted_copies(leaf)),
    }
}

/// How many nodes the decision chooses at most: the copies of the leaf, or for a promotion its promoted copies if they are fewer; none where the target
/// role forbids the role, or, for a place, a failure keeps the leaf stopped everywhere (Pacemaker Explained, "target-role", "clone-max" and
/// "promoted-max").
pub(crate) fn cap_of(cluster: &Cluster, states: &States, decision: Decision) -> u32
    ensures { result ≡ spec.cap_in cluster.now states.now decision }
{
    match decision {
        Decision::Place(leaf) => place_cap(cluster, states, leaf),
        Decision::Promote(leaf) => promote_cap(cluster, leaf),
    }
}
