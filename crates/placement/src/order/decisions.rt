//! What is decided.

ghost use Rattle.std.specs.Prelude.{◌≡◌, ◌++◌, IfOk, OnOk};
ghost use Rattle.cluster_types.specs.Valid.{KeepsLimits};
ghost use Rattle.placement.specs.Inner.DecisionLists as spec;

use cluster_types::{Cluster, Decision, LeafId, Pin, is_pinned};
use std::alloc::{AllocError, Global};

/// Adds what is decided of a leaf: where it is placed, and where it is promoted, if it isn't left as it is.
fn push_leaf(
    cluster: &Cluster,
    pins: &[Option<Pin>],
    leaf: LeafId,
    decisions: &mut Vec<Decision>,
) -> Result<(), AllocError>
    ensures { OnOk result (decisions.new.items ≡ decisions.old.items ++ spec.decisions_in_leaf cluster.now pins.now leaf) }
{
    if is_pinned(pins, leaf) {
        return Ok(());
    }
    decisions.push(Decision::Place(leaf))?;
    if cluster.is_promotable(leaf) {
        decisions.push(Decision::Promote(leaf))?;
    }
    Ok(())
}

/// All that is decided, leaf by leaf.
pub(crate) fn all_decisions(
    alloc: Global,
    cluster: &Cluster,
    pins: &[Option<Pin>],
) -> Result<Vec<Decision>, AllocError>
    requires { KeepsLimits cluster.now }
    ensures { IfOk result (λ decisions. decisions.items ≡ spec.decisions_in cluster.now pins.now) }
{
    let mut decisions = Vec::new(alloc);
    for leaf in 0..cluster.leaves.len() {
        push_leaf(cluster, pins, leaf as u32, &mut decisions)?;
    }
    Ok(decisions)
}
