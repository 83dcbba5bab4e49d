//! What is decided of a cluster.

ghost use Rattle.std.specs.Prelude.{◌≡◌, ◌<◌, ◌≤◌, Contains, length, IfOk};
ghost use Rattle.cluster_types.specs.declared.placement.Decision.{Decision as DecisionOf};
ghost use Rattle.cluster_types.specs.Decisions.{leaf_of};
ghost use Rattle.cluster_types.specs.Valid.{KeepsLimits};
ghost use Rattle.placement.specs.Inner.DecisionLists.{decisions_in};

use crate::order::decisions::all_decisions;
use cluster_types::{Cluster, Decision, Pin};
use std::alloc::{AllocError, Global};

/// All that is decided of a cluster, leaf by leaf.
#[derive(Drop)]
pub(crate) struct DecisionSet<'c> {
    pub(crate) cluster: &'c Cluster,
    pub(crate) list: Vec<Decision>,
    pub(crate) ghost limits: { KeepsLimits cluster.now },
    pub(crate) ghost few: { length list.items ≤ 2000 },
    pub(crate) ghost within: { (d : DecisionOf) → Contains list.items d → leaf_of d < length cluster.now.leaves },
}

impl<'c> DecisionSet<'c> {
    pub(crate) fn new(
        alloc: Global,
        cluster: &'c Cluster,
        pins: &[Option<Pin>],
    ) -> Result<DecisionSet<'c>, AllocError>
        requires { KeepsLimits cluster.now }
        ensures cluster { IfOk result (λ set. set.cluster.now ≡ cluster.now) }
        ensures list { IfOk result (λ set. set.list.items ≡ decisions_in cluster.now pins.now) }
    {
        let list = all_decisions(alloc, cluster, pins)?;
        Ok(DecisionSet { cluster, list })
    }
}
