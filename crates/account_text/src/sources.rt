//! What gives all leaves their own terms.

ghost use Rattle.std.specs.Prelude.{◌≡◌, ◌<◌, ◌≤◌, length, IfOk};
ghost use Rattle.cluster_types.specs.Valid.{IsValid, KeepsLimits};
ghost use Rattle.account_text.specs.Inner.Sources as spec;

use crate::leaf_sources::LeafSources;
use cluster_types::{Cluster, LeafId, States};
use faults::NoMemory;
use std::alloc::Global;

/// What gives each leaf of a cluster in some states its own terms.
#[derive(Drop)]
pub(crate) struct Sources<'c> {
    pub(crate) cluster: &'c Cluster,
    pub(crate) states: &'c States,
    /// One for each leaf.
    leaves: Vec<LeafSources<'c>>,
    pub(crate) ghost limits: { KeepsLimits cluster.now },
    pub(crate) ghost are: { spec.AreSources cluster.now states.now.moment leaves.items },
}

/// What gives each leaf its own terms at the moment, leaf by leaf.
fn of_leaves(alloc: Global, cluster: &Cluster, moment: u64) -> Result<Vec<LeafSources>, NoMemory>
    requires { IsValid cluster.now }
    ensures { IfOk result (λ leaves. spec.AreSources cluster.now moment leaves.items) }
{
    let mut leaves = Vec::with_capacity(alloc, cluster.leaves.len())?;
    for leaf in 0..cluster.leaves.len() {
        let of_leaf = LeafSources::of(alloc, cluster, leaf as u32, moment)?;
        leaves.push_reserved(of_leaf);
    }
    Ok(leaves)
}

impl<'c> Sources<'c> {
    pub(crate) fn new(
        alloc: Global,
        cluster: &'c Cluster,
        states: &'c States,
    ) -> Result<Sources<'c>, NoMemory>
        requires { IsValid cluster.now }
        ensures cluster { IfOk result (λ sources. sources.cluster.now ≡ cluster.now) }
        ensures states { IfOk result (λ sources. sources.states.now ≡ states.now) }
    {
        let leaves = of_leaves(alloc, cluster, states.moment)?;
        Ok(Sources {
            cluster,
            states,
            leaves,
        })
    }

    /// What gives a leaf that is there its own terms.
    pub(crate) fn of_leaf(&self, leaf: LeafId) -> &LeafSources<'c>
        requires { leaf < length self.now.cluster.now.leaves }
        ensures { spec.IsSourceOf self.now.cluster.now self.now.states.now.moment leaf result.now }
    {
        &self.leaves[leaf as usize]
    }
}
