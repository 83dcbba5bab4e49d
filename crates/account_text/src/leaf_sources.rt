//! What gives a leaf its own terms, found once for all nodes.

ghost use Rattle.std.specs.Prelude.{◌≡◌, ◌==◌, ◌<◌, ◌≤◌, ℕ, length, IfOk};
ghost use Rattle.cluster_types.specs.Valid.{IsValid};
ghost use Rattle.account_text.specs.Inner.Sources as spec;

use cluster_types::{Cluster, LeafId, Location, RuleLocation};
use faults::NoMemory;
use placement::{nodes_of, unnamed_nodes};
use score::NodeSet;
use std::alloc::{AllocError, Global};

/// A location with a rule, and the nodes at which its rule holds.
#[derive(Drop)]
pub(crate) struct Ruled<'c> {
    pub(crate) rule: &'c RuleLocation,
    pub(crate) nodes: NodeSet,
}

/// The locations of a leaf in their order, and the nodes that a location must name for it, and none does.
#[derive(Drop)]
pub(crate) struct LeafSources<'c> {
    pub(crate) located: Vec<&'c Location>,
    pub(crate) ruled: Vec<Ruled<'c>>,
    pub(crate) unnamed: NodeSet,
}

/// The locations of the leaf without a rule.
fn all_located(alloc: Global, cluster: &Cluster, leaf: LeafId) -> Result<Vec<&Location>, AllocError>
    ensures { IfOk result (λ all. spec.AreLocated cluster.now.locations leaf all.items) }
{
    let mut all = Vec::new(alloc);
    for rule in cluster.locations.as_slice() {
        if rule.leaf != leaf {
            continue;
        }
        all.push(rule)?;
    }
    Ok(all)
}

/// The locations of the leaf with a rule, each with the nodes at which it holds at the moment.
fn all_ruled(
    alloc: Global,
    cluster: &Cluster,
    leaf: LeafId,
    moment: u64,
) -> Result<Vec<Ruled>, AllocError>
    requires { length cluster.now.nodes ≤ 256 }
    ensures { IfOk result (λ all. spec.AreRuled cluster.now moment cluster.now.rule_locations leaf all.items) }
{
    let mut all = Vec::new(alloc);
    for rule in cluster.rule_locations.as_slice() {
        if rule.leaf != leaf {
            continue;
        }
        let nodes = nodes_of(cluster, rule, moment);
        all.push(Ruled { rule, nodes })?;
    }
    Ok(all)
}

impl<'c> LeafSources<'c> {
    /// What gives the leaf its own terms at the moment.
    pub(crate) fn of(
        alloc: Global,
        cluster: &'c Cluster,
        leaf: LeafId,
        moment: u64,
    ) -> Result<LeafSources<'c>, NoMemory>
        requires { IsValid cluster.now }
        ensures { IfOk result (spec.IsSourceOf cluster.now moment leaf) }
    {
        let located = all_located(alloc, cluster, leaf)?;
        let ruled = all_ruled(alloc, cluster, leaf, moment)?;
        let unnamed = unnamed_nodes(cluster, leaf, moment);
        Ok(LeafSources {
            located,
            ruled,
            unnamed,
        })
    }
}
