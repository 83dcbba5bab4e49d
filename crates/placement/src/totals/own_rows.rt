//! The rows of the own terms of all leaves.

ghost use Rattle.std.specs.Prelude.{◌≡◌, ◌<◌, ◌≤◌, ℕ, length, IfOk};
ghost use Rattle.cluster_types.specs.Valid.{IsValid, KeepsLimits};
ghost use Rattle.score.specs.NodeSet.{has};
ghost use Rattle.placement.specs.OwnRows.{AreOwnRows, own_by};
ghost use Rattle.placement.specs.Rows.{IsRow};
ghost use Rattle.placement.specs.UsableNodes.{is_usable_by};

use crate::totals::own::own_row;
use cluster_types::{Cluster, LeafId, NodeId, States};
use score::{NoMemory, NodeSet, Row};
use std::alloc::{AllocError, Global};

/// Of a cluster in some states: the rows of the own terms of all leaves, and the nodes that may run resources.
#[derive(Drop)]
pub struct OwnRows<'c> {
    pub cluster: &'c Cluster,
    pub states: &'c States,
    /// The nodes that may run resources.
    pub usable: NodeSet,
    /// One for each leaf.
    pub rows: Vec<Row>,
    pub ghost limits: { KeepsLimits cluster.now },
    pub ghost nodes: { (n : ℕ) → has usable n ≡ is_usable_by cluster.now states.now n },
    pub ghost own: { AreOwnRows cluster.now states.now rows.items },
}

fn is_usable(cluster: &Cluster, states: &States, node: NodeId) -> bool
    requires { node < length cluster.now.nodes }
    ensures { result ≡ is_usable_by cluster.now states.now node }
{
    states.is_online(node) && !cluster.is_standby(node)
}

/// The nodes that may run resources: those that are online and not in standby (Pacemaker Explained, "standby"). It asks for at most 256 nodes.
pub fn usable_nodes(cluster: &Cluster, states: &States) -> NodeSet
    requires { length cluster.now.nodes ≤ 256 }
    ensures { (n : ℕ) → has result n ≡ is_usable_by cluster.now states.now n }
{
    NodeSet::of(cluster.nodes.len() as u32, |node| {
        is_usable(cluster, states, node)
    })
}

/// A row of own terms for each leaf.
fn all_rows(alloc: Global, cluster: &Cluster, states: &States) -> Result<Vec<Row>, NoMemory>
    requires { IsValid cluster.now }
    ensures { IfOk result (λ rows. AreOwnRows cluster.now states.now rows.items) }
{
    let mut rows = Vec::with_capacity(alloc, cluster.leaves.len())?;
    for leaf in 0..cluster.leaves.len() {
        let row = own_row(alloc, cluster, states, leaf as u32)?;
        rows.push_reserved(row);
    }
    Ok(rows)
}

impl<'c> OwnRows<'c> {
    /// The rows of a valid cluster. Out of memory is the only other answer.
    pub fn new(
        alloc: Global,
        cluster: &'c Cluster,
        states: &'c States,
    ) -> Result<OwnRows<'c>, NoMemory>
        requires { IsValid cluster.now }
        ensures cluster { IfOk result (λ own. own.cluster.now ≡ cluster.now) }
        ensures states { IfOk result (λ own. own.states.now ≡ states.now) }
    {
        let rows = all_rows(alloc, cluster, states)?;
        let usable = usable_nodes(cluster, states);
        Ok(OwnRows {
            cluster,
            states,
            usable,
            rows,
        })
    }

    /// The row of the own terms of a leaf that is there.
    pub fn row(&self, leaf: LeafId) -> &Row
        requires { leaf < length self.now.cluster.now.leaves }
        ensures { IsRow (length self.now.cluster.now.nodes) (own_by self.now.cluster.now self.now.states.now leaf) result.now }
    {
        &self.rows[leaf as usize]
    }
}
