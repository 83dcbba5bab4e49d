//! A cluster whose nodes and leaves are found by their names.

ghost use Rattle.std.specs.Prelude.{◌≡◌, ◌<◌, IfOk, IfSome, length};
ghost use Rattle.cluster_types.specs.Valid.{IsValid, KeepsLimits};
ghost use Rattle.names.specs.Names.{leaf_of_word, node_of_word};

use crate::name_sets::{leaf_names, node_names, place_of};
use cluster_types::{Cluster, LeafId, NodeId};
use faults::NoMemory;
use indexmap::IndexSet;
use std::alloc::Global;
use std::marker::Model;

/// A valid cluster, with the names of its nodes and of its leaves, each found by hashing. Contracts see the cluster.
#[derive(Drop)]
pub struct Names<'c> {
    cluster: &'c Cluster,
    /// In the order of the nodes, so that the index of a name is the number of its node.
    nodes: IndexSet<&'c [u8]>,
    /// In the order of the leaves.
    leaves: IndexSet<&'c [u8]>,
}

impl<'c> Model for Names<'c> {
    ghost use Rattle.cluster_types.specs.declared.cluster.Cluster.{Cluster as ClusterOf};
    ghost use Rattle.names.specs.Sets.{AreNamesOf};

    ghost Value = { ClusterOf };

    ghost view = { λ names. names.cluster.now };

    ghost invariant = { λ names. AreNamesOf names.nodes names.leaves names.cluster.now };
}

impl<'c> Names<'c> {
    /// The names of a valid cluster. In one no two nodes have one name, and no two leaves.
    pub fn new(alloc: Global, cluster: &'c Cluster) -> Result<Names<'c>, NoMemory>
        requires { IsValid cluster.now }
        ensures { IfOk result (λ names. names ≡ cluster.now) }
    {
        Ok(Names {
            cluster,
            nodes: node_names(alloc, cluster.nodes.as_slice())?,
            leaves: leaf_names(alloc, cluster.leaves.as_slice())?,
        })
    }

    /// The cluster.
    pub fn cluster(&self) -> &'c Cluster
        ensures value { result.now ≡ self.now }
        ensures valid { IsValid result.now }
        ensures limits { KeepsLimits result.now }
    {
        self.cluster
    }

    /// The number of the node with this name. None when the cluster has no such node.
    pub fn node_of(&self, word: &[u8]) -> Option<NodeId>
        ensures value { result ≡ node_of_word self.now word.now }
        ensures within { IfSome result (λ node. node < length self.now.nodes) }
    {
        place_of(&self.nodes, word)
    }

    /// The number of the leaf with this name. None when the cluster has no such leaf.
    pub fn leaf_of(&self, word: &[u8]) -> Option<LeafId>
        ensures value { result ≡ leaf_of_word self.now word.now }
        ensures within { IfSome result (λ leaf. leaf < length self.now.leaves) }
    {
        place_of(&self.leaves, word)
    }
}
