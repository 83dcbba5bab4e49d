//! Tables with the loads of their nodes.

ghost use Rattle.std.specs.Prelude.{◌≡◌, ◌+◌, ◌*◌, ◌<◌, ◌≤◌, ◌&&◌, ◌==◌, ℕ, nat_lt, true, if◌then◌else◌, length, map, slice_index, slice_set, IfOk};
ghost use Rattle.std.specs.List.{range_with_len};
ghost use Rattle.cluster_types.specs.Tables as tables;
ghost use Rattle.cluster_types.specs.Tables.{targets_of};
ghost use Rattle.cluster_types.specs.Valid.{KeepsLimits};
ghost use Rattle.score.specs.NodeSet.{has};
ghost use Rattle.placement.specs.Loads.{IsLoaded};

use cluster_types::{Cluster, LeafId, NodeId, Role, Table, Target};
use score::NodeSet;
use std::alloc::{AllocError, Global};

/// A table, and how many leaves have a target on each node.
#[derive(Drop)]
pub struct LoadedTable {
    pub table: Table,
    /// One for each node.
    pub loads: Vec<u32>,
}

/// How many leaves have a target on the node.
fn load_of(cluster: &Cluster, table: &Table, node: NodeId) -> u32
    requires { KeepsLimits cluster.now }
    ensures { result ≡ tables.load_of cluster.now (targets_of table.now) node }
{
    let mut load = 0;
    for leaf in 0..cluster.leaves.len() as u32 {
        if !table.holds_role(leaf, Role::Started, node) {
            continue;
        }
        load += 1;
    }
    load
}

/// The loads of all nodes.
fn loads_of(alloc: Global, cluster: &Cluster, table: &Table) -> Result<Vec<u32>, AllocError>
    requires { KeepsLimits cluster.now }
    ensures { IfOk result (λ loads. loads.items
        ≡ map (tables.load_of cluster.now (targets_of table.now)) (range_with_len 0 (length cluster.now.nodes))) }
{
    let mut loads = Vec::with_capacity(alloc, cluster.nodes.len())?;
    for node in 0..cluster.nodes.len() as u32 {
        loads.push(load_of(cluster, table, node))?;
    }
    Ok(loads)
}

/// Counts one more on the node, if there is one.
fn count_if(loads: &mut Vec<u32>, node: NodeId, more: bool)
    requires node { node < length loads.old.items }
    requires room { slice_index loads.old.items node ≤ 1000 }
    ensures { loads.new.items ≡ (if more then slice_set loads.old.items node (slice_index loads.old.items node + 1) else loads.old.items) }
{
    if !more {
        return;
    }
    loads[node as usize] += 1;
}

impl LoadedTable {
    /// The table, which has the cells of the cluster, with its loads. Out of memory is the only other answer.
    pub fn of(alloc: Global, cluster: &Cluster, table: Table) -> Result<LoadedTable, AllocError>
        requires limits { KeepsLimits cluster.now }
        requires nodes { table.nodes ≡ length cluster.now.nodes }
        requires cells { length table.targets ≡ length cluster.now.leaves * length cluster.now.nodes }
        ensures loaded { IfOk result (λ loaded. IsLoaded cluster.now loaded.table loaded.loads.items) }
        ensures table { IfOk result (λ loaded. loaded.table ≡ table) }
    {
        let loads = loads_of(alloc, cluster, &table)?;
        Ok(LoadedTable { table, loads })
    }

    /// The same, in which the cell has this target, if it is wanted.
    fn with_target_if(
        self,
        cluster: &Cluster,
        leaf: LeafId,
        node: NodeId,
        target: Target,
        wanted: bool,
    ) -> LoadedTable
        requires limits { KeepsLimits cluster.now }
        requires loaded { IsLoaded cluster.now self.table self.loads.items }
        requires leaf { leaf < length cluster.now.leaves }
        requires node { node < length cluster.now.nodes }
        requires target { tables.is_somewhere target ≡ true }
        ensures loaded { IsLoaded cluster.now result.table result.loads.items }
        ensures targets { (r n : ℕ) → targets_of result.table r n
            ≡ (if wanted && (r == leaf && n == node) then target else targets_of self.table r n) }
    {
        if !wanted {
            return self;
        }
        let is_first = !self.table.holds_role(leaf, Role::Started, node);
        let mut loads = self.loads;
        count_if(&mut loads, node, is_first);
        LoadedTable {
            table: self.table.with_target(leaf, node, target),
            loads,
        }
    }

    /// The same, in which the leaf has this target on each node of the set.
    pub fn with_targets(
        self,
        cluster: &Cluster,
        leaf: LeafId,
        nodes: &NodeSet,
        target: Target,
    ) -> LoadedTable
        requires limits { KeepsLimits cluster.now }
        requires loaded { IsLoaded cluster.now self.table self.loads.items }
        requires leaf { leaf < length cluster.now.leaves }
        requires target { tables.is_somewhere target ≡ true }
        ensures loaded { IsLoaded cluster.now result.table result.loads.items }
        ensures targets { (r n : ℕ) → targets_of result.table r n
            ≡ (if r == leaf && nat_lt n (length cluster.now.nodes) && has nodes.now n then target else targets_of self.table r n) }
    {
        let mut loaded = self;
        for node in 0..cluster.nodes.len() as u32 {
            let wanted = nodes.has(node);
            loaded = loaded.with_target_if(cluster, leaf, node, target, wanted);
        }
        loaded
    }
}
