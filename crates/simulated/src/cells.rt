//! What is kept of all cells, leaf by leaf and node by node.

ghost use Rattle.std.specs.Prelude.{◌≡◌, ◌*◌, length};
ghost use Rattle.cluster_types.specs.Valid.{KeepsLimits};
ghost use Rattle.simulated.specs.declared.real.Real.TheVariants as real;
ghost use Rattle.simulated.specs.KeptReality.{ListsCells};
ghost use Rattle.simulated.specs.RealWorlds.{Cells, found_at, with_changed_cell, without_node};

use crate::real::Real;
use cluster_types::{Cluster, LeafId, NodeId, cell_place};

/// What is found in a cell; in one that the cluster doesn't have, nothing.
pub fn found_at(cluster: &Cluster, leaf: LeafId, node: NodeId, cells: &[Real]) -> Real
    requires { length cells.now ≡ length cluster.now.leaves * length cluster.now.nodes }
    ensures { (held : Cells) → ListsCells cluster.now cells.now held → result ≡ found_at cluster.now held leaf node }
{
    let nodes = cluster.nodes.len();
    if (leaf as usize) < cluster.leaves.len() && (node as usize) < nodes {
        cells[cell_place(nodes, leaf, node)]
    } else {
        Real::Off
    }
}

/// From now on this is in the cell, if there is such a cell.
pub fn set_cell(cluster: &Cluster, leaf: LeafId, node: NodeId, real: Real, cells: &mut Vec<Real>)
    requires { length cells.old.items ≡ length cluster.now.leaves * length cluster.now.nodes }
    ensures held { (held : Cells) → ListsCells cluster.now cells.old.items held → ListsCells cluster.now cells.new.items (with_changed_cell leaf node (λ x. real) held) }
    ensures len { length cells.new.items ≡ length cells.old.items }
{
    let nodes = cluster.nodes.len();
    if (leaf as usize) < cluster.leaves.len() && (node as usize) < nodes {
        let place = cell_place(nodes, leaf, node);
        cells[place] = real;
    }
}

/// From now on nothing runs on the node.
pub fn clear_node(cluster: &Cluster, node: NodeId, cells: &mut Vec<Real>)
    requires limits { KeepsLimits cluster.now }
    requires full { length cells.old.items ≡ length cluster.now.leaves * length cluster.now.nodes }
    ensures held { (held : Cells) → ListsCells cluster.now cells.old.items held → ListsCells cluster.now cells.new.items (without_node node held) }
    ensures len { length cells.new.items ≡ length cells.old.items }
{
    for leaf in 0..cluster.leaves.len() {
        set_cell(cluster, leaf as u32, node, Real::Off, cells);
    }
}
