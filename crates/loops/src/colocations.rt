ghost use Rattle.std.specs.Prelude.{◌≡◌, ◌↔◌, ◌≤◌, ◌<◌, IfOk, IsTrue, length};
ghost use Rattle.cluster_types.specs.declared.cluster.Cluster.{Cluster};
ghost use Rattle.cluster_types.specs.Decisions.{decision_of};
ghost use Rattle.loops.specs.Inner.Edges.{colocation_edge, decision_position, leaf_edge, leaf_edges, need_edges};
ghost use Rattle.loops.specs.FirstLoops.{AllJoin, IsFirstColocation, JoinsLeaves};

use cluster_types::{Cluster, Colocation, LeafId, NoMemory, Role};
use edges::{Edge, first_loop};
use std::alloc::{AllocError, Global};

/// Whether both leaves of the colocation are among so many.
fn is_among(leaves: usize, colocation: &Colocation) -> bool
    ensures { (c : Cluster) → leaves ≡ length c.leaves → IsTrue result ↔ JoinsLeaves c colocation.now }
{
    (colocation.dependent as usize) < leaves && (colocation.primary as usize) < leaves
}

/// Whether both leaves of each colocation are there.
pub fn joins_leaves(cluster: &Cluster) -> bool
    ensures { IsTrue result ↔ AllJoin cluster.now }
{
    let leaves = cluster.leaves.len();
    for colocation in cluster.colocations.as_slice() {
        if !is_among(leaves, colocation) {
            return false;
        }
    }
    true
}

/// The position of the decision that gives the leaf its role.
fn position(leaf: LeafId, role: Role) -> u32
    requires { leaf < 1000000000 }
    ensures { result ≡ decision_position (decision_of leaf role) }
{
    match role {
        Role::Started => 2 * leaf + 1,
        Role::Promoted => 2 * leaf,
    }
}

/// The dependent's decision needs the primary's.
fn edge_of(colocation: &Colocation) -> Edge
    requires dependent { colocation.now.dependent < 1000000000 }
    requires primary { colocation.now.primary < 1000000000 }
    ensures { result ≡ colocation_edge colocation.now }
{
    Edge {
        before: position(colocation.dependent, colocation.dependent_role),
        after: position(colocation.primary, colocation.primary_role),
    }
}

/// The promotion of the leaf needs its place.
fn promotion(leaf: LeafId) -> Edge
    requires { leaf < 1000000000 }
    ensures { result ≡ leaf_edge leaf }
{
    Edge {
        before: position(leaf, Role::Promoted),
        after: position(leaf, Role::Started),
    }
}

/// An edge for each leaf.
#[tactic(auto, using(crate::proofs::Needs::leaves_more))]
fn leaf_edges(alloc: Global, leaves: u32) -> Result<Vec<Edge>, AllocError>
    requires { leaves ≤ 1000000000 }
    ensures { IfOk result (λ edges. edges.items ≡ leaf_edges leaves) }
{
    let mut edges = Vec::new(alloc);
    for leaf in 0..leaves {
        edges.push(promotion(leaf))?;
    }
    Ok(edges)
}

/// An edge for each leaf, and then one for each colocation.
fn edges_of_needs(alloc: Global, cluster: &Cluster) -> Result<Vec<Edge>, AllocError>
    requires leaves { length cluster.now.leaves ≤ 1000000000 }
    requires joined { AllJoin cluster.now }
    ensures { IfOk result (λ edges. edges.items ≡ need_edges cluster.now) }
{
    let mut edges = leaf_edges(alloc, cluster.leaves.len() as u32)?;
    for colocation in cluster.colocations.as_slice() {
        edges.push(edge_of(colocation))?;
    }
    Ok(edges)
}

/// The place, in the cluster's list, of the first colocation with which a decision needs itself, and None where none does.
///
/// A leaf is placed before it is promoted, and a primary is decided before its dependent. The leaves of each colocation are there.
/// The time is linear in the leaves and the colocations, times the logarithm of their number.
pub fn colocation_loop(alloc: Global, cluster: &Cluster) -> Result<Option<usize>, NoMemory>
    requires leaves { length cluster.now.leaves ≤ 1000000000 }
    requires joined { AllJoin cluster.now }
    ensures { IfOk result (λ place. IsFirstColocation cluster.now place) }
{
    let leaves = cluster.leaves.len();
    let edges = edges_of_needs(alloc, cluster)?;
    let first = first_loop(alloc, 2 * leaves as u32, edges.as_slice())?;
    match first {
        None => Ok(None),
        Some(place) => Ok(Some(place - leaves)),
    }
}
