//! The leaves that must be with a leaf. A tie is an edge from the primary of a colocation to its dependent, where the colocation ties the one to
//! the other for good.

ghost use Rattle.std.specs.Prelude.{◌≡◌, ◌≤◌, ◌+◌, List, false, cond, Contains, IfOk};
ghost use Rattle.cluster_types.specs.declared.cluster.Cluster.{Cluster as ClusterOf};
ghost use Rattle.cluster_types.specs.Terms as terms;
ghost use Rattle.cluster_types.specs.Valid.{IsValid};
ghost use Rattle.listed.specs.Flags.{is_marked};
ghost use Rattle.edges.specs.declared.edge.Edge.{Edge as EdgeOf};
ghost use Rattle.edges.specs.Loops.{HasNoLoop};
ghost use Rattle.placement.specs.ChainOrder.{AreEdgesInOrder};
ghost use Rattle.placement.specs.Ties as spec;
ghost use Rattle.placement.specs.Inner.Ties as inner;

use crate::chain_order::put_in_order;
use cluster_types::{Cluster, Colocation, LeafId, Role};
use edges::Edge;
use faults::done;
use listed::flag_at;
use std::alloc::{AllocError, Global};

/// Whether the colocation ties two uncloned leaves for good, both in the role Started.
fn is_tie(cluster: &Cluster, rule: &Colocation) -> bool
    ensures { result ≡ terms.is_tie cluster.now rule.now }
{
    rule.is_mandatory()
        && rule.dependent_role == Role::Started
        && rule.primary_role == Role::Started
        && !cluster.is_cloned(rule.dependent)
        && !cluster.is_cloned(rule.primary)
}

/// The ties of the cluster, in the order of its colocations.
fn listed_ties(alloc: Global, cluster: &Cluster) -> Result<Vec<Edge>, AllocError>
    ensures { IfOk result (λ ties. ties.items ≡ spec.ties_of cluster.now) }
{
    let mut ties = Vec::new(alloc);
    for rule in cluster.colocations.as_slice() {
        if !is_tie(cluster, rule) {
            continue;
        }
        ties.push(Edge {
            before: rule.primary,
            after: rule.dependent,
        })?;
    }
    Ok(ties)
}

/// The ties of the cluster, each behind those of its primary, where no chain of ties leads from a leaf back to it.
pub fn ties_of(alloc: Global, cluster: &Cluster) -> Result<Vec<Edge>, AllocError>
    requires { IsValid cluster.now }
    ensures ties { IfOk result (λ ties. spec.AreTies cluster.now ties.items) }
    ensures ordered { IfOk result (λ ties. HasNoLoop (spec.ties_of cluster.now) → AreEdgesInOrder ties.items) }
{
    let mut ties = listed_ties(alloc, cluster)?;
    let ordering = put_in_order(alloc, cluster.leaves.len() as u32, &mut ties);
    done(ties, ordering)
}

pub(crate) fn is_marked(marks: &[bool], leaf: LeafId) -> bool
    ensures { result ≡ is_marked marks.now leaf }
{
    flag_at(marks, leaf)
}

/// Whether the leaf is there and has no mark.
fn lacks_mark(marks: &[bool], leaf: LeafId) -> bool
    ensures { result ≡ inner.lacks_mark marks.now leaf }
{
    match marks.get(leaf as usize) {
        Some(mark) => !*mark,
        None => false,
    }
}

/// Gives the leaf a mark, if it is wanted and the leaf is there.
fn mark_if(marks: &mut Vec<bool>, leaf: LeafId, wanted: bool)
    ensures { marks.new.items ≡ inner.with_mark_if marks.old.items leaf wanted }
{
    let at = leaf as usize;
    if wanted && at < marks.len() {
        marks[at] = true;
    }
}

/// Whether the dependent lacks a mark, and is tied to the leaf or to one that has a mark.
fn is_missed(tie: Edge, leaf: LeafId, marks: &[bool]) -> bool
    ensures { result ≡ inner.is_missed leaf marks.now tie }
{
    lacks_mark(marks, tie.after) && (tie.before == leaf || is_marked(marks, tie.before))
}

/// Marks the dependent if it was missed, and says whether it was.
fn follow(tie: Edge, leaf: LeafId, marks: &mut Vec<bool>) -> bool
    ensures missed { result ≡ inner.is_missed leaf marks.old.items tie }
    ensures marks { marks.new.items ≡ inner.with_mark_if marks.old.items tie.after (inner.is_missed leaf marks.old.items tie) }
{
    let missed = is_missed(tie, leaf, marks);
    mark_if(marks, tie.after, missed);
    missed
}

/// One pass over the ties: whether it marked a leaf.
fn pass(ties: &[Edge], leaf: LeafId, marks: &mut Vec<bool>) -> bool
    ensures tied { (c : ClusterOf) → spec.AreTies c ties.now → inner.AreTied c leaf marks.old.items → inner.AreTied c leaf marks.new.items }
    ensures fewer { inner.unmarked marks.new.items + cond result 1 0 ≤ inner.unmarked marks.old.items }
    ensures none { result ≡ false → (tie : EdgeOf) → Contains ties.now tie → inner.is_missed leaf marks.new.items tie ≡ false }
{
    let mut changed = false;
    for tie in ties {
        changed |= follow(*tie, leaf, marks);
    }
    changed
}

/// The leaves that must be with the leaf through a chain of ties. Passes are made until one finds none: where each tie stands behind those of
/// its primary, the second finds none.
pub fn tied(
    alloc: Global,
    cluster: &Cluster,
    ties: &[Edge],
    leaf: LeafId,
) -> Result<Vec<bool>, AllocError>
    requires valid { IsValid cluster.now }
    requires ties { spec.AreTies cluster.now ties.now }
    ensures { IfOk result (λ marks. marks.items ≡ spec.tied_leaves cluster.now leaf) }
{
    let mut marks = vec![in alloc; false; cluster.leaves.len()]?;
    let mut changed = true;
    while changed {
        changed = pass(ties, leaf, &mut marks);
    }
    Ok(marks)
}
