//! Which leaves lend to a leaf and join it.

ghost use Rattle.std.specs.Prelude.{◌≡◌, ◌<◌, length, IfOk};
ghost use Rattle.cluster_types.specs.Valid.{IsValid};
ghost use Rattle.placement.specs.Inner.LendingRows as lending;
ghost use Rattle.placement.specs.Ties.{AreTies, tied_leaves};
ghost use Rattle.account_text.specs.Inner.JoinedLeaves as spec;

use cluster_types::LeafId;
use edges::Edge;
use faults::NoMemory;
use listed::flag_at;
use placement::{OwnRows, both, copy_of, leaves_a_node, tied};
use score::Row;
use std::alloc::Global;

/// A leaf with those that joined it, and the row of their own terms.
#[derive(Drop)]
pub(crate) struct Joined {
    pub(crate) leaves: Vec<LeafId>,
    pub(crate) row: Row,
}

/// The leaf alone.
fn alone(alloc: Global, own: &OwnRows, leaf: LeafId) -> Result<Joined, NoMemory>
    requires leaf { leaf < length own.now.cluster.now.leaves }
    ensures { IfOk result (λ joined. spec.IsJoined own.now.cluster.now own.now.states.now (lending.joined_below own.now.cluster.now own.now.states.now leaf 0) joined) }
{
    let row = copy_of(alloc, own.row(leaf), own.cluster.nodes.len() as u32)?;
    let leaves = vec![in alloc; leaf; 1]?;
    Ok(Joined { leaves, row })
}

/// What is joined after one lender was tried: it joins, unless no usable node would be left.
fn lend(
    alloc: Global,
    own: &OwnRows,
    leaf: LeafId,
    lender: LeafId,
    joined: Joined,
) -> Result<Joined, NoMemory>
    requires lender { lender < length own.now.cluster.now.leaves }
    requires joined { spec.IsJoined own.now.cluster.now own.now.states.now (lending.joined_below own.now.cluster.now own.now.states.now leaf lender) joined }
    ensures { IfOk result (λ after. spec.IsJoined own.now.cluster.now own.now.states.now (lending.with_lender_by own.now.cluster.now own.now.states.now
        (lending.joined_below own.now.cluster.now own.now.states.now leaf lender) lender) after) }
{
    let nodes = own.cluster.nodes.len() as u32;
    let row = both(alloc, &joined.row, own.row(lender), nodes)?;
    let fits = leaves_a_node(alloc, &row, &own.usable, nodes)?;
    if !fits {
        return Ok(joined);
    }
    let mut leaves = joined.leaves;
    leaves.push(lender)?;
    Ok(Joined { leaves, row })
}

/// The leaf with the lenders that join it, tried in their order, where the leaves with a mark lend.
fn join_all(alloc: Global, own: &OwnRows, marks: &[bool], leaf: LeafId) -> Result<Joined, NoMemory>
    requires marks { marks.now ≡ tied_leaves own.now.cluster.now leaf }
    requires leaf { leaf < length own.now.cluster.now.leaves }
    ensures { IfOk result (λ joined. spec.IsJoined own.now.cluster.now own.now.states.now (lending.all_joined own.now.cluster.now own.now.states.now leaf) joined) }
{
    let mut joined = alone(alloc, own, leaf)?;
    for lender in 0..own.cluster.leaves.len() {
        if !flag_at(marks, lender as u32) {
            continue;
        }
        joined = lend(alloc, own, leaf, lender as u32, joined)?;
    }
    Ok(joined)
}

/// The leaf with the lenders that join it, in the order in which they are tried (Pacemaker Explained, "Colocation"; which leaves lend is a rule of this
/// project).
pub(crate) fn joined_leaves(
    alloc: Global,
    own: &OwnRows,
    ties: &[Edge],
    leaf: LeafId,
) -> Result<Vec<LeafId>, NoMemory>
    requires valid { IsValid own.now.cluster.now }
    requires ties { AreTies own.now.cluster.now ties.now }
    requires leaf { leaf < length own.now.cluster.now.leaves }
    ensures { IfOk result (λ leaves. leaves.items ≡ lending.all_joined own.now.cluster.now own.now.states.now leaf) }
{
    let marks = tied(alloc, own.cluster, ties, leaf)?;
    let joined = join_all(alloc, own, &marks, leaf)?;
    Ok(joined.leaves)
}
