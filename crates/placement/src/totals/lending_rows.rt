//! Lenders of a leaf.

ghost use Rattle.std.specs.Prelude.{◌≡◌, ◌<◌, length, IfOk};
ghost use Rattle.cluster_types.specs.Valid.{IsValid};
ghost use Rattle.placement.specs.Inner.LendingRows as spec;
ghost use Rattle.placement.specs.Inner.OwnRows.{terms_by};
ghost use Rattle.placement.specs.Rows.{IsRow};
ghost use Rattle.placement.specs.Ties.{AreTies, tied_leaves};

use crate::totals::adding::{both, copy_of};
use crate::totals::fitting::leaves_a_node;
use crate::totals::own_rows::OwnRows;
use crate::totals::ties::{is_marked, tied};
use cluster_types::LeafId;
use edges::Edge;
use score::{NoMemory, Row};
use std::alloc::Global;

/// The row after one lender was tried: it joins, unless no usable node would be left.
fn lend(
    alloc: Global,
    own: &OwnRows,
    leaf: LeafId,
    lender: LeafId,
    joined: Row,
) -> Result<Row, NoMemory>
    requires lender { lender < length own.now.cluster.now.leaves }
    requires joined { IsRow (length own.now.cluster.now.nodes) (terms_by own.now.cluster.now own.now.states.now
        (spec.joined_below own.now.cluster.now own.now.states.now leaf lender)) joined }
    ensures { IfOk result (λ row. IsRow (length own.now.cluster.now.nodes) (terms_by own.now.cluster.now own.now.states.now
        (spec.with_lender_by own.now.cluster.now own.now.states.now
        (spec.joined_below own.now.cluster.now own.now.states.now leaf lender) lender)) row) }
{
    let nodes = own.cluster.nodes.len() as u32;
    let row = both(alloc, &joined, own.row(lender), nodes)?;
    let fits = leaves_a_node(alloc, &row, &own.usable, nodes)?;
    if fits { Ok(row) } else { Ok(joined) }
}

/// The row of the own terms of the leaf and of the lenders that join it, tried in their order, where the leaves with a mark lend.
fn joined_row(alloc: Global, own: &OwnRows, marks: &[bool], leaf: LeafId) -> Result<Row, NoMemory>
    requires marks { marks.now ≡ tied_leaves own.now.cluster.now leaf }
    requires leaf { leaf < length own.now.cluster.now.leaves }
    ensures { IfOk result (λ row. IsRow (length own.now.cluster.now.nodes)
        (terms_by own.now.cluster.now own.now.states.now (spec.all_joined own.now.cluster.now own.now.states.now leaf)) row) }
{
    let mut joined = copy_of(alloc, own.row(leaf), own.cluster.nodes.len() as u32)?;
    for lender in 0..own.cluster.leaves.len() {
        if !is_marked(marks, lender as u32) {
            continue;
        }
        joined = lend(alloc, own, leaf, lender as u32, joined)?;
    }
    Ok(joined)
}

/// The row of the own terms of the leaf and of the lenders that join it, tried in their order (Pacemaker Explained, "Colocation"; which
/// leaves lend is a rule of this project).
pub(crate) fn lent_row(
    alloc: Global,
    own: &OwnRows,
    ties: &[Edge],
    leaf: LeafId,
) -> Result<Row, NoMemory>
    requires valid { IsValid own.now.cluster.now }
    requires ties { AreTies own.now.cluster.now ties.now }
    requires leaf { leaf < length own.now.cluster.now.leaves }
    ensures { IfOk result (λ row. IsRow (length own.now.cluster.now.nodes)
        (terms_by own.now.cluster.now own.now.states.now (spec.all_joined own.now.cluster.now own.now.states.now leaf)) row) }
{
    let marks = tied(alloc, own.cluster, ties, leaf)?;
    joined_row(alloc, own, &marks, leaf)
}
