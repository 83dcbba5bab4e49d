//! The order in which chains of edges are followed.

ghost use Rattle.std.specs.Prelude.{◌≤◌, OnOk, slice_index_or};
ghost use Rattle.std.specs.List.Sorted.{IsNonDecreasingBy, IsPermutation};
ghost use Rattle.edges.specs.Loops.{EndsWithin, HasNoLoop};
ghost use Rattle.placement.specs.ChainOrder.{AreEdgesInOrder};

use edges::{Edge, longest_ways_if_free};
use listed::number_at;
use std::alloc::{AllocError, Global};

/// Sorts the edges by how high the positions are to which they lead.
fn sort_by_height(edges: &mut Vec<Edge>, heights: &[u32]) -> Result<(), AllocError>
    ensures same { OnOk result (IsPermutation edges.old.items edges.new.items) }
    ensures sorted { OnOk result (IsNonDecreasingBy (λ edge. slice_index_or heights.now edge.after 0) edges.new.items) }
{
    edges.sort_by_key(|edge| number_at(heights, edge.after))?;
    Ok(())
}

/// Puts each edge behind those that lead to where it begins, where no chain of edges leads from a position back to it.
pub(crate) fn put_in_order(
    alloc: Global,
    positions: u32,
    edges: &mut Vec<Edge>,
) -> Result<(), AllocError>
    requires few { positions ≤ 2000 }
    requires within { EndsWithin positions edges.old.items }
    ensures same { OnOk result (IsPermutation edges.old.items edges.new.items) }
    ensures ordered { OnOk result (HasNoLoop edges.old.items → AreEdgesInOrder edges.new.items) }
{
    let heights = longest_ways_if_free(alloc, positions, edges)?;
    sort_by_height(edges, &heights)
}
