ghost use Rattle.std.specs.Prelude.{◌≡◌, ◌<◌, ◌==◌, [], ℕ, IfOk, length, filter, slice_index_or};
ghost use Rattle.std.specs.List.{range_with_len};
ghost use Rattle.edges.specs.Loops.{EndsWithin};
ghost use Rattle.edges.specs.Inner.Clearing.{edges_from};
ghost use Rattle.edges.specs.Sources.{sources_of};

use crate::edge::Edge;
use listed::{Listed, empty_lists};
use std::alloc::{AllocError, Global};

/// How many edges lead from each position.
pub fn leaving(alloc: Global, positions: u32, edges: &[Edge]) -> Result<Vec<usize>, AllocError>
    requires { EndsWithin positions edges.now }
    ensures size { IfOk result (λ counts. length counts.items ≡ positions) }
    ensures counted { IfOk result (λ counts. (x : ℕ) → x < positions → slice_index_or counts.items x 0 ≡ edges_from edges.now x) }
{
    let mut counts: Vec<usize> = vec![in alloc; 0; positions as usize]?;
    for edge in edges {
        counts[edge.before as usize] += 1;
    }
    Ok(counts)
}

/// The positions with a count of 0.
#[tactic(auto, using(crate::proofs::SourceRows::filter_more))]
pub fn unused(alloc: Global, positions: u32, counts: &[usize]) -> Result<Vec<u32>, AllocError>
    requires { length counts.now ≡ positions }
    ensures { IfOk result (λ unused. unused.items ≡ filter (λ x. slice_index_or counts.now x 0 == 0) (range_with_len 0 positions)) }
{
    let mut unused = Vec::new(alloc);
    for position in 0..positions {
        if counts[position as usize] > 0 {
            continue;
        }
        unused.push(position)?;
    }
    Ok(unused)
}

/// For each position, where the edges into it begin.
pub fn sources(
    alloc: Global,
    positions: u32,
    edges: &[Edge],
) -> Result<Vec<Listed<u32>>, AllocError>
    requires { EndsWithin positions edges.now }
    ensures size { IfOk result (λ rows. length rows.items ≡ positions) }
    ensures sources { IfOk result (λ rows. (y : ℕ) → y < positions → slice_index_or rows.items y [] ≡ sources_of edges.now y) }
{
    let mut rows = empty_lists(alloc, positions)?;
    for edge in edges {
        rows[edge.after as usize].push(edge.before)?;
    }
    Ok(rows)
}
