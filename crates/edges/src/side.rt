ghost use Rattle.std.specs.Prelude.{◌≡◌, ◌<◌, ◌==◌, ℕ, IfOk, length, slice_index_or};
ghost use Rattle.edges.specs.Loops.{EndsWithin};
ghost use Rattle.edges.specs.Rows.{edges_at, end_of, less_one};

use crate::edge::Edge;
use std::alloc::{AllocError, Global};

/// An end of an edge.
#[derive(Clone, Copy)]
pub enum Side {
    Before,
    After,
}

impl Side {
    /// The position at this end of the edge.
    pub fn of(self, edge: &Edge) -> u32
        ensures { result ≡ end_of self edge.now }
    {
        match self {
            Side::Before => edge.before,
            Side::After => edge.after,
        }
    }
}

/// How many edges have this end at each position.
pub fn count_ends(
    alloc: Global,
    positions: u32,
    edges: &[Edge],
    side: Side,
) -> Result<Vec<usize>, AllocError>
    requires { EndsWithin positions edges.now }
    ensures size { IfOk result (λ counts. length counts.items ≡ positions) }
    ensures counted { IfOk result (λ counts. (x : ℕ) → x < positions → slice_index_or counts.items x 0 ≡ edges_at side edges.now x) }
{
    let mut counts: Vec<usize> = vec![in alloc; 0; positions as usize]?;
    for edge in edges {
        counts[side.of(edge) as usize] += 1;
    }
    Ok(counts)
}

/// Counts off one edge at the position, and says whether none is left.
pub fn count_off(counts: &mut [usize], position: u32) -> bool
    requires { 0 < slice_index_or counts.old position 0 }
    ensures counts { counts.new ≡ less_one counts.old position }
    ensures last { result ≡ (slice_index_or counts.old position 0 == 1) }
{
    let left = counts[position as usize] - 1;
    counts[position as usize] = left;
    left == 0
}
