ghost use Rattle.std.specs.Prelude.{IfOk};
ghost use Rattle.edges.specs.Loops.{EndsWithin, IsFirstLoop};

use crate::clearing::is_loop_free;
use crate::edge::Edge;
use std::alloc::{AllocError, Global};

/// The place of the first edge with which edges lead from a position back to it, counted from 0, and None where there is none.
///
/// Both ends of each edge are positions. The time is linear in the positions and the edges, times the logarithm of the number of edges.
pub fn first_loop(
    alloc: Global,
    positions: u32,
    edges: &[Edge],
) -> Result<Option<usize>, AllocError>
    requires { EndsWithin positions edges.now }
    ensures { IfOk result (λ place. IsFirstLoop edges.now place) }
{
    if is_loop_free(alloc, positions, edges)? {
        return Ok(None);
    }
    let mut free = 0;
    let mut looped = edges.len();
    while free + 1 < looped {
        let middle = free + (looped - free) / 2;
        if is_loop_free(alloc, positions, &edges[..middle])? {
            free = middle;
        } else {
            looped = middle;
        }
    }
    Ok(Some(free))
}
