ghost use Rattle.std.specs.Prelude.{◌≡◌, ◌≤◌, ◌<◌, ℕ, IfOk, [], length, slice_index_or, Contains};
ghost use Rattle.edges.specs.Loops.{EndsWithin, HasLoop, HasNoLoop};
ghost use Rattle.edges.specs.LongestChains as longest;

use crate::clearing::{backward_order, is_loop_free};
use crate::edge::Edge;
use crate::sources::sources;
use std::alloc::{AllocError, Global};

/// One more than the greatest of what stands at these places, and 0 where there are none.
fn above(ways: &[u32], places: &[u32]) -> u32
    requires within { (x : ℕ) → Contains places.now x → x < length ways.now }
    requires few { (x : ℕ) → slice_index_or ways.now x 0 ≤ 1000000000 }
    ensures { result ≡ longest.above (λ x. slice_index_or ways.now x 0) places.now }
{
    let mut most = 0;
    for place in places {
        most = most.max(ways[*place as usize] + 1);
    }
    most
}

/// For each position, how many edges the longest way to it has.
///
/// It asks for at most 1,000,000,000 positions, for edges whose ends are positions, and that there is no loop. The time is linear in the positions and the edges.
pub fn longest_ways(alloc: Global, positions: u32, edges: &[Edge]) -> Result<Vec<u32>, AllocError>
    requires few { positions ≤ 1000000000 }
    requires ends { EndsWithin positions edges.now }
    requires free { HasNoLoop edges.now }
    ensures size { IfOk result (λ ways. length ways.items ≡ positions) }
    ensures longest { IfOk result (λ ways. (x : ℕ) → x < positions → slice_index_or ways.items x 0 ≡ longest.longest positions edges.now x) }
{
    let sources = sources(alloc, positions, edges)?;
    let order = backward_order(alloc, positions, edges)?;
    let mut ways: Vec<u32> = vec![in alloc; 0; positions as usize]?;
    let mut left = order.len();
    while left > 0 {
        left -= 1;
        let position = order[left];
        let most = above(ways.as_slice(), sources[position as usize].as_slice());
        ways[position as usize] = most;
    }
    Ok(ways)
}

/// The same of edges that may have a loop: where they have one it is empty.
///
/// It asks for at most 1,000,000,000 positions, and for edges whose ends are positions.
pub fn longest_ways_if_free(
    alloc: Global,
    positions: u32,
    edges: &[Edge],
) -> Result<Vec<u32>, AllocError>
    requires few { positions ≤ 1000000000 }
    requires within { EndsWithin positions edges.now }
    ensures size { IfOk result (λ ways. HasNoLoop edges.now → length ways.items ≡ positions) }
    ensures longest { IfOk result (λ ways. HasNoLoop edges.now
        → (x : ℕ) → x < positions → slice_index_or ways.items x 0 ≡ longest.longest positions edges.now x) }
    ensures looped { IfOk result (λ ways. HasLoop edges.now → ways.items ≡ []) }
{
    if !is_loop_free(alloc, positions, edges)? {
        return Ok(Vec::new(alloc));
    }
    longest_ways(alloc, positions, edges)
}
