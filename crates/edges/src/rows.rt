ghost use Rattle.std.specs.Prelude.{◌≡◌, ◌<◌, ◌≤◌, [], ◌∷◌, ℕ, IfOk, length, slice_index_or};
ghost use Rattle.edges.specs.Loops.{EndsWithin};
ghost use Rattle.edges.specs.Rows.{edge_targets};
ghost use Rattle.edges.specs.Inner.Rows.{edges_below, row_of};

use crate::edge::Edge;
use crate::side::{Side, count_ends};
use std::alloc::{AllocError, Global};
use std::marker::Model;

/// Where the edges from each position lead.
///
/// Contracts see a list for each position.
#[derive(Drop)]
pub struct Rows {
    /// Of each position, the place behind its row.
    ends: Vec<usize>,
    /// The rows, one behind the other in the order of the positions.
    targets: Vec<u32>,
}

impl Model for Rows {
    ghost use Rattle.std.specs.Prelude.{ℕ, List};
    ghost use Rattle.edges.specs.Inner.Rows.{StandInList, all_rows};

    ghost Value = { List (List ℕ) };

    ghost view = { λ rows. all_rows rows.ends.items rows.targets.items };

    ghost invariant = { λ rows. StandInList rows.ends.items rows.targets.items };
}

/// Of each position, where its row begins.
fn beginnings(alloc: Global, positions: u32, edges: &[Edge]) -> Result<Vec<usize>, AllocError>
    requires { EndsWithin positions edges.now }
    ensures size { IfOk result (λ begins. length begins.items ≡ positions) }
    ensures below { IfOk result (λ begins. (x : ℕ) → x < positions → slice_index_or begins.items x 0 ≡ edges_below edges.now x) }
{
    let mut begins = count_ends(alloc, positions, edges, Side::Before)?;
    let mut below = 0;
    for position in 0..positions {
        let count = begins[position as usize];
        begins[position as usize] = below;
        below += count;
    }
    Ok(begins)
}

/// Where the row of the position begins: where the one before it ends.
fn begin(ends: &[usize], position: u32) -> usize
    requires { position < length ends.now }
    ensures { result ≡ slice_index_or (0 ∷ ends.now) position 0 }
{
    if position == 0 {
        return 0;
    }
    ends[position as usize - 1]
}

/// The row of the position, of those that stand in a list.
fn row_at<'r>(ends: &[usize], targets: &'r [u32], position: u32) -> &'r [u32]
    requires within { position < length ends.now }
    requires order { slice_index_or (0 ∷ ends.now) position 0 ≤ slice_index_or ends.now position 0 }
    requires room { slice_index_or ends.now position 0 ≤ length targets.now }
    ensures { result.now ≡ row_of ends.now targets.now position }
{
    &targets[begin(ends, position)..ends[position as usize]]
}

impl Rows {
    /// The rows of the edges, by a counting sort.
    pub fn new(alloc: Global, positions: u32, edges: &[Edge]) -> Result<Rows, AllocError>
        requires { EndsWithin positions edges.now }
        ensures { IfOk result (λ rows. rows ≡ edge_targets positions edges.now) }
    {
        let mut ends = beginnings(alloc, positions, edges)?;
        let mut targets = vec![in alloc; 0; edges.len()]?;
        for edge in edges {
            let place = ends[edge.before as usize];
            targets[place] = edge.after;
            ends[edge.before as usize] = place + 1;
        }
        Ok(Rows { ends, targets })
    }

    /// Where the edges from the position lead.
    pub fn row(&self, position: u32) -> &[u32]
        requires { position < length self.now }
        ensures { result.now ≡ slice_index_or self.now position [] }
    {
        row_at(&self.ends, &self.targets, position)
    }
}
