//! The totals of a row.

ghost use Rattle.std.specs.Prelude.{◌≡◌, ◌≤◌, ℕ, ℤ, List, length, map, IfOk};
ghost use Rattle.std.specs.List.{range_with_len};
ghost use Rattle.score.specs.Total.{total_of};
ghost use Rattle.placement.specs.Rows.{IsRow};

use score::{Row, Score, totals};
use std::alloc::{AllocError, Global};

/// The total of each of so many nodes, by the terms that the row stands for. Out of memory is the only other answer.
pub fn totals_of(alloc: Global, row: &Row, nodes: u32) -> Result<Vec<Score>, AllocError>
    requires { length row.now ≡ nodes }
    ensures totals { IfOk result (λ all. (terms : ℕ → List ℤ) → IsRow nodes terms row.now
        → all.items ≡ map (λ n. total_of (terms n)) (range_with_len 0 nodes)) }
    ensures nodes { IfOk result (λ all. length all.items ≡ nodes) }
{
    let mut all = vec![in alloc; Score { points: 0 }; nodes as usize]?;
    totals(row, &mut all);
    Ok(all)
}
