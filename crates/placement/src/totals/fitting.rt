//! Whether a row leaves a usable node.

ghost use Rattle.std.specs.Prelude.{◌≡◌, ◌&&◌, ◌<◌, ◌≤◌, ℕ, ℤ, List, true, not, length, IfOk};
ghost use Rattle.std.specs.Int.{is_negative};
ghost use Rattle.std.specs.List.{list_any, range_with_len};
ghost use Rattle.score.specs.NodeSet.{has};
ghost use Rattle.score.specs.Total.{total_of};
ghost use Rattle.placement.specs.Rows.{IsRow};

use crate::totals::row_totals::totals_of;
use score::{NodeSet, Row, candidates};
use std::alloc::{AllocError, Global};

/// Whether a node of so many is in the set.
fn has_any(set: &NodeSet, nodes: u32) -> bool
    requires { nodes ≤ 256 }
    ensures { result ≡ list_any (has set.now) (range_with_len 0 nodes) }
{
    for node in 0..nodes {
        if set.has(node) {
            return true;
        }
    }
    false
}

/// Whether some node of the set has a total of 0 or more. Out of memory is the only other answer.
pub fn leaves_a_node(
    alloc: Global,
    row: &Row,
    usable: &NodeSet,
    nodes: u32,
) -> Result<bool, AllocError>
    requires few { nodes ≤ 256 }
    requires row { length row.now ≡ nodes }
    requires usable { (n : ℕ) → has usable.now n ≡ true → n < nodes }
    ensures { IfOk result (λ fits. (terms : ℕ → List ℤ) → IsRow nodes terms row.now
        → fits ≡ list_any (λ n. has usable.now n && not (is_negative (total_of (terms n)))) (range_with_len 0 nodes)) }
{
    let totals = totals_of(alloc, row, nodes)?;
    let set = candidates(&totals, usable);
    Ok(has_any(&set, nodes))
}
