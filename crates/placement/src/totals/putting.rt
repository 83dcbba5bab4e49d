//! Terms that are put into a row.

ghost use Rattle.std.specs.Prelude.{◌≡◌, ◌≢◌, ◌&&◌, ◌==◌, ◌<◌, ◌≤◌, ℕ, ℤ, List, length};
ghost use Rattle.score.specs.NodeSet.{has};
ghost use Rattle.score.specs.Row.{finite_at};
ghost use Rattle.placement.specs.Rows.{IsRow, IsRoomy, more_where};

use cluster_types::NodeId;
use score::{NodeSet, Row, Score};

/// Adds a term to those of a node, if it is wanted. It asks for a node of the row, and that its finite sum is from -9 * 10^11 to 9 * 10^11, so that
/// there is room for one more.
pub fn put_if(row: &mut Row, node: NodeId, term: Score, wanted: bool)
    requires node { node < length row.old }
    requires room { IsRoomy (finite_at row.old node) }
    ensures terms { (nodes : ℕ) (terms : ℕ → List ℤ) → nodes ≡ length row.old → IsRow nodes terms row.old
        → IsRow nodes (more_where (λ n. wanted && node == n) term terms) row.new }
    ensures nodes { length row.new ≡ length row.old }
    ensures others { (n : ℕ) → n ≢ node → finite_at row.new n ≡ finite_at row.old n }
{
    if wanted {
        row.put(node, term);
    }
}

/// Adds a term to those of each node of a set.
pub(crate) fn put_each(row: &mut Row, nodes: u32, term: Score, set: &NodeSet)
    requires nodes { nodes ≡ length row.old }
    requires few { nodes ≤ 256 }
    requires room { (n : ℕ) → IsRoomy (finite_at row.old n) }
    ensures terms { (terms : ℕ → List ℤ) → IsRow nodes terms row.old → IsRow nodes (more_where (has set.now) term terms) row.new }
    ensures nodes { length row.new ≡ length row.old }
{
    for node in 0..nodes {
        put_if(row, node, term, set.has(node));
    }
}
