//! Whether two journals tell the same states.

ghost use Rattle.std.specs.Prelude.{◌≡◌, true};

use cluster_types::{Cell, NodeState, Promotion, States};
use listed::Listed;

fn same_nodes(a: &Listed<NodeState>, b: &Listed<NodeState>) -> bool
    ensures { result ≡ true → a.now ≡ b.now }
{
    a == b
}

fn same_cells(a: &Listed<Cell>, b: &Listed<Cell>) -> bool
    ensures { result ≡ true → a.now ≡ b.now }
{
    a == b
}

fn same_flags(a: &Listed<bool>, b: &Listed<bool>) -> bool
    ensures { result ≡ true → a.now ≡ b.now }
{
    a == b
}

fn same_promotions(a: &Listed<Promotion>, b: &Listed<Promotion>) -> bool
    ensures { result ≡ true → a.now ≡ b.now }
{
    a == b
}

/// Whether the states are the same. What changes most often is compared first.
pub(crate) fn are_same(a: &States, b: &States) -> bool
    ensures { result ≡ true → a.now ≡ b.now }
{
    if a.quorum != b.quorum {
        return false;
    }
    if a.moment != b.moment {
        return false;
    }
    if !same_nodes(&a.nodes, &b.nodes) {
        return false;
    }
    if !same_cells(&a.cells, &b.cells) {
        return false;
    }
    if !same_flags(&a.fail_stop, &b.fail_stop) {
        return false;
    }
    same_promotions(&a.promotions, &b.promotions)
}
