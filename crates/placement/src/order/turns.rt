//! Which of two decisions goes before the other.

ghost use Rattle.std.specs.Prelude.{◌≡◌, ◌&&◌, ◌||◌, ◌==◌, not, nat_lt};
ghost use Rattle.cluster_types.specs.Decisions as decisions;
ghost use Rattle.placement.specs.Inner.Turns as spec;

use crate::order::ranked_decisions::Ranked;
use cluster_types::Decision;

fn is_place(decision: Decision) -> bool
    ensures { result ≡ decisions.is_place decision }
{
    match decision {
        Decision::Place(_) => true,
        Decision::Promote(_) => false,
    }
}

/// Whether the leaf of the first comes first, or both are of one leaf and the first places it.
fn comes_first(one: Decision, other: Decision) -> bool
    ensures { result ≡ (nat_lt (decisions.leaf_of one) (decisions.leaf_of other)
        || decisions.leaf_of one == decisions.leaf_of other && decisions.is_place one && not (decisions.is_place other)) }
{
    one.leaf() < other.leaf() || one.leaf() == other.leaf() && is_place(one) && !is_place(other)
}

/// Whether the first is made before the other: by the greater key, then the earlier leaf, then Place (rule of this project).
pub(crate) fn goes_before(one: &Ranked, other: &Ranked) -> bool
    ensures { result ≡ spec.ranks_before one.now other.now }
{
    other.key.is_less(one.key)
        || !one.key.is_less(other.key) && comes_first(one.decision, other.decision)
}
