//! Which of the nodes that may be chosen are chosen.

ghost use Rattle.std.specs.Prelude.{◌≡◌, ◌<◌, ◌≤◌, ℕ, true, length};
ghost use Rattle.score.specs.NodeSet.{has};
ghost use Rattle.placement.specs.Inner.Picks.{ArePicked};

use score::{NodeSet, Score, greatest};

/// The first nodes of a set, up to the cap: those of the greatest totals, of these those with the smallest loads, of these the earliest (Pacemaker
/// Explained, "Allocation Details"; the order among equals is a rule of this project).
pub(crate) fn choose(totals: &[Score], loads: &[u32], among: NodeSet, cap: u32) -> NodeSet
    requires few { length totals.now ≤ 256 }
    requires nodes { (n : ℕ) → has among n ≡ true → n < length totals.now }
    requires loads { length loads.now ≡ length totals.now }
    ensures { ArePicked totals.now loads.now among cap result }
{
    let mut left = among;
    let mut chosen = NodeSet::none();
    for _turn in 0..cap {
        match greatest(totals, loads, &left) {
            Some(node) => {
                chosen.put(node);
                left.take_out(node);
            }
            None => return chosen,
        }
    }
    chosen
}
