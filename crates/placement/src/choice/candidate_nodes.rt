//! Which nodes a decision may choose.

ghost use Rattle.std.specs.Prelude.{◌≡◌, ◌<◌, ℕ, true, length};
ghost use Rattle.cluster_types.specs.Tables.{targets_of};
ghost use Rattle.score.specs.NodeSet.{has};
ghost use Rattle.placement.specs.Inner.Reads as spec;

use crate::choice::inputs::Known;
use crate::choice::permitting::open_nodes;
use crate::colocations::allowing::allowed_nodes;
use cluster_types::{Decision, Table};
use score::{NodeSet, Score, candidates};

/// The nodes that the decision may choose, where these are its totals: usable ones on which it is permitted, that colocations allow and whose total is
/// 0 or more.
pub(crate) fn candidate_nodes(
    known: &Known,
    table: &Table,
    decision: Decision,
    totals: &[Score],
) -> NodeSet
    requires { length totals.now ≡ length known.now.cluster.now.nodes }
    ensures passed { (n : ℕ) → has result n
        ≡ spec.is_candidate_in known.now.cluster.now known.now.states.now known.now.rights (targets_of table.now) decision totals.now n }
    ensures there { (n : ℕ) → has result n ≡ true → n < length known.now.cluster.now.nodes }
{
    let open = open_nodes(known, table, decision);
    let allowed = allowed_nodes(known.cluster, table, decision, open);
    candidates(totals, &allowed)
}
