//! The total of a decision on each node.

ghost use Rattle.std.specs.Prelude.{◌≡◌, ◌∷◌, [], length, map, IfOk};
ghost use Rattle.std.specs.List.{range_with_len};
ghost use Rattle.cluster_types.specs.Tables.{targets_of};
ghost use Rattle.placement.specs.Inner.Reads as spec;
ghost use Rattle.score.specs.Total.{total_of};

use crate::choice::inputs::Known;
use crate::colocations::preferring::preferences;
use cluster_types::{Decision, NoMemory, Table};
use score::{Score, total};
use std::alloc::Global;

/// The total of both.
fn total_of_both(base: Score, preference: Score) -> Score
    ensures { result ≡ total_of (base ∷ preference ∷ []) }
{
    total(&[base, preference])
}

/// The total of the decision on each node, with the table so far: of its total before colocations and of how much they prefer it (rule of this
/// project).
pub(crate) fn totals_on(
    alloc: Global,
    known: &Known,
    table: &Table,
    decision: Decision,
) -> Result<Vec<Score>, NoMemory>
    ensures { IfOk result (λ all. all.items
        ≡ map (spec.total_in known.now.cluster.now known.now.scores.now (targets_of table.now) decision) (range_with_len 0 (length known.now.cluster.now.nodes))) }
{
    let preferences = preferences(alloc, known.cluster, table, decision)?;
    let mut all = Vec::with_capacity(alloc, preferences.len())?;
    for node in 0..preferences.len() {
        let base = known.scores.total_at(decision, node as u32);
        all.push_reserved(total_of_both(base, preferences[node]));
    }
    Ok(all)
}
