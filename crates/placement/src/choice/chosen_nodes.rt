//! Which nodes a decision chooses.

ghost use Rattle.std.specs.Prelude.{◌<◌, List, length, IfOk};
ghost use Rattle.cluster_types.specs.declared.journal.Event.{Event as EventOf};
ghost use Rattle.cluster_types.specs.declared.journal.Promotion.{Promotion as PromotionOf};
ghost use Rattle.cluster_types.specs.Decisions.{leaf_of};
ghost use Rattle.cluster_types.specs.Tables.{targets_of};
ghost use Rattle.placement.specs.Loads.{IsLoaded};
ghost use Rattle.placement.specs.Steps.{Chooses, Tell};

use crate::choice::candidate_nodes::candidate_nodes;
use crate::choice::caps::cap_of;
use crate::choice::choosing::choose;
use crate::choice::inputs::Known;
use crate::choice::loaded_table::LoadedTable;
use crate::choice::totalling::totals_on;
use cluster_types::{Decision, NoMemory};
use score::{NodeSet, Score};
use std::alloc::Global;

/// The total of a decision on each node, and the nodes that it chooses.
#[derive(Drop)]
pub struct ChosenNodes {
    /// One for each node.
    pub totals: Vec<Score>,
    pub nodes: NodeSet,
}

/// What the decision chooses, with the table so far: of the nodes that it may choose the first ones, up to its cap. It asks for a leaf of the
/// cluster. What it gives is said of states and totals that some journal tells. Out of memory is the only other answer.
pub fn chosen_nodes(
    alloc: Global,
    known: &Known,
    loaded: &LoadedTable,
    decision: Decision,
) -> Result<ChosenNodes, NoMemory>
    requires leaf { leaf_of decision < length known.now.cluster.now.leaves }
    requires loaded { IsLoaded known.now.cluster.now loaded.now.table loaded.now.loads.items }
    ensures { IfOk result (λ chosen. (es : List EventOf) (promotions : List PromotionOf)
        → Tell known.now.cluster.now es promotions known.now.states.now known.now.scores.now
        → Chooses known.now.cluster.now es promotions (targets_of loaded.now.table) decision chosen.totals.items chosen.nodes) }
{
    let totals = totals_on(alloc, known, &loaded.table, decision)?;
    let among = candidate_nodes(known, &loaded.table, decision, &totals);
    let cap = cap_of(known.cluster, known.states, decision);
    let nodes = choose(&totals, &loaded.loads, among, cap);
    Ok(ChosenNodes { totals, nodes })
}
