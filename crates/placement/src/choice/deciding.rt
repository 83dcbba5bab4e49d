//! Decisions, one after the other.

ghost use Rattle.std.specs.Prelude.{◌≡◌, ◌*◌, ◌<◌, List, Contains, length, IfOk};
ghost use Rattle.cluster_types.specs.declared.journal.Event.{Event as EventOf};
ghost use Rattle.cluster_types.specs.declared.journal.Promotion.{Promotion as PromotionOf};
ghost use Rattle.cluster_types.specs.declared.placement.Decision.{Decision as DecisionOf};
ghost use Rattle.cluster_types.specs.Choice.{after_decisions, target_by};
ghost use Rattle.cluster_types.specs.Decisions.{leaf_of};
ghost use Rattle.cluster_types.specs.Plans.{with_totals};
ghost use Rattle.cluster_types.specs.Tables.{targets_of};
ghost use Rattle.cluster_types.specs.UnpackedStates.{states_of};
ghost use Rattle.cluster_types.specs.Valid.{KeepsLimits};
ghost use Rattle.placement.specs.Loads.{IsLoaded};
ghost use Rattle.placement.specs.Steps.{Tell};
ghost use Rattle.placement.specs.Inner.Steps.{AreMade, IsMade};
ghost use Rattle.placement.specs.Scores.{scores_of};

use crate::ScoreTable;
use crate::choice::chosen_nodes::chosen_nodes;
use crate::choice::inputs::Known;
use crate::choice::loaded_table::LoadedTable;
use cluster_types::{Cluster, Decided, Decision, NoMemory, States, Table, Target};
use listed::Listed;
use std::alloc::Global;

/// What some decisions chose.
#[derive(PartialEq, Eq, Drop)]
pub struct Choices {
    /// The table that they leave.
    pub table: Table,
    /// The decisions in their order, each with its total on every node at its turn.
    pub decided: Listed<Decided>,
}

/// A table after one decision, and that decision with its totals.
#[derive(Drop)]
struct Turn {
    loaded: LoadedTable,
    decided: Decided,
}

/// What the decision makes of a cell that it chooses.
pub fn target_by(decision: Decision) -> Target
    ensures { result ≡ target_by decision }
{
    match decision {
        Decision::Place(_) => Target::Started,
        Decision::Promote(_) => Target::Promoted,
    }
}

/// Makes one decision.
fn decide(
    alloc: Global,
    known: &Known,
    loaded: LoadedTable,
    decision: Decision,
) -> Result<Turn, NoMemory>
    requires leaf { leaf_of decision < length known.now.cluster.now.leaves }
    requires loaded { IsLoaded known.now.cluster.now loaded.table loaded.loads.items }
    ensures loaded { IfOk result (λ turn. IsLoaded known.now.cluster.now turn.loaded.table turn.loaded.loads.items) }
    ensures made { IfOk result (λ turn. (es : List EventOf) (promotions : List PromotionOf)
        → Tell known.now.cluster.now es promotions known.now.states.now known.now.scores.now
        → IsMade known.now.cluster.now es promotions (targets_of loaded.table) decision (targets_of turn.loaded.table) turn.decided) }
{
    let chosen = chosen_nodes(alloc, known, &loaded, decision)?;
    let target = target_by(decision);
    let loaded = loaded.with_targets(known.cluster, decision.leaf(), &chosen.nodes, target);
    Ok(Turn {
        loaded,
        decided: Decided {
            decision,
            totals: Listed::from(chosen.totals),
        },
    })
}

/// Makes the decisions in their order.
fn decide_each(
    alloc: Global,
    known: &Known,
    loaded: LoadedTable,
    order: &[Decision],
) -> Result<Choices, NoMemory>
    requires loaded { IsLoaded known.now.cluster.now loaded.table loaded.loads.items }
    requires leaves { (d : DecisionOf) → Contains order.now d → leaf_of d < length known.now.cluster.now.leaves }
    ensures nodes { IfOk result (λ choices. choices.table.nodes ≡ length known.now.cluster.now.nodes) }
    ensures cells { IfOk result (λ choices. length choices.table.targets ≡ length known.now.cluster.now.leaves * length known.now.cluster.now.nodes) }
    ensures made { IfOk result (λ choices. (es : List EventOf) (promotions : List PromotionOf)
        → Tell known.now.cluster.now es promotions known.now.states.now known.now.scores.now
        → AreMade known.now.cluster.now es promotions (targets_of loaded.table) order.now (targets_of choices.table) choices.decided) }
{
    let mut loaded = loaded;
    let mut decided = Vec::with_capacity(alloc, order.len())?;
    for decision in order {
        let turn = decide(alloc, known, loaded, *decision)?;
        loaded = turn.loaded;
        decided.push_reserved(turn.decided);
    }
    Ok(Choices {
        table: loaded.table,
        decided: Listed::from(decided),
    })
}

/// Makes the decisions in their order, each with the table that those before it left, from a table of the cluster's leaves and nodes on. A decision
/// chooses the nodes with the greatest totals, of these those with the fewest leaves, of these the earliest, up to its cap (Pacemaker Explained,
/// "Allocation Details"; the order among equals is a rule of this project). Any order may be handed in whose leaves the cluster has. The totals before
/// colocations are those that `rows` gives for the states, and the states those that some journal tells of the cluster; of others nothing is said.
/// Out of memory is the only other answer.
///
/// The time of a decision grows with the nodes, with the colocations, and with the nodes for each colocation of which it is a side.
pub fn decide_all(
    alloc: Global,
    cluster: &Cluster,
    states: &States,
    scores: &ScoreTable,
    table: Table,
    order: &[Decision],
) -> Result<Choices, NoMemory>
    requires limits { KeepsLimits cluster.now }
    requires nodes { table.nodes ≡ length cluster.now.nodes }
    requires cells { length table.targets ≡ length cluster.now.leaves * length cluster.now.nodes }
    requires leaves { (d : DecisionOf) → Contains order.now d → leaf_of d < length cluster.now.leaves }
    ensures nodes { IfOk result (λ choices. choices.table.nodes ≡ length cluster.now.nodes) }
    ensures cells { IfOk result (λ choices. length choices.table.targets ≡ length cluster.now.leaves * length cluster.now.nodes) }
    ensures targets { IfOk result (λ choices. (events : List EventOf) (promotions : List PromotionOf)
        → states.now ≡ states_of cluster.now events promotions → scores.now ≡ scores_of cluster.now events promotions
        → targets_of choices.table ≡ after_decisions cluster.now events promotions (targets_of table) order.now) }
    ensures decided { IfOk result (λ choices. (events : List EventOf) (promotions : List PromotionOf)
        → states.now ≡ states_of cluster.now events promotions → scores.now ≡ scores_of cluster.now events promotions
        → choices.decided ≡ with_totals cluster.now events promotions (targets_of table) order.now) }
{
    let known = Known::new(cluster, states, scores);
    let loaded = LoadedTable::of(alloc, cluster, table)?;
    let choices = decide_each(alloc, &known, loaded, order)?;
    Ok(choices)
}
