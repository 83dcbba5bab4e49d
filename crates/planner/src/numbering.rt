//! The graph of a plan.

ghost use Rattle.std.specs.Prelude.{◌≡◌, ℕ, List, IfOk};
ghost use Rattle.cluster_types.specs.declared.journal.Event.{Event as EventOf};
ghost use Rattle.cluster_types.specs.Graphs.{is_before};
ghost use Rattle.cluster_types.specs.NeededActions.{Needed};
ghost use Rattle.cluster_types.specs.Numbers.{AreNeeded, AreNumbered};
ghost use Rattle.cluster_types.specs.Plans.{AreFewEdges, precedes_by_number};
ghost use Rattle.cluster_types.specs.Steps.{numbered};
ghost use Rattle.cluster_types.specs.Tables.{Targets};
ghost use Rattle.cluster_types.specs.Valid.{IsValid};
ghost use Rattle.planner.specs.PlannedActions.{AreOfSomePlan};

use crate::by_number::in_number_order;
use crate::edges;
use cluster_types::{Action, Cluster, Graph, NoMemory};
use std::alloc::Global;

/// Numbers the actions of a plan, and says which of them must have succeeded before which may begin (rule of this project: by phase, rank,
/// leaf, node and interval; `must_precede`).
///
/// The actions may stand in whatever order, each once; they are those that are needed for what is placed by some journal, of a valid
/// cluster. Of two numbers the graph has the one before the other just when the action of the one must precede that of the other. Its edges and
/// positions are at most as many as `most_edges` and `most_positions` say. Out of memory is the only other answer. But for the sorts the time is linear: in the actions, and for each rule in the nodes and the actions of
/// its leaves.
pub fn number(alloc: Global, cluster: &Cluster, actions: Vec<Action>) -> Result<Graph, NoMemory>
    requires valid { IsValid cluster.now }
    requires planned { AreOfSomePlan cluster.now actions.items }
    ensures numbered { IfOk result (λ graph. (events : List EventOf) (targets : Targets) → AreNeeded (Needed cluster.now events targets) actions.items
        → AreNumbered cluster.now (Needed cluster.now events targets) graph.actions) }
    ensures pairs { IfOk result (λ graph. (j k : ℕ)
        → is_before graph j k ≡ precedes_by_number cluster.now graph.actions (numbered graph.actions j) (numbered graph.actions k)) }
    ensures few { IfOk result (λ graph. AreFewEdges cluster.now graph.actions graph.edges) }
{
    let sorted = in_number_order(alloc, cluster, actions)?;
    let edges = edges(alloc, cluster, sorted.as_slice())?;
    Ok(Graph::new(sorted, edges))
}
