ghost use Rattle.std.specs.Prelude.{◌≡◌, ◌<◌, ◌^◌, List, IfOk};
ghost use Rattle.cluster_types.specs.declared.journal.Event.{Event as EventOf};
ghost use Rattle.cluster_types.specs.declared.journal.Promotion.{Promotion as PromotionOf};
ghost use Rattle.cluster_types.specs.Journals as journals;
ghost use Rattle.cluster_types.specs.UnpackedStates.{states_of};
ghost use Rattle.cluster_types.specs.Valid.{IsValid};
ghost use Rattle.planner.specs.PlanForJournal.{AreTold, IsPlanned};

use crate::{actions, number};
use cluster_types::{Cluster, Journal, NoMemory, Plan, States};
use faults::with;
use placement::placement_of;
use state_unpack::{rights, unpack, valid_clusters_have_few_monitors};
use std::alloc::Global;

/// The plan for a journal, by what it tells: the one that `plan` makes. So a journal that goes on need not be read anew. It asks for a valid cluster, and
/// for states that some journal tells of it. Out of memory is the only other answer.
pub fn plan_of(alloc: Global, cluster: &Cluster, states: States) -> Result<Plan, NoMemory>
    requires valid { IsValid cluster.now }
    requires told { AreTold cluster.now states }
    ensures { IfOk result (λ plan. (events : List EventOf) (promotions : List PromotionOf)
        → states ≡ states_of cluster.now events promotions → IsPlanned cluster.now events promotions plan) }
{
    let placed = placement_of(alloc, cluster, &states);
    let (states, placed) = with(states, placed)?;
    let rights = rights(cluster, &states);
    let actions = actions(alloc, cluster, &states, rights, &placed);
    let ((states, placed), actions) = with((states, placed), actions)?;
    let graph = number(alloc, cluster, actions);
    let ((states, placed), graph) = with((states, placed), graph)?;
    Ok(Plan {
        states,
        rights,
        placed,
        graph,
    })
}

/// The plan for a journal: what it tells of the cluster, what the cluster may do, where everything goes, and the actions that are needed for it, each with
/// those that must have succeeded before it begins (Pacemaker Administration, "Transitions"). It asks for a valid cluster, and for a moment that fits 64
/// bits. Out of memory is the only other answer.
pub fn plan(alloc: Global, cluster: &Cluster, journal: &Journal) -> Result<Plan, NoMemory>
    requires valid { IsValid cluster.now }
    requires moment { journals.moment_of journal.now.events < 2 ^ 64 }
    ensures { IfOk result (λ plan. IsPlanned cluster.now journal.now.events journal.now.promotions plan) }
{
    valid_clusters_have_few_monitors();
    let states = unpack(alloc, cluster, journal)?;
    plan_of(alloc, cluster, states)
}
