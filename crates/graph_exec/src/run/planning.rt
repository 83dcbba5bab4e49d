//! The plan of a transition, and the transition before anything of it has begun.

ghost use Rattle.std.specs.Prelude.{◌≡◌, IfOk, IfSome};
ghost use Rattle.cluster_types.specs.Safety.{IsAtRest};
ghost use Rattle.cluster_types.specs.Valid.{IsValid};
ghost use Rattle.planner.specs.PlanForJournal.{AreTold};
ghost use Rattle.graph_exec.specs.Inner.Turns.{IsReady, Serves, ServesAgain};

use crate::run::same_states::are_same;
use crate::{Executor, KnownJournal};
use cluster_types::{Cluster, NoMemory, Placed, Plan, Rights, States};
use planner::plan_of;
use std::alloc::Global;

/// A transition of which nothing has begun, with the rest of its plan: the states that it was made for, what the cluster may do
/// by them, and where everything goes.
#[derive(Drop)]
pub(crate) struct Planned<'c> {
    pub states: States,
    pub rights: Rights,
    pub placed: Placed,
    pub executor: Executor<'c>,
}

/// The plan for these states, which some journal tells: the last one, where it was made for the same.
fn plan_for(
    alloc: Global,
    cluster: &Cluster,
    states: States,
    last: Option<Plan>,
) -> Result<Plan, NoMemory>
    requires valid { IsValid cluster.now }
    requires told { AreTold cluster.now states }
    requires last { IfSome last (Serves cluster.now) }
    ensures states { IfOk result (λ plan. plan.states ≡ states) }
    ensures serves { IfOk result (Serves cluster.now) }
{
    if let Some(plan) = last {
        if are_same(&plan.states, &states) {
            return Ok(plan);
        }
    }
    let plan = plan_of(alloc, cluster, states)?;
    Ok(plan)
}

/// The transition that is planned for the journal. Where the journal tells the same states as that of the last plan, that plan
/// serves again. All memory of it is taken here.
pub(crate) fn plan_next<'c>(
    alloc: Global,
    journal: KnownJournal<'c>,
    last: Option<Plan>,
) -> Result<Planned<'c>, NoMemory>
    requires valid { IsValid journal.cluster }
    requires at_rest { IsAtRest journal.events }
    requires last { IfSome last (Serves journal.cluster) }
    ensures ready { IfOk result (IsReady journal.entry) }
    ensures serves { IfOk result (ServesAgain journal.entry.cluster) }
{
    let states = journal.states(alloc)?;
    let plan = plan_for(alloc, journal.cluster(), states, last)?;
    let Ok(executor) = Executor::on(alloc, journal, plan.graph) else {
        return Err(NoMemory);
    };
    Ok(Planned {
        states: plan.states,
        rights: plan.rights,
        placed: plan.placed,
        executor,
    })
}
