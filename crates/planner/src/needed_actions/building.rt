//! All that has to be done.

ghost use Rattle.std.specs.Prelude.{◌≡◌, ◌++◌, List, IfOk, OnOk, length, map};
ghost use Rattle.std.specs.List.{range_with_len};
ghost use Rattle.listed.specs.Flags.{is_marked};
ghost use Rattle.cluster_types.specs.declared.journal.Event.{Event as EventOf};
ghost use Rattle.cluster_types.specs.declared.journal.Promotion.{Promotion as PromotionOf};
ghost use Rattle.cluster_types.specs.NeededActions.{Needed};
ghost use Rattle.cluster_types.specs.Numbers.{AreNeeded};
ghost use Rattle.cluster_types.specs.Pins.{pin_of};
ghost use Rattle.cluster_types.specs.Rights.{rights_of};
ghost use Rattle.cluster_types.specs.Tables.{Targets, targets_of};
ghost use Rattle.cluster_types.specs.UnpackedStates.{states_of};
ghost use Rattle.cluster_types.specs.Valid.{IsValid, KeepsLimits};
ghost use Rattle.planner.specs.Inner.Actions as actions;
ghost use Rattle.planner.specs.Inner.Works.{IsWork, marks_of, needs_of};

use crate::needed_actions::finding::cycled_cells;
use crate::needed_actions::flags::{free, touched};
use crate::needed_actions::knowing::cell_needs;
use crate::needed_actions::listing::push_leaves;
use crate::needed_actions::work::CellWork;
use cluster_types::{Action, Cluster, NoMemory, NodeId, NodeState, Placed, Rights, States};
use loops::ranks;
use std::alloc::{AllocError, Global};

fn is_unclean(states: &[NodeState], node: NodeId) -> bool
    ensures { result ≡ actions.is_unclean_in states.now node }
{
    match states.get(node as usize) {
        Some(state) => *state == NodeState::Unclean,
        None => false,
    }
}

/// Adds a fence of the node, if it is unclean and the cluster may fence.
fn push_fence(
    list: &mut Vec<Action>,
    may_fence: bool,
    states: &[NodeState],
    node: NodeId,
) -> Result<(), AllocError>
    ensures { OnOk result (list.new.items ≡ list.old.items ++ actions.fences_in may_fence states.now node) }
{
    if may_fence && is_unclean(states, node) {
        list.push(Action::Fence { node })?;
    }
    Ok(())
}

/// Adds the fences of all nodes that are to be fenced.
#[tactic(auto, using(lemmas::proofs::Grown::values_more))]
fn push_fences(
    list: &mut Vec<Action>,
    cluster: &Cluster,
    may_fence: bool,
    states: &[NodeState],
) -> Result<(), AllocError>
    requires { KeepsLimits cluster.now }
    ensures { OnOk result (list.new.items ≡ list.old.items ++ actions.all_fences cluster.now may_fence states.now) }
{
    for node in 0..cluster.nodes.len() as u32 {
        push_fence(list, may_fence, states, node)?;
    }
    Ok(())
}

/// What each cell needs, with the cells that are cycled.
fn cell_work(
    alloc: Global,
    cluster: &Cluster,
    states: &States,
    rights: Rights,
    placed: &Placed,
) -> Result<CellWork, NoMemory>
    requires { IsValid cluster.now }
    ensures { IfOk result (λ work. (events : List EventOf) (promotions : List PromotionOf)
        → states.now ≡ states_of cluster.now events promotions
        → rights ≡ rights_of cluster.now events
        → placed.now.pins ≡ map (pin_of cluster.now events) (range_with_len 0 (length cluster.now.leaves))
        → IsWork cluster.now events (targets_of placed.now.table) work) }
{
    let ranks = ranks(alloc, cluster)?;
    let needs = cell_needs(alloc, cluster, states, placed, rights.may_start)?;
    let marks = cycled_cells(alloc, cluster, &ranks, needs.as_slice())?;
    Ok(CellWork { needs, marks })
}

/// The fences and the actions of all leaves, where those with a flag may migrate.
fn list_of(
    alloc: Global,
    cluster: &Cluster,
    may_fence: bool,
    states: &[NodeState],
    work: &CellWork,
    free: &[bool],
) -> Result<Vec<Action>, NoMemory>
    requires { KeepsLimits cluster.now }
    ensures { IfOk result (λ list. list.items ≡ actions.all_fences cluster.now may_fence states.now
        ++ actions.leaves_actions cluster.now (needs_of work.now) (marks_of work.now) (is_marked free.now)) }
{
    let mut list = Vec::new(alloc);
    push_fences(&mut list, cluster, may_fence, states)?;
    push_leaves(&mut list, cluster, work, free)?;
    Ok(list)
}

/// All that has to be done, where this is what each cell needs.
fn actions_of(
    alloc: Global,
    cluster: &Cluster,
    states: &States,
    rights: Rights,
    work: &CellWork,
) -> Result<Vec<Action>, NoMemory>
    requires { IsValid cluster.now }
    ensures { IfOk result (λ list. (events : List EventOf) (promotions : List PromotionOf) (targets : Targets)
        → states.now ≡ states_of cluster.now events promotions → rights ≡ rights_of cluster.now events
        → IsWork cluster.now events targets work.now → AreNeeded (Needed cluster.now events targets) list.items) }
{
    let touched = touched(alloc, cluster, work)?;
    let free = free(alloc, cluster, touched.as_slice())?;
    list_of(
        alloc,
        cluster,
        rights.may_fence,
        states.nodes.as_slice(),
        work,
        free.as_slice(),
    )
}

/// All that has to be done: the fences, and leaf by leaf and node by node the probes, steps, monitors and migrations that bring the
/// cluster to its targets (Pacemaker Explained, "Monitoring Resources for Failure", recovery and "Migrating Resources"). Each action is
/// there once, in no order that is told.
///
/// The states are those that some journal tells of the cluster, the rights those that it gives, and the pins of what was placed are of
/// it; of others nothing is said. Out of memory is the only other answer. The time is linear in the cells, in the rules times the nodes,
/// and in the orders times the ranks of their stops.
pub fn actions(
    alloc: Global,
    cluster: &Cluster,
    states: &States,
    rights: Rights,
    placed: &Placed,
) -> Result<Vec<Action>, NoMemory>
    requires { IsValid cluster.now }
    ensures { IfOk result (λ list. (events : List EventOf) (promotions : List PromotionOf)
        → states.now ≡ states_of cluster.now events promotions
        → rights ≡ rights_of cluster.now events
        → placed.now.pins ≡ map (pin_of cluster.now events) (range_with_len 0 (length cluster.now.leaves))
        → AreNeeded (Needed cluster.now events (targets_of placed.now.table)) list.items) }
{
    let work = cell_work(alloc, cluster, states, rights, placed)?;
    actions_of(alloc, cluster, states, rights, &work)
}
