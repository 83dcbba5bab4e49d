//! All actions, leaf by leaf and node by node.

ghost use Rattle.std.specs.Prelude.{◌≡◌, ◌++◌, ◌∷◌, [], if◌then◌else◌, OnOk, filter, length, map};
ghost use Rattle.std.specs.List.{flat_map, range_with_len};
ghost use Rattle.listed.specs.Flags.{is_marked};
ghost use Rattle.cluster_types.specs.NeededActions as needed;
ghost use Rattle.cluster_types.specs.Valid.{KeepsLimits};
ghost use Rattle.planner.specs.Inner.Actions as actions;
ghost use Rattle.planner.specs.Inner.Works.{marks_of, needs_of};

use crate::needed_actions::sources::source_of;
use crate::needed_actions::work::CellWork;
use cluster_types::{Action, CellState, Cluster, LeafId, Monitor, NodeId, Op, Role, Target};
use listed::flag_at;
use std::alloc::AllocError;

/// Adds a probe of the cell, if its state isn't known.
fn push_probe(
    list: &mut Vec<Action>,
    work: &CellWork,
    leaf: LeafId,
    node: NodeId,
) -> Result<(), AllocError>
    ensures { OnOk result (list.new.items ≡ list.old.items ++ actions.probes_in (needs_of work.now) leaf node) }
{
    if work.need(leaf, node).state == CellState::Unprobed {
        list.push(Action::Probe { leaf, node })?;
    }
    Ok(())
}

/// Whether a leaf that migrates from the source is sent to the node.
fn is_elsewhere(source: Option<NodeId>, node: NodeId) -> bool
    ensures { result ≡ actions.is_elsewhere source node }
{
    match source {
        None => false,
        Some(source) => source != node,
    }
}

fn step_action(leaf: LeafId, node: NodeId, op: Op) -> Action
    ensures { result ≡ actions.step_action leaf node op }
{
    Action::Operation {
        op,
        leaf,
        node,
        interval_ms: 0,
        role: Role::Started,
    }
}

/// Adds this step of the cell, unless it is its start and the leaf is sent there.
fn push_step(
    list: &mut Vec<Action>,
    step: Op,
    is_sent_there: bool,
    leaf: LeafId,
    node: NodeId,
) -> Result<(), AllocError>
    ensures { OnOk result (list.new.items ≡ list.old.items
        ++ (if actions.stays_needed is_sent_there step then actions.step_action leaf node step ∷ [] else [])) }
{
    if is_sent_there && step == Op::Start {
        return Ok(());
    }
    list.push(step_action(leaf, node, step))?;
    Ok(())
}

/// Adds these steps of the cell, but for its start if the leaf is sent there.
#[tactic(auto, using(crate::proofs::KeptSteps::one_more))]
fn push_steps(
    list: &mut Vec<Action>,
    steps: &[Op],
    is_sent_there: bool,
    leaf: LeafId,
    node: NodeId,
) -> Result<(), AllocError>
    ensures { OnOk result (list.new.items
        ≡ list.old.items ++ map (actions.step_action leaf node) (filter (actions.stays_needed is_sent_there) steps.now)) }
{
    for step in steps {
        push_step(list, *step, is_sent_there, leaf, node)?;
    }
    Ok(())
}

/// Whether the monitor is of the role that the target has.
fn is_of_target(role: Role, target: Target) -> bool
    ensures { result ≡ needed.is_monitor_for role target }
{
    match role {
        Role::Started => target == Target::Started,
        Role::Promoted => target == Target::Promoted,
    }
}

/// Whether the monitor is needed: it is of the target's role, and the cell gets a step or the lowest bit isn't set.
fn is_wanted(monitor: Monitor, target: Target, has_steps: bool, running: u8) -> bool
    ensures { result ≡ actions.is_wanted target has_steps running monitor }
{
    is_of_target(monitor.role, target) && (has_steps || running % 2 == 0)
}

/// Adds the monitor, if it is needed.
fn push_monitor(
    list: &mut Vec<Action>,
    monitor: Monitor,
    is_wanted: bool,
    leaf: LeafId,
    node: NodeId,
) -> Result<(), AllocError>
    ensures { OnOk result (list.new.items
        ≡ list.old.items ++ (if is_wanted then actions.leaf_monitor leaf node monitor ∷ [] else [])) }
{
    if is_wanted {
        list.push(Action::Operation {
            op: Op::Monitor,
            leaf,
            node,
            interval_ms: monitor.interval_ms,
            role: monitor.role,
        })?;
    }
    Ok(())
}

/// Adds the monitors of the cell's target: all of them if it gets a step, and else those whose bit isn't set.
fn push_monitors(
    list: &mut Vec<Action>,
    monitors: &[Monitor],
    target: Target,
    has_steps: bool,
    running: u8,
    leaf: LeafId,
    node: NodeId,
) -> Result<(), AllocError>
    ensures { OnOk result (list.new.items
        ≡ list.old.items ++ map (actions.leaf_monitor leaf node) (actions.wanted target has_steps running monitors.now)) }
{
    let mut left = running;
    for monitor in monitors {
        let is_wanted = is_wanted(*monitor, target, has_steps, left);
        push_monitor(list, *monitor, is_wanted, leaf, node)?;
        left /= 2;
    }
    Ok(())
}

/// Adds the monitors of the cell that are needed.
fn push_watches(
    list: &mut Vec<Action>,
    cluster: &Cluster,
    work: &CellWork,
    leaf: LeafId,
    node: NodeId,
) -> Result<(), AllocError>
    ensures { OnOk result (list.new.items ≡ list.old.items
        ++ map (actions.leaf_monitor leaf node) (actions.monitors_in cluster.now (needs_of work.now) (marks_of work.now) leaf node)) }
{
    let need = work.need(leaf, node);
    if need.pinned {
        return Ok(());
    }
    let has_steps = work.has_steps(leaf, node);
    push_monitors(
        list,
        cluster.monitors(leaf),
        need.target,
        has_steps,
        need.running,
        leaf,
        node,
    )
}

/// Adds the actions of the cell, of a leaf that migrates from the source, or doesn't.
fn push_cell(
    list: &mut Vec<Action>,
    cluster: &Cluster,
    work: &CellWork,
    source: Option<NodeId>,
    leaf: LeafId,
    node: NodeId,
) -> Result<(), AllocError>
    ensures { OnOk result (list.new.items
        ≡ list.old.items ++ actions.cell_actions cluster.now (needs_of work.now) (marks_of work.now) source leaf node) }
{
    push_probe(list, work, leaf, node)?;
    let is_sent_there = is_elsewhere(source, node);
    push_steps(list, work.steps(leaf, node), is_sent_there, leaf, node)?;
    push_watches(list, cluster, work, leaf, node)
}

/// Adds those of all cells of the leaf.
#[tactic(auto, using(lemmas::proofs::Grown::values_more))]
fn push_cells(
    list: &mut Vec<Action>,
    cluster: &Cluster,
    work: &CellWork,
    source: Option<NodeId>,
    leaf: LeafId,
) -> Result<(), AllocError>
    requires { KeepsLimits cluster.now }
    ensures { OnOk result (list.new.items ≡ list.old.items
        ++ flat_map (actions.cell_actions cluster.now (needs_of work.now) (marks_of work.now) source leaf)
        (range_with_len 0 (length cluster.now.nodes))) }
{
    for node in 0..cluster.nodes.len() as u32 {
        push_cell(list, cluster, work, source, leaf, node)?;
    }
    Ok(())
}

/// Adds the migration of the leaf from the source to the target, if it is to be started there.
fn push_migration(
    list: &mut Vec<Action>,
    work: &CellWork,
    leaf: LeafId,
    source: NodeId,
    target: NodeId,
) -> Result<(), AllocError>
    ensures { OnOk result (list.new.items
        ≡ list.old.items ++ actions.migrations_to (needs_of work.now) (marks_of work.now) leaf source target) }
{
    if source != target && work.has_step(Op::Start, leaf, target) {
        list.push(Action::MigrateTo {
            leaf,
            source,
            target,
        })?;
        list.push(Action::MigrateFrom {
            leaf,
            source,
            target,
        })?;
    }
    Ok(())
}

/// Adds its migrations from the source.
#[tactic(auto, using(lemmas::proofs::Grown::values_more))]
fn push_migrations(
    list: &mut Vec<Action>,
    cluster: &Cluster,
    work: &CellWork,
    leaf: LeafId,
    source: NodeId,
) -> Result<(), AllocError>
    requires { KeepsLimits cluster.now }
    ensures { OnOk result (list.new.items ≡ list.old.items
        ++ flat_map (actions.migrations_to (needs_of work.now) (marks_of work.now) leaf source)
        (range_with_len 0 (length cluster.now.nodes))) }
{
    for target in 0..cluster.nodes.len() as u32 {
        push_migration(list, work, leaf, source, target)?;
    }
    Ok(())
}

/// Adds the actions of the leaf.
fn push_leaf(
    list: &mut Vec<Action>,
    cluster: &Cluster,
    work: &CellWork,
    leaf: LeafId,
    free: bool,
) -> Result<(), AllocError>
    requires { KeepsLimits cluster.now }
    ensures { OnOk result (list.new.items ≡ list.old.items
        ++ actions.free_leaf_actions cluster.now (needs_of work.now) (marks_of work.now) free leaf) }
{
    let source = source_of(cluster, work, leaf, free);
    push_cells(list, cluster, work, source, leaf)?;
    match source {
        None => Ok(()),
        Some(source) => push_migrations(list, cluster, work, leaf, source),
    }
}

/// Adds the actions of all leaves, where those with a flag may migrate.
#[tactic(auto, using(lemmas::proofs::Grown::values_more))]
pub fn push_leaves(
    list: &mut Vec<Action>,
    cluster: &Cluster,
    work: &CellWork,
    free: &[bool],
) -> Result<(), AllocError>
    requires { KeepsLimits cluster.now }
    ensures { OnOk result (list.new.items ≡ list.old.items
        ++ actions.leaves_actions cluster.now (needs_of work.now) (marks_of work.now) (is_marked free.now)) }
{
    for leaf in 0..cluster.leaves.len() as u32 {
        push_leaf(list, cluster, work, leaf, flag_at(free, leaf))?;
    }
    Ok(())
}
