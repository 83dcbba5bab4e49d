//! What orders mark.

ghost use Rattle.std.specs.Prelude.{◌≡◌, ◌≤◌, ◌<◌, ◌+◌, ◌*◌, ◌==◌, ◌&&◌, ◌||◌, ◌++◌, ℕ, List, IfOk, OnOk, if◌then◌else◌, length, map, slice_index_or, false};
ghost use Rattle.std.specs.List.{list_any, range_with_len};
ghost use Rattle.cluster_types.specs.declared.cluster.Cluster.{Cluster as ClusterOf};
ghost use Rattle.cluster_types.specs.declared.journal.Event.{Event as EventOf};
ghost use Rattle.cluster_types.specs.Precedence.{role_given};
ghost use Rattle.cluster_types.specs.Tables.{Targets, target_holds};
ghost use Rattle.loops.specs.FirstLoops.{OrdersSteps};
ghost use Rattle.planner.specs.CycledCells as cycling;
ghost use Rattle.planner.specs.Inner.ByNeeds as by_needs;
ghost use Rattle.planner.specs.Inner.Levels.{AreNeeds, marks_in, need_in};

use crate::needed_actions::marks::CellMarks;
use crate::needed_actions::steps::CellNeed;
use cluster_types::{LeafId, NodeId, Op, Order, Target, cell_place};
use listed::flag_at;
use std::alloc::{AllocError, Global};

/// What the list says of the cell, leaf by leaf and node by node.
pub fn need_of(needs: &[CellNeed], nodes: u32, leaf: LeafId, node: NodeId) -> CellNeed
    ensures { result ≡ need_in nodes needs.now leaf node }
{
    match needs.get(cell_place(nodes as usize, leaf, node)) {
        Some(need) => *need,
        None => CellNeed::none(),
    }
}

/// Whether the order may have cells of its then stopped and started again: it is mandatory, holds both ways, and both its words give a
/// role.
pub fn is_cycling(order: &Order) -> bool
    ensures { result ≡ cycling.is_cycling order.now }
{
    order.is_mandatory()
        && order.symmetrical
        && order.first_op.is_giving()
        && order.then_op.is_giving()
}

/// Whether the target is one of the role that the word gives.
fn is_target_of(target: Target, word: Op) -> bool
    ensures { result ≡ target_holds target (role_given word) }
{
    target.holds(word.role_given())
}

/// Whether the first of the order is disturbed on the node, by the steps that it needs itself or by those that it gets as a marked cell.
fn is_disturbed(needs: &[CellNeed], marks: &CellMarks, order: &Order, node: NodeId) -> bool
    ensures { result ≡ by_needs.is_disturbed_by_needs marks.now.nodes needs.now (marks_in marks.now.nodes marks.now.cells.items) order.now node }
{
    let need = need_of(needs, marks.nodes, order.first, node);
    need.is_disturbed(order.first_op, false)
        || marks.is_marked(order.first, node) && need.is_disturbed(order.first_op, true)
}

/// On which nodes it is.
#[tactic(auto, using(lemmas::proofs::Grown::value_more))]
fn disturbed(
    alloc: Global,
    needs: &[CellNeed],
    marks: &CellMarks,
    order: &Order,
) -> Result<Vec<bool>, AllocError>
    ensures { IfOk result (λ flags. flags.items ≡ map (by_needs.is_disturbed_by_needs marks.now.nodes needs.now
        (marks_in marks.now.nodes marks.now.cells.items) order.now) (range_with_len 0 marks.now.nodes)) }
{
    let mut flags = Vec::new(alloc);
    for node in 0..marks.nodes {
        flags.push(is_disturbed(needs, marks, order, node))?;
    }
    Ok(flags)
}

/// Whether the then of the order is to be marked on the node, where its first is disturbed on the nodes with a flag, and so somewhere or
/// nowhere.
fn is_marked_on(
    needs: &[CellNeed],
    nodes: u32,
    order: &Order,
    flags: &[bool],
    somewhere: bool,
    node: NodeId,
) -> bool
    ensures { result ≡ by_needs.is_marked_on nodes needs.now order.now flags.now somewhere node }
{
    let need = need_of(needs, nodes, order.then_leaf, node);
    need.can_cycle
        && is_target_of(need.target, order.then_op)
        && (if order.local {
            flag_at(flags, node)
        } else {
            somewhere
        })
}

fn is_any(flags: &[bool]) -> bool
    ensures { result ≡ list_any (λ b. b) flags.now }
{
    flags.iter().any(|flag| *flag)
}

/// On which nodes it is.
#[tactic(auto, using(lemmas::proofs::Grown::value_more))]
fn marked(
    alloc: Global,
    needs: &[CellNeed],
    nodes: u32,
    order: &Order,
    flags: &[bool],
) -> Result<Vec<bool>, AllocError>
    ensures { IfOk result (λ marked. marked.items
        ≡ map (by_needs.is_marked_on nodes needs.now order.now flags.now (list_any (λ b. b) flags.now)) (range_with_len 0 nodes)) }
{
    let somewhere = is_any(flags);
    let mut marked = Vec::new(alloc);
    for node in 0..nodes {
        marked.push(is_marked_on(needs, nodes, order, flags, somewhere, node))?;
    }
    Ok(marked)
}

/// Adds the marks that the order adds to these.
pub fn mark_by(
    alloc: Global,
    needs: &[CellNeed],
    order: &Order,
    marks: &mut CellMarks,
) -> Result<(), AllocError>
    requires { order.now.then_leaf * marks.old.nodes + marks.old.nodes ≤ length marks.old.cells.items }
    ensures nodes { OnOk result (marks.new.nodes ≡ marks.old.nodes) }
    ensures size { OnOk result (length marks.new.cells.items ≡ length marks.old.cells.items) }
    ensures marks { OnOk result ((c : ClusterOf) (es : List EventOf) (targets : Targets) → AreNeeds c es targets needs.now
        → marks.old.nodes ≡ length c.nodes → OrdersSteps c order.now
        → marks_in marks.new.nodes marks.new.cells.items
        ≡ cycling.with_order c es targets (marks_in marks.old.nodes marks.old.cells.items) order.now) }
{
    let disturbed = disturbed(alloc, needs, marks, order)?;
    let marked = marked(alloc, needs, marks.nodes, order, disturbed.as_slice())?;
    marks.mark_where(order.then_leaf, marked.as_slice());
    Ok(())
}
