//! One pass over the orders, the highest rank first.

ghost use Rattle.std.specs.Prelude.{◌≡◌, ◌≤◌, ◌<◌, ◌+◌, ◌*◌, ℕ, List, OnOk, length, Contains};
ghost use Rattle.cluster_types.specs.declared.cluster.Cluster.{Cluster as ClusterOf};
ghost use Rattle.cluster_types.specs.declared.journal.Event.{Event as EventOf};
ghost use Rattle.cluster_types.specs.declared.rules.Order.{Order as OrderOf};
ghost use Rattle.cluster_types.specs.Numbers as numbers;
ghost use Rattle.cluster_types.specs.Tables.{Targets};
ghost use Rattle.cluster_types.specs.declared.leaf.Op.TheVariants.{Stop};
ghost use Rattle.cluster_types.specs.Valid.{IsValid};
ghost use Rattle.loops.specs.FirstLoops.{AllOrder};
ghost use Rattle.loops.specs.Ranks.{AreRanks};
ghost use Rattle.planner.specs.CycledCells as cycling;
ghost use Rattle.planner.specs.Inner.Levels.{AreNeeds, at_level, below_level, is_at_level, marks_in};

use crate::needed_actions::marking::{is_cycling, mark_by};
use crate::needed_actions::marks::CellMarks;
use crate::needed_actions::steps::CellNeed;
use cluster_types::{Cluster, Op, Order};
use loops::StepRanks;
use std::alloc::{AllocError, Global};

/// Whether the order may have cells cycled, and its first stops at this rank.
fn is_at(ranks: &StepRanks, level: u32, order: &Order) -> bool
    ensures { (c : ClusterOf) → AreRanks c ranks.now → result ≡ is_at_level c level order.now }
{
    is_cycling(order) && ranks.rank(Op::Stop, order.first) == level
}

/// A rank above those at which the firsts of all orders stop.
pub fn top_level(cluster: &Cluster, ranks: &StepRanks) -> u32
    requires valid { IsValid cluster.now }
    requires ranked { AreRanks cluster.now ranks.now }
    ensures { (o : OrderOf) → Contains cluster.now.orders o → numbers.rank cluster.now (numbers.step_of Stop o.first) < result }
{
    let mut top = 0;
    for order in cluster.orders.as_slice() {
        let level = ranks.rank(Op::Stop, order.first);
        if level < top {
            continue;
        }
        top = level + 1;
    }
    top
}

/// Adds what the orders of one rank mark.
fn mark_level(
    alloc: Global,
    cluster: &Cluster,
    ranks: &StepRanks,
    needs: &[CellNeed],
    level: u32,
    marks: &mut CellMarks,
) -> Result<(), AllocError>
    requires ordered { AllOrder cluster.now }
    requires ranked { AreRanks cluster.now ranks.now }
    requires nodes { marks.old.nodes ≡ length cluster.now.nodes }
    requires size { length marks.old.cells.items ≡ length cluster.now.leaves * length cluster.now.nodes }
    ensures nodes { OnOk result (marks.new.nodes ≡ marks.old.nodes) }
    ensures size { OnOk result (length marks.new.cells.items ≡ length marks.old.cells.items) }
    ensures marks { OnOk result ((es : List EventOf) (targets : Targets) → AreNeeds cluster.now es targets needs.now
        → marks_in marks.new.nodes marks.new.cells.items
        ≡ cycling.with_orders cluster.now es targets (marks_in marks.old.nodes marks.old.cells.items) (at_level cluster.now level)) }
{
    for order in cluster.orders.as_slice() {
        if !is_at(ranks, level, order) {
            continue;
        }
        mark_by(alloc, needs, order, marks)?;
    }
    Ok(())
}

/// Adds what the orders of all ranks below this one mark, the highest rank first.
pub fn mark_levels(
    alloc: Global,
    cluster: &Cluster,
    ranks: &StepRanks,
    needs: &[CellNeed],
    top: u32,
    marks: &mut CellMarks,
) -> Result<(), AllocError>
    requires ordered { AllOrder cluster.now }
    requires ranked { AreRanks cluster.now ranks.now }
    requires nodes { marks.old.nodes ≡ length cluster.now.nodes }
    requires size { length marks.old.cells.items ≡ length cluster.now.leaves * length cluster.now.nodes }
    ensures nodes { OnOk result (marks.new.nodes ≡ marks.old.nodes) }
    ensures size { OnOk result (length marks.new.cells.items ≡ length marks.old.cells.items) }
    ensures marks { OnOk result ((es : List EventOf) (targets : Targets) → AreNeeds cluster.now es targets needs.now
        → marks_in marks.new.nodes marks.new.cells.items
        ≡ cycling.with_orders cluster.now es targets (marks_in marks.old.nodes marks.old.cells.items) (below_level cluster.now top)) }
{
    let mut left = top;
    while left > 0 {
        left -= 1;
        mark_level(alloc, cluster, ranks, needs, left, marks)?;
    }
    Ok(())
}
