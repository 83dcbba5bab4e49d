//! Which cells are stopped and started again.

ghost use Rattle.std.specs.Prelude.{◌≡◌, ◌↔◌, ℕ, List, true, IfOk, length};
ghost use Rattle.cluster_types.specs.declared.journal.Event.{Event as EventOf};
ghost use Rattle.cluster_types.specs.NeededActions.{Cycled};
ghost use Rattle.cluster_types.specs.Tables.{Targets};
ghost use Rattle.cluster_types.specs.Valid.{IsValid};
ghost use Rattle.loops.specs.Ranks.{AreRanks};
ghost use Rattle.planner.specs.Inner.Levels.{AreNeeds, marks_in};

use crate::needed_actions::activity::mark_active;
use crate::needed_actions::marks::CellMarks;
use crate::needed_actions::passing::{mark_levels, top_level};
use crate::needed_actions::steps::CellNeed;
use cluster_types::{Cluster, NoMemory};
use loops::StepRanks;
use std::alloc::Global;

/// The cells that are stopped and started again: those of leaves that are active in more cells than they have copies, and those of each
/// then whose first is disturbed.
///
/// Each order is looked at once, after all those that may disturb its first.
pub fn cycled_cells(
    alloc: Global,
    cluster: &Cluster,
    ranks: &StepRanks,
    needs: &[CellNeed],
) -> Result<CellMarks, NoMemory>
    requires valid { IsValid cluster.now }
    requires ranked { AreRanks cluster.now ranks.now }
    ensures nodes { IfOk result (λ marks. marks.nodes ≡ length cluster.now.nodes) }
    ensures marks { IfOk result (λ marks. (es : List EventOf) (targets : Targets) → AreNeeds cluster.now es targets needs.now
        → (r n : ℕ) → marks_in marks.nodes marks.cells.items r n ≡ true ↔ Cycled cluster.now es targets r n) }
{
    let leaves = cluster.leaves.len() as u32;
    let mut marks = CellMarks::none(alloc, leaves, cluster.nodes.len() as u32)?;
    mark_active(alloc, cluster, needs, &mut marks)?;
    let top = top_level(cluster, ranks);
    mark_levels(alloc, cluster, ranks, needs, top, &mut marks)?;
    Ok(marks)
}
