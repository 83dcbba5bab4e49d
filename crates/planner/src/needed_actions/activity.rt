//! Leaves that are active in more cells than they have copies.

ghost use Rattle.std.specs.Prelude.{◌≡◌, ◌≤◌, ◌+◌, ◌*◌, ◌&&◌, ◌||◌, ℕ, List, nat_lt, IfOk, OnOk, length, map, count_by, false};
ghost use Rattle.std.specs.List.{range_with_len};
ghost use Rattle.cluster_types.specs.declared.journal.Event.{Event as EventOf};
ghost use Rattle.cluster_types.specs.Tables.{Targets};
ghost use Rattle.planner.specs.Inner.ByNeeds as by_needs;
ghost use Rattle.planner.specs.CycledCells as cycling;
ghost use Rattle.planner.specs.Inner.Levels.{AreNeeds, marks_in, need_in};

use crate::needed_actions::marking::need_of;
use crate::needed_actions::marks::CellMarks;
use crate::needed_actions::steps::CellNeed;
use cluster_types::{Cluster, LeafId};
use std::alloc::{AllocError, Global};

/// In how many cells the leaf is active.
fn active_count(needs: &[CellNeed], nodes: u32, leaf: LeafId) -> u32
    ensures { result ≡ by_needs.needed_active_count nodes needs.now leaf }
{
    let mut count = 0;
    for node in 0..nodes {
        if !need_of(needs, nodes, leaf, node).state.is_active() {
            continue;
        }
        count += 1;
    }
    count
}

fn is_flagged(need: CellNeed, too_often: bool) -> bool
    ensures { result ≡ (need.can_cycle && too_often) }
{
    need.can_cycle && too_often
}

/// On which nodes the leaf can be cycled, if it is active too often.
#[tactic(auto, using(lemmas::proofs::Grown::value_more))]
fn can_cycle(
    alloc: Global,
    needs: &[CellNeed],
    nodes: u32,
    leaf: LeafId,
    too_often: bool,
) -> Result<Vec<bool>, AllocError>
    ensures { IfOk result (λ flags. flags.items
        ≡ map (λ n. (need_in nodes needs.now leaf n).can_cycle && too_often) (range_with_len 0 nodes)) }
{
    let mut flags = Vec::new(alloc);
    for node in 0..nodes {
        flags.push(is_flagged(need_of(needs, nodes, leaf, node), too_often))?;
    }
    Ok(flags)
}

/// Marks, where nothing is marked yet, the cells that can be cycled of leaves that are active in more cells than they have copies.
pub fn mark_active(
    alloc: Global,
    cluster: &Cluster,
    needs: &[CellNeed],
    marks: &mut CellMarks,
) -> Result<(), AllocError>
    requires leaves { length cluster.now.leaves ≤ 1000000000 }
    requires nodes { marks.old.nodes ≡ length cluster.now.nodes }
    requires size { length marks.old.cells.items ≡ length cluster.now.leaves * length cluster.now.nodes }
    requires none { (r n : ℕ) → marks_in marks.old.nodes marks.old.cells.items r n ≡ false }
    ensures nodes { OnOk result (marks.new.nodes ≡ marks.old.nodes) }
    ensures size { OnOk result (length marks.new.cells.items ≡ length marks.old.cells.items) }
    ensures marks { OnOk result ((es : List EventOf) (targets : Targets) → AreNeeds cluster.now es targets needs.now
        → marks_in marks.new.nodes marks.new.cells.items ≡ cycling.first_marks cluster.now es targets) }
{
    for leaf in 0..cluster.leaves.len() as u32 {
        let too_often = cluster.copies(leaf) < active_count(needs, marks.nodes, leaf);
        let flags = can_cycle(alloc, needs, marks.nodes, leaf, too_often)?;
        marks.mark_where(leaf, flags.as_slice());
    }
    Ok(())
}
