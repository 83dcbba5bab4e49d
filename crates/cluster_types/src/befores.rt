//! Which actions come before one.

ghost use Rattle.std.specs.Prelude.{◌≡◌, ◌≤◌, ◌<◌, ◌-◌, ◌||◌, ℕ, IfOk, length, filter};
ghost use Rattle.std.specs.List.{list_any, range_with_len};
ghost use Rattle.cluster_types.specs.Graphs.{LeadUpward, is_before};
ghost use Rattle.edges.specs.Loops.{EndsWithin};
ghost use Rattle.cluster_types.specs.Inner.Walks.{AreMarked, joins};
ghost use Rattle.listed.specs.Flags.{is_marked};

use crate::graph::Graph;
use crate::graph_edges::Edges;
use edges::Edge;
use faults::NoMemory;
use std::alloc::{AllocError, Global};

/// Marks the positions from which an edge leads to this one.
fn mark_sources(edges: &[Edge], position: u32, marks: &mut Vec<bool>)
    requires { EndsWithin (length marks.old.items) edges.now }
    ensures size { length marks.new.items ≡ length marks.old.items }
    ensures marked { (x : ℕ) → is_marked marks.new.items x ≡ (is_marked marks.old.items x || list_any (joins x position) edges.now) }
{
    for edge in edges {
        if edge.after != position {
            continue;
        }
        marks[edge.before as usize] = true;
    }
}

/// Marks the positions from which the edges lead to this one, directly or through gates alone.
fn walked(
    alloc: Global,
    edges: &Edges,
    actions: u32,
    position: u32,
) -> Result<Vec<bool>, AllocError>
    requires actions { actions ≤ edges.now.positions }
    requires within { EndsWithin edges.now.positions edges.now.list }
    requires upward { LeadUpward actions edges.now.list }
    ensures size { IfOk result (λ marks. length marks.items ≡ edges.now.positions) }
    ensures marked { IfOk result (λ marks. AreMarked actions edges.now.list position actions marks.items) }
{
    let list = edges.list.as_slice();
    let mut marks: Vec<bool> = vec![in alloc; false; edges.positions as usize]?;
    mark_sources(list, position, &mut marks);
    let mut lowest = edges.positions;
    while lowest > actions {
        lowest -= 1;
        if !marks[lowest as usize] {
            continue;
        }
        mark_sources(list, lowest, &mut marks);
    }
    Ok(marks)
}

/// The numbers of the actions that have a mark.
fn numbers_marked(alloc: Global, marks: &[bool], actions: u32) -> Result<Vec<u32>, AllocError>
    requires { actions ≤ length marks.now }
    ensures { IfOk result (λ numbers. numbers.items ≡ filter (λ k. is_marked marks.now (k - 1)) (range_with_len 1 actions)) }
{
    let mut numbers = Vec::new(alloc);
    for place in 0..actions {
        if !marks[place as usize] {
            continue;
        }
        numbers.push(place + 1)?;
    }
    Ok(numbers)
}

impl Graph {
    /// The numbers of the actions that come before the action of this number, ascending. It goes once over all edges, and once more for each gate
    /// that leads to the action.
    pub fn befores(&self, alloc: Global, number: u32) -> Result<Vec<u32>, NoMemory>
        requires from_one { 0 < number }
        requires to_count { number ≤ length self.now.actions }
        ensures { IfOk result (λ numbers. numbers.items ≡ filter (λ k. is_before self.now k number) (range_with_len 1 (length self.now.actions))) }
    {
        let actions = self.count();
        let marks = walked(alloc, self.edges(), actions, number - 1)?;
        Ok(numbers_marked(alloc, marks.as_slice(), actions)?)
    }
}
