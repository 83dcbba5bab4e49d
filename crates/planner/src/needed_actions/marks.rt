//! Marks of cells.

ghost use Rattle.std.specs.Prelude.{◌≡◌, ◌≤◌, ◌<◌, ◌+◌, ◌*◌, ◌==◌, ◌&&◌, ◌||◌, ℕ, false, IfOk, length, slice_index_or};
ghost use Rattle.planner.specs.Inner.Levels.{marks_in};

use cluster_types::{LeafId, NodeId, cell_place};
use std::alloc::{AllocError, Global};

/// Which cells are marked, leaf by leaf and node by node.
#[derive(Drop)]
pub struct CellMarks {
    pub nodes: u32,
    pub cells: Vec<bool>,
}

impl CellMarks {
    /// No cell of so many leaves and nodes is marked.
    pub fn none(alloc: Global, leaves: u32, nodes: u32) -> Result<CellMarks, AllocError>
        ensures nodes { IfOk result (λ marks. marks.nodes ≡ nodes) }
        ensures size { IfOk result (λ marks. length marks.cells.items ≡ leaves * nodes) }
        ensures none { IfOk result (λ marks. (r n : ℕ) → marks_in marks.nodes marks.cells.items r n ≡ false) }
    {
        let cells = vec![in alloc; false; leaves as usize * nodes as usize]?;
        Ok(CellMarks { nodes, cells })
    }

    /// Whether the cell is marked.
    pub fn is_marked(&self, leaf: LeafId, node: NodeId) -> bool
        ensures { result ≡ marks_in self.now.nodes self.now.cells.items leaf node }
    {
        if node >= self.nodes {
            return false;
        }
        match self.cells.get(cell_place(self.nodes as usize, leaf, node)) {
            Some(mark) => *mark,
            None => false,
        }
    }

    /// Marks the cell.
    pub fn mark(&mut self, leaf: LeafId, node: NodeId)
        requires on_node { node < self.old.nodes }
        requires within { leaf * self.old.nodes + node < length self.old.cells.items }
        ensures nodes { self.new.nodes ≡ self.old.nodes }
        ensures size { length self.new.cells.items ≡ length self.old.cells.items }
        ensures marks { (r n : ℕ) → marks_in self.new.nodes self.new.cells.items r n
            ≡ (marks_in self.old.nodes self.old.cells.items r n || r == leaf && n == node) }
    {
        let place = cell_place(self.nodes as usize, leaf, node);
        self.cells[place] = true;
    }

    /// Marks the cells of the leaf on the nodes that have a flag.
    pub fn mark_where(&mut self, leaf: LeafId, flags: &[bool])
        requires flags { length flags.now ≡ self.old.nodes }
        requires within { leaf * self.old.nodes + self.old.nodes ≤ length self.old.cells.items }
        ensures nodes { self.new.nodes ≡ self.old.nodes }
        ensures size { length self.new.cells.items ≡ length self.old.cells.items }
        ensures marks { (r n : ℕ) → marks_in self.new.nodes self.new.cells.items r n
            ≡ (marks_in self.old.nodes self.old.cells.items r n || r == leaf && slice_index_or flags.now n false) }
    {
        for node in 0..self.nodes {
            if flags[node as usize] {
                self.mark(leaf, node);
            }
        }
    }
}
