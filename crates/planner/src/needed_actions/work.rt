//! What each cell needs, with the cells that are cycled.

ghost use Rattle.std.specs.Prelude.{◌≡◌};
ghost use Rattle.planner.specs.Inner.Actions.{includes_op, is_filled, steps_in};
ghost use Rattle.planner.specs.Inner.Works.{marks_of, needs_of};

use crate::needed_actions::marking::need_of;
use crate::needed_actions::marks::CellMarks;
use crate::needed_actions::steps::CellNeed;
use cluster_types::{LeafId, NodeId, Op};

/// What each cell needs, with the cells that are cycled.
#[derive(Drop)]
pub struct CellWork {
    pub needs: Vec<CellNeed>,
    pub marks: CellMarks,
}

impl CellWork {
    /// What the cell needs.
    pub fn need(&self, leaf: LeafId, node: NodeId) -> CellNeed
        ensures { result ≡ needs_of self.now leaf node }
    {
        need_of(self.needs.as_slice(), self.marks.nodes, leaf, node)
    }

    /// Its steps.
    pub fn steps(&self, leaf: LeafId, node: NodeId) -> &'static [Op]
        ensures { result.now ≡ steps_in (needs_of self.now) (marks_of self.now) leaf node }
    {
        self.need(leaf, node)
            .steps(self.marks.is_marked(leaf, node))
    }

    /// Whether it has any.
    pub fn has_steps(&self, leaf: LeafId, node: NodeId) -> bool
        ensures { result ≡ is_filled (steps_in (needs_of self.now) (marks_of self.now) leaf node) }
    {
        !self.steps(leaf, node).is_empty()
    }

    /// Whether it has this one.
    pub fn has_step(&self, what: Op, leaf: LeafId, node: NodeId) -> bool
        ensures { result ≡ includes_op what (steps_in (needs_of self.now) (marks_of self.now) leaf node) }
    {
        self.steps(leaf, node).iter().any(|step| *step == what)
    }
}
