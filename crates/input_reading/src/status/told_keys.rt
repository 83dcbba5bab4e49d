//! What the lines of a status told that may be told once.

ghost use Rattle.std.specs.Prelude.{◌≡◌, false, OnOk};
ghost use Rattle.input_reading.specs.declared.status.line_meaning.Fact.{Fact as FactOf};
ghost use Rattle.input_reading.specs.Inner.Repeats.{has_told, AddsKey};

use crate::status::line_meaning::Fact;
use cluster_types::{LeafId, NodeId};
use faults::NoMemory;
use std::alloc::Global;
use std::collections::HashSet;

/// Whether the moment and quorum were told, the nodes whose state was, and the cells whose promotion score was.
#[derive(Drop)]
pub(crate) struct ToldKeys {
    moment: bool,
    quorum: bool,
    nodes: HashSet<NodeId>,
    /// The leaf of each cell, and its node.
    cells: HashSet<(LeafId, NodeId)>,
}

impl ToldKeys {
    /// Nothing was told.
    pub fn new(alloc: Global) -> Self
        ensures { (line : FactOf) → has_told result line ≡ false }
    {
        ToldKeys {
            moment: false,
            quorum: false,
            nodes: HashSet::new(alloc),
            cells: HashSet::new(alloc),
        }
    }

    /// Whether the line tells again what was told and may be told once.
    pub fn has(&self, line: Fact) -> bool
        ensures { result ≡ has_told self.now line }
    {
        match line {
            Fact::Now(_) => self.moment,
            Fact::Quorum(_) => self.quorum,
            Fact::Node { node, .. } => self.nodes.contains(&node),
            Fact::Past(_) => false,
            Fact::Promoting(promotion) => self.cells.contains(&(promotion.leaf, promotion.node)),
        }
    }

    /// Adds what a line tells.
    pub fn add(&mut self, line: &Fact) -> Result<(), NoMemory>
        ensures { OnOk result (AddsKey self.old self.new line.now) }
    {
        match *line {
            Fact::Now(_) => self.moment = true,
            Fact::Quorum(_) => self.quorum = true,
            Fact::Node { node, .. } => {
                self.nodes.insert(node)?;
            }
            Fact::Past(_) => {}
            Fact::Promoting(promotion) => {
                let cell = (promotion.leaf, promotion.node);
                self.cells.insert(cell)?;
            }
        }
        Ok(())
    }
}
