ghost use Rattle.std.specs.Prelude.{◌≡◌, ◌<◌, ◌≤◌, [], drop, length, map, slice_get, IfOk};
ghost use Rattle.edges.specs.Loops.{EndsWithin};
ghost use Rattle.trace_text.specs.Inner.Walk.{befores, source_rows, turned_edge};

use crate::found_positions::walk_back;
use cluster_types::{Edge, Edges, Graph, NoMemory};
use edges::Rows;
use listed::NumberSet;
use std::alloc::{AllocError, Global};
use std::marker::Model;

/// The edges turned round.
fn turned(alloc: Global, edges: &[Edge]) -> Result<Vec<Edge>, AllocError>
    ensures { IfOk result (λ turned. turned.items ≡ map turned_edge edges.now) }
{
    edges
        .iter()
        .map(|edge| Edge {
            before: edge.after,
            after: edge.before,
        })
        .collect(alloc)
}

/// From where the edges lead to each position.
fn source_rows(alloc: Global, edges: &Edges) -> Result<Rows, AllocError>
    requires { EndsWithin edges.now.positions edges.now.list }
    ensures { IfOk result (λ rows. rows ≡ source_rows edges.now) }
{
    let turned = turned(alloc, edges.list.as_slice())?;
    Rows::new(alloc, edges.positions, &turned)
}

/// Tells which actions of a graph come before one of them, directly or through gates alone.
///
/// Contracts see the graph, and the numbers that are still to be told. It takes no memory once it is made. What comes
/// before an action is found by the edges that lead to it and to the gates before it alone, and told in ascending order,
/// each number in a time that grows with the logarithm of the positions.
#[derive(Drop)]
pub struct Predecessors<'g> {
    graph: &'g Graph,
    /// From where the edges lead to each position.
    sources: Rows,
    /// What the last walk has found.
    found: NumberSet,
    /// How many actions it has found.
    count: u32,
    /// How many of them are told.
    told: u32,
}

impl<'g> Model for Predecessors<'g> {
    ghost use Rattle.std.specs.Prelude.{drop, take};
    ghost use Rattle.listed.specs.Sets.{members};
    ghost use Rattle.trace_text.specs.Inner.Walk.{WalkRests, Walk};

    ghost Value = { Walk };

    ghost view = { λ p. record { graph = p.graph.now; left = drop p.told (take p.count (members p.found)) } };

    ghost invariant = { λ p. WalkRests p.graph.now p.sources p.found p.count };
}

impl<'g> Predecessors<'g> {
    /// Nothing is told yet. It goes over all edges. Out of memory is its only other answer.
    pub fn new(alloc: Global, graph: &'g Graph) -> Result<Predecessors<'g>, NoMemory>
        ensures { IfOk result (λ p. p ≡ record { graph = graph.now; left = [] }) }
    {
        let edges = graph.edges();
        let sources = source_rows(alloc, edges)?;
        let found = NumberSet::new(alloc, edges.positions)?;
        Ok(Predecessors {
            graph,
            sources,
            found,
            count: 0,
            told: 0,
        })
    }

    /// From now on the actions are told that come before the action of this number. What was left of another is told no more.
    pub fn walk_to(&mut self, number: u32)
        requires from_one { 0 < number }
        requires to_count { number ≤ length self.old.graph.actions }
        ensures { self.new ≡ record { graph = self.old.graph; left = befores self.old.graph number } }
    {
        self.count = walk_back(&mut self.found, &self.sources, self.graph, number);
        self.told = 0;
    }

    /// The next number, in ascending order, or none where all are told.
    pub fn next(&mut self) -> Option<u32>
        ensures next { result ≡ slice_get self.old.left 0 }
        ensures left { self.new ≡ record { graph = self.old.graph; left = drop 1 self.old.left } }
    {
        if self.told >= self.count {
            return None;
        }
        let number = self.found.nth(self.told);
        self.told += 1;
        Some(number)
    }
}
