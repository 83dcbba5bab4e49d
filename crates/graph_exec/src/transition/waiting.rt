ghost use Rattle.std.specs.Prelude.{◌≡◌, ◌<◌, ◌≤◌, ◌-◌, true, false, Option, Some, None, IfOk, IfErr, length, slice_get, slice_set, replicate};
ghost use Rattle.listed.specs.Sets.{is_member};
ghost use Rattle.graph_exec.specs.ReadyActions.{Progress, none_begun, startable};

use crate::transition::queue::Queue;
use cluster_types::Graph;
use edges::Rows;
use std::alloc::{AllocError, Global};
use std::marker::Model;

/// The actions of a graph, some of which have begun, and some of those succeeded.
///
/// It takes no memory once it is made. A success costs the edges that it clears, and no edge is cleared twice.
#[derive(Drop)]
pub struct Waiting {
    graph: Graph,
    rows: Rows,
    queue: Queue,
}

impl Model for Waiting {
    ghost use Rattle.std.specs.Prelude.{vec_capacity};
    ghost use Rattle.graph_exec.specs.Inner.ClearedPositions.{ClearingRests};
    ghost use Rattle.graph_exec.specs.ReadyActions.{Progress};

    ghost Value = { Progress };

    ghost view = { λ w. record { graph = w.graph; begun = w.queue.begun.items; succeeded = w.queue.succeeded.items } };

    ghost invariant = { λ w. ClearingRests w.graph w.rows w.queue.begun.items w.queue.succeeded.items w.queue.ready w.queue.left.items
        w.queue.cleared.items (vec_capacity w.queue.cleared) };
}

impl Waiting {
    /// Nothing has begun. It takes the memory of all that is to come; where that isn't there, the graph is handed back.
    pub fn new(alloc: Global, graph: Graph) -> Result<Waiting, Graph>
        ensures ok { IfOk result (λ w. w ≡ none_begun graph) }
        ensures err { IfErr result (λ g. g ≡ graph) }
    {
        let edges = graph.edges();
        let Ok(rows) = Rows::new(alloc, edges.positions, edges.list.as_slice()) else {
            return Err(graph);
        };
        let Ok(mut queue) = Queue::new(alloc, &graph) else {
            return Err(graph);
        };
        queue.drain(&graph, &rows, 0);
        Ok(Waiting { graph, rows, queue })
    }

    /// Lends the graph.
    pub fn graph(&self) -> &Graph
        ensures { result.now ≡ self.now.graph }
    {
        &self.graph
    }

    /// The lowest number of an action that hasn't begun and before which each has succeeded, or none where there is no
    /// such action.
    pub fn next(&self) -> Option<u32>
        ensures { result ≡ slice_get (startable self.now) 0 }
    {
        self.queue.ready.first()
    }

    /// The action begins. It is the one that `next` gives.
    pub fn begin(&mut self, number: u32)
        requires { slice_get (startable self.old) 0 ≡ Some number }
        ensures { self.new ≡ record { graph = self.old.graph; begun = slice_set self.old.begun (number - 1) true; succeeded = self.old.succeeded } }
    {
        self.queue.begin(number);
    }

    /// The action succeeds, which it hasn't before. It has begun.
    pub fn succeed(&mut self, number: u32)
        requires from_one { 0 < number }
        requires to_count { number ≤ length self.old.graph.actions }
        requires begun { is_member self.old.begun number ≡ true }
        requires not_yet { is_member self.old.succeeded number ≡ false }
        ensures { self.new ≡ record { graph = self.old.graph; begun = self.old.begun; succeeded = slice_set self.old.succeeded (number - 1) true } }
    {
        let from = self.queue.cleared.len();
        self.queue.succeed(number);
        self.queue.drain(&self.graph, &self.rows, from);
    }

    /// The graph. It takes no memory.
    pub fn into_graph(self) -> Graph
        ensures { result ≡ self.graph }
    {
        self.graph
    }
}
