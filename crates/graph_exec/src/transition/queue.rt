ghost use Rattle.std.specs.Prelude.{◌≡◌, ◌<◌, ◌≤◌, ◌+◌, ◌-◌, ◌==◌, ◌++◌, ◌∷◌, [], ℕ, true, false, IfOk, length, filter, replicate, slice_index_or, slice_set, vec_len, vec_capacity};
ghost use Rattle.std.specs.List.{range_with_len};
ghost use Rattle.cluster_types.specs.Graphs.{IsGraph};
ghost use Rattle.graph_exec.specs.Inner.ClearedPositions.{ClearsGates, gates_cleared_then, ready_then};
ghost use Rattle.edges.specs.Rows.{edge_targets, less_one};

use cluster_types::Graph;
use edges::{Rows, Side, count_ends, count_off};
use listed::{NumberSet, none_set};
use std::alloc::{AllocError, Global};

/// Which positions of a graph are cleared, and which actions may begin.
#[derive(Drop)]
pub struct Queue {
    /// Of each position, how many edges to it come from positions of which the edges weren't counted off.
    pub left: Vec<usize>,
    /// The cleared positions, in the order in which they were cleared. There is room for all.
    pub cleared: Vec<u32>,
    /// Which actions have begun.
    pub begun: Vec<bool>,
    /// Which actions have succeeded.
    pub succeeded: Vec<bool>,
    /// Which actions may begin.
    pub ready: NumberSet,
}

/// The gates to which no edge leads, in a list with room for all positions.
fn free_gates(
    alloc: Global,
    positions: u32,
    actions: u32,
    counts: &[usize],
) -> Result<Vec<u32>, AllocError>
    requires size { length counts.now ≡ positions }
    requires actions { actions ≤ positions }
    ensures gates { IfOk result (λ gates. gates.items ≡ filter (λ x. slice_index_or counts.now x 0 == 0) (range_with_len actions (positions - actions))) }
    ensures room { IfOk result (λ gates. positions ≤ vec_capacity gates) }
{
    let mut gates = Vec::with_capacity(alloc, positions as usize)?;
    for position in actions..positions {
        if counts[position as usize] > 0 {
            continue;
        }
        gates.push_reserved(position);
    }
    Ok(gates)
}

/// The actions to which no edge leads.
fn free_actions(alloc: Global, actions: u32, counts: &[usize]) -> Result<NumberSet, AllocError>
    requires { actions ≤ length counts.now }
    ensures size { IfOk result (λ free. length free ≡ actions) }
    ensures free { IfOk result (λ free. (x : ℕ) → x < actions → slice_index_or free x false ≡ (slice_index_or counts.now x 0 == 0)) }
{
    let mut free = NumberSet::new(alloc, actions)?;
    for position in 0..actions {
        if counts[position as usize] > 0 {
            continue;
        }
        free.insert(position + 1);
    }
    Ok(free)
}

impl Queue {
    /// Nothing has begun, and nothing is counted off.
    pub fn new(alloc: Global, graph: &Graph) -> Result<Queue, AllocError>
        ensures clears { IfOk result (λ q. ClearsGates graph.now q.begun.items q.succeeded.items q.ready 0 [] q.left.items q.cleared.items) }
        ensures begun { IfOk result (λ q. q.begun.items ≡ replicate (length graph.now.actions) false) }
        ensures succeeded { IfOk result (λ q. q.succeeded.items ≡ replicate (length graph.now.actions) false) }
        ensures room { IfOk result (λ q. graph.now.edges.positions ≤ vec_capacity q.cleared) }
    {
        let edges = graph.edges();
        let actions = graph.count();
        let left = count_ends(alloc, edges.positions, edges.list.as_slice(), Side::After)?;
        let cleared = free_gates(alloc, edges.positions, actions, &left)?;
        let ready = free_actions(alloc, actions, &left)?;
        let begun = none_set(alloc, actions)?;
        let succeeded = none_set(alloc, actions)?;
        Ok(Queue {
            left,
            cleared,
            begun,
            succeeded,
            ready,
        })
    }

    /// The action begins, and doesn't wait to begin any more.
    pub fn begin(&mut self, number: u32)
        requires from_one { 0 < number }
        requires to_count { number ≤ length self.old.begun.items }
        requires size { length self.old.ready ≡ length self.old.begun.items }
        ensures begun { self.new.begun.items ≡ slice_set self.old.begun.items (number - 1) true }
        ensures ready { self.new.ready ≡ slice_set self.old.ready (number - 1) false }
        ensures left { self.new.left ≡ self.old.left }
        ensures cleared { self.new.cleared ≡ self.old.cleared }
        ensures succeeded { self.new.succeeded ≡ self.old.succeeded }
    {
        self.begun[number as usize - 1] = true;
        self.ready.remove(number);
    }

    /// The action succeeds, and is cleared. The edges from it are still to be counted off.
    pub fn succeed(&mut self, number: u32)
        requires from_one { 0 < number }
        requires to_count { number ≤ length self.old.succeeded.items }
        requires room { vec_len self.old.cleared < vec_capacity self.old.cleared }
        ensures succeeded { self.new.succeeded.items ≡ slice_set self.old.succeeded.items (number - 1) true }
        ensures cleared { self.new.cleared.items ≡ self.old.cleared.items ++ (number - 1) ∷ [] }
        ensures left { self.new.left ≡ self.old.left }
        ensures ready { self.new.ready ≡ self.old.ready }
        ensures begun { self.new.begun ≡ self.old.begun }
        ensures room { vec_capacity self.new.cleared ≡ vec_capacity self.old.cleared }
    {
        self.succeeded[number as usize - 1] = true;
        self.cleared.push_reserved(number - 1);
    }

    /// Counts off an edge to the position. With no edge left, a gate is cleared, and an action may begin.
    fn count_off(&mut self, actions: u32, target: u32)
        requires some { 0 < slice_index_or self.old.left.items target 0 }
        requires room { vec_len self.old.cleared < vec_capacity self.old.cleared }
        requires size { length self.old.ready ≡ actions }
        ensures left { self.new.left.items ≡ less_one self.old.left.items target }
        ensures cleared { self.new.cleared.items ≡ gates_cleared_then actions self.old.left.items self.old.cleared.items target }
        ensures ready { self.new.ready ≡ ready_then actions self.old.left.items self.old.ready target }
        ensures begun { self.new.begun ≡ self.old.begun }
        ensures succeeded { self.new.succeeded ≡ self.old.succeeded }
        ensures room { vec_capacity self.new.cleared ≡ vec_capacity self.old.cleared }
    {
        if !count_off(&mut self.left, target) {
            return;
        }
        if target < actions {
            self.ready.insert(target + 1);
        } else {
            self.cleared.push_reserved(target);
        }
    }

    /// Counts off the edges from the cleared position at this place.
    fn take(&mut self, graph: &Graph, rows: &Rows, taken: usize)
        requires is_one { taken < length self.old.cleared.items }
        requires graph { IsGraph graph.now }
        requires rows { rows.now ≡ edge_targets graph.now.edges.positions graph.now.edges.list }
        requires room { graph.now.edges.positions ≤ vec_capacity self.old.cleared }
        requires clears { ClearsGates graph.now self.old.begun.items self.old.succeeded.items self.old.ready taken [] self.old.left.items self.old.cleared.items }
        ensures clears { ClearsGates graph.now self.new.begun.items self.new.succeeded.items self.new.ready (taken + 1) [] self.new.left.items self.new.cleared.items }
        ensures begun { self.new.begun ≡ self.old.begun }
        ensures succeeded { self.new.succeeded ≡ self.old.succeeded }
        ensures room { vec_capacity self.new.cleared ≡ vec_capacity self.old.cleared }
    {
        let actions = graph.count();
        let position = self.cleared[taken];
        for target in rows.row(position) {
            self.count_off(actions, *target);
        }
    }

    /// Counts off the edges from all cleared positions from this place on, and from those that are cleared by it.
    pub fn drain(&mut self, graph: &Graph, rows: &Rows, from: usize)
        requires graph { IsGraph graph.now }
        requires rows { rows.now ≡ edge_targets graph.now.edges.positions graph.now.edges.list }
        requires room { graph.now.edges.positions ≤ vec_capacity self.old.cleared }
        requires clears { ClearsGates graph.now self.old.begun.items self.old.succeeded.items self.old.ready from [] self.old.left.items self.old.cleared.items }
        ensures clears { ClearsGates graph.now self.new.begun.items self.new.succeeded.items self.new.ready (length self.new.cleared.items) [] self.new.left.items self.new.cleared.items }
        ensures begun { self.new.begun ≡ self.old.begun }
        ensures succeeded { self.new.succeeded ≡ self.old.succeeded }
        ensures room { vec_capacity self.new.cleared ≡ vec_capacity self.old.cleared }
    {
        let mut taken = from;
        while taken < self.cleared.len() {
            self.take(graph, rows, taken);
            taken += 1;
        }
    }
}
