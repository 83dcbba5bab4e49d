//! The actions of a transition, and which of them are in flight.

ghost use Rattle.std.specs.Prelude.{◌≡◌, ◌<◌, ◌≤◌, ◌-◌, true, false, Some, IfOk, IfErr, length, slice_get, replicate};
ghost use Rattle.std.specs.List.{list_any};
ghost use Rattle.cluster_types.specs.AnswersThatApply.{is_number_of};
ghost use Rattle.listed.specs.Sets.{is_member};
ghost use Rattle.graph_exec.specs.ReadyActions.{none_begun, startable};
ghost use Rattle.graph_exec.specs.Flights.{pairs_in_flight};
ghost use Rattle.graph_exec.specs.Inner.Flights.{is_about, is_busy, with_begun, with_ended};

use crate::transition::waiting::Waiting;
use cluster_types::{Action, Graph, LeafId, NodeId};
use listed::NumberSet;
use std::alloc::Global;
use std::marker::Model;

/// The actions of a transition that are in flight, in the order of their numbers. It takes no memory to read them.
#[derive(Drop)]
pub struct InFlight {
    waiting: Waiting,
    in_flight: NumberSet,
}

impl Model for InFlight {
    ghost use Rattle.graph_exec.specs.Flights.{InFlightOf};
    ghost use Rattle.graph_exec.specs.Inner.Flights.{HasFlagOfEach};

    ghost Value = { InFlightOf };

    ghost view = { λ f. record { progress = f.waiting; in_flight = f.in_flight } };

    ghost invariant = { λ f. HasFlagOfEach (record { progress = f.waiting; in_flight = f.in_flight }) };
}

/// Whether the action is of the cell, or a migration to it.
fn is_about(action: Action, leaf: LeafId, node: NodeId) -> bool
    ensures { result ≡ is_about leaf node action }
{
    action.is_of_cell(leaf, node) || action.is_sent_to(leaf, node)
}

impl InFlight {
    /// Nothing has begun. Where the memory isn't there, the graph is handed back.
    pub(crate) fn new(alloc: Global, graph: Graph) -> Result<InFlight, Graph>
        ensures ok { IfOk result (λ f. f ≡ record { progress = none_begun graph; in_flight = replicate (length graph.actions) false }) }
        ensures err { IfErr result (λ g. g ≡ graph) }
    {
        let Ok(in_flight) = NumberSet::new(alloc, graph.count()) else {
            return Err(graph);
        };
        let waiting = Waiting::new(alloc, graph)?;
        Ok(InFlight { waiting, in_flight })
    }

    /// How many actions are in flight.
    pub fn count(&self) -> u32
        ensures { result ≡ length (pairs_in_flight self.now) }
    {
        self.in_flight.count()
    }

    /// The action in flight at this place in the order of their numbers, from 0, with its number.
    pub fn at(&self, place: u32) -> (u32, Action)
        requires { place < length (pairs_in_flight self.now) }
        ensures { slice_get (pairs_in_flight self.now) place ≡ Some result }
    {
        let number = self.in_flight.nth(place);
        (number, self.waiting.graph().action(number))
    }

    /// Whether the action of this number is in flight.
    pub fn contains(&self, number: u32) -> bool
        ensures { result ≡ list_any (is_number_of number) (pairs_in_flight self.now) }
    {
        if number > self.in_flight.most() {
            return false;
        }
        if number == 0 {
            return false;
        }
        self.in_flight.contains(number)
    }

    /// Whether something of the cell is in flight, or a migration to it.
    pub(crate) fn is_busy(&self, leaf: LeafId, node: NodeId) -> bool
        ensures { result ≡ is_busy (pairs_in_flight self.now) leaf node }
    {
        for place in 0..self.count() {
            let (_, action) = self.at(place);
            if is_about(action, leaf, node) {
                return true;
            }
        }
        false
    }

    /// The graph of the transition.
    pub(crate) fn graph(&self) -> &Graph
        ensures { result.now ≡ self.now.progress.graph }
    {
        self.waiting.graph()
    }

    /// The lowest number of an action that hasn't begun and before which each has succeeded.
    pub(crate) fn next(&self) -> Option<u32>
        ensures { result ≡ slice_get (startable self.now.progress) 0 }
    {
        self.waiting.next()
    }

    /// The action that `next` gives begins.
    pub(crate) fn begin(&mut self, number: u32)
        requires next { slice_get (startable self.old.progress) 0 ≡ Some number }
        requires from_one { 0 < number }
        requires to_count { number ≤ length self.old.progress.graph.actions }
        ensures { self.new ≡ with_begun self.old number }
    {
        self.waiting.begin(number);
        self.in_flight.insert(number);
    }

    /// The action ends, with success or without. It has begun and hasn't succeeded.
    pub(crate) fn end(&mut self, number: u32, success: bool)
        requires from_one { 0 < number }
        requires to_count { number ≤ length self.old.progress.graph.actions }
        requires begun { is_member self.old.progress.begun number ≡ true }
        requires not_yet { is_member self.old.progress.succeeded number ≡ false }
        ensures { self.new ≡ with_ended self.old number success }
    {
        self.in_flight.remove(number);
        if success {
            self.waiting.succeed(number);
        }
    }

    /// The graph of the transition. It takes no memory.
    pub(crate) fn into_graph(self) -> Graph
        ensures { result ≡ self.progress.graph }
    {
        self.waiting.into_graph()
    }
}
