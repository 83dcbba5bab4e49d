//! What is kept of a transition that is carried out.

ghost use Rattle.std.specs.Prelude.{◌≡◌, ◌<◌, ◌≤◌, ◌+◌, ◌++◌, true, false, IfOk, IfErr, IfSome, IfNone, find};
ghost use Rattle.cluster_types.specs.Steps.{aborts, in_flight_by_number, has_begun, has_room};
ghost use Rattle.graph_exec.specs.Flights.{pairs_in_flight};
ghost use Rattle.graph_exec.specs.Executors.{BeginsNow, StaysSettled, fresh_on, transition_in};

use crate::transition::flight::InFlight;
use crate::transition::known_journal::KnownJournal;
use crate::transition::log::Log;
use cluster_types::{Event, Graph};
use std::alloc::Global;
use std::marker::Model;

/// A transition under way: its graph, the journal when it was made, and the events since, whatever these are. A wait while
/// nothing is to be done is kept as one without actions.
///
/// All memory is taken when it is made.
#[derive(Drop)]
pub(crate) struct Course<'c> {
    pub(crate) log: Log<'c>,
    pub(crate) flight: InFlight,
}

impl<'c> Model for Course<'c> {
    ghost use Rattle.graph_exec.specs.Executors.{ExecutorOf};
    ghost use Rattle.graph_exec.specs.Inner.ExecutorFields.{InFlightFollows, running};

    ghost Value = { ExecutorOf };

    ghost view = { λ e. running e.log e.flight };

    ghost invariant = { λ e. InFlightFollows e.log e.flight };
}

/// Memory ran out before anything began. The journal, with what it tells, and the graph are handed back as they were.
#[derive(Drop)]
pub struct NotBegun<'c> {
    pub journal: KnownJournal<'c>,
    pub graph: Graph,
}

/// What a transition leaves: the journal, with what it tells, and the graph, so that it can be carried out again.
#[derive(Drop)]
pub struct Parts<'c> {
    pub journal: KnownJournal<'c>,
    pub graph: Graph,
}

impl<'c> Course<'c> {
    /// Nothing has begun. Out of memory, what was handed in is handed back as it was.
    pub fn new(
        alloc: Global,
        journal: KnownJournal<'c>,
        graph: Graph,
    ) -> Result<Course<'c>, NotBegun<'c>>
        ensures ok { IfOk result (λ e. e ≡ fresh_on journal.entry graph) }
        ensures journal { IfErr result (λ back. back.journal ≡ journal.entry) }
        ensures graph { IfErr result (λ back. back.graph ≡ graph) }
    {
        // An action begins and ends once, and at most 256 answers from outside are taken.
        let more = 2 * graph.count() as usize + 256;
        let log = match Log::new(journal, more) {
            Ok(log) => log,
            Err(journal) => return Err(NotBegun { journal, graph }),
        };
        match InFlight::new(alloc, graph) {
            Ok(flight) => Ok(Course { log, flight }),
            Err(graph) => {
                let journal = log.into_known();
                Err(NotBegun { journal, graph })
            }
        }
    }

    /// Lends the actions in flight.
    pub fn flight(&self) -> &InFlight
        ensures pairs { pairs_in_flight result.now ≡ in_flight_by_number (transition_in self.now) self.now.since }
        ensures graph { result.now.progress.graph ≡ self.now.graph }
        ensures from_one { has_begun (transition_in self.now) self.now.since 0 ≡ false }
    {
        &self.flight
    }

    /// The first event that aborts the transition.
    pub fn abort(&self) -> Option<Event>
        ensures { result ≡ find (aborts self.now.cluster) self.now.since }
    {
        self.log.abort()
    }

    /// Whether fewer actions are in flight than the batch limit.
    fn has_room(&self) -> bool
        ensures { result ≡ has_room (transition_in self.now) self.now.since }
    {
        let limit = self.log.cluster().properties.batch_limit;
        limit == 0 || self.flight.count() < limit
    }

    /// Of the actions that may begin, the one of lowest number begins, and its number is given.
    pub fn begin_next(&mut self) -> Option<u32>
        ensures begins { IfSome result (λ k. BeginsNow self.old self.new k) }
        ensures settled { IfNone result (StaysSettled self.old self.new) }
    {
        if self.log.abort().is_some() {
            return None;
        }
        if !self.has_room() {
            return None;
        }
        let number = match self.flight.next() {
            Some(number) => number,
            None => return None,
        };
        let action = self.flight.graph().action(number);
        self.flight.begin(number);
        self.log.add(Event::Begin { number, action });
        Some(number)
    }

    /// The whole journal: that of the plan, and the events since; and what it tells.
    pub fn into_known(self) -> KnownJournal<'c>
        ensures { result ≡ record { cluster = self.entry.cluster; events = self.entry.planned_at ++ self.entry.since; promotions = self.entry.promotions } }
    {
        self.log.into_known()
    }

    /// The same, with the graph.
    pub fn into_parts(self) -> Parts<'c>
        ensures journal { result.journal ≡ record { cluster = self.entry.cluster; events = self.entry.planned_at ++ self.entry.since; promotions = self.entry.promotions } }
        ensures graph { result.graph ≡ self.entry.graph }
    {
        Parts {
            journal: self.log.into_known(),
            graph: self.flight.into_graph(),
        }
    }
}
