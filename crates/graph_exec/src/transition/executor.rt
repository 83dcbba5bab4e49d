//! A transition that is carried out.

ghost use Rattle.std.specs.Prelude.{◌≡◌, ◌<◌, ◌+◌, ◌^◌, ◌++◌, [], true, IfOk, IfErr, OnOk, OnErr, IfSome, IfNone, find};
ghost use Rattle.cluster_types.specs.Journals.{moment_of};
ghost use Rattle.cluster_types.specs.Steps.{HasEnded, IsWaiting, aborts, in_flight_by_number};
ghost use Rattle.cluster_types.specs.Valid.{KeepsLimits};
ghost use Rattle.state_unpack.specs.Knowledge.{has_few_monitors};
ghost use Rattle.graph_exec.specs.Flights.{pairs_in_flight};
ghost use Rattle.graph_exec.specs.Promises.{KeepsPromises};
ghost use Rattle.graph_exec.specs.Executors.{BeginsNow, IsAnswerRefused, StaysSettled, IsUnderWay, Took, fresh_on, transition_in};
ghost use Rattle.graph_exec.specs.Inner.ExecutorFields.{EndedSilently};
ghost use Rattle.graph_exec.specs.Transitions.{EndsAs, EndedByItself};

use crate::transition::course::{Course, NotBegun, Parts};
use crate::transition::ends::WatchedEnd;
use crate::transition::flight::InFlight;
use crate::transition::known_journal::KnownJournal;
use crate::transition::taking::Unexpected;
use cluster_types::{Answer, Cluster, Event, Graph, Journal};
use std::alloc::Global;
use std::marker::Model;

/// Out of memory. What was handed in is handed back as it was.
#[derive(Drop)]
pub struct NotMade {
    pub journal: Journal,
    pub graph: Graph,
}

/// A transition that goes on: its graph, the journal when it was planned, and the events since, which are steps of the
/// transition.
///
/// All memory is taken when it is made: that of two events of each action, and of 256 answers from outside.
#[derive(Drop)]
pub struct Executor<'c> {
    pub(crate) course: Course<'c>,
}

impl<'c> Model for Executor<'c> {
    ghost use Rattle.graph_exec.specs.Executors.{ExecutorOf, IsUnderWay};

    ghost Value = { ExecutorOf };

    ghost view = { λ e. e.course };

    ghost invariant = { λ e. IsUnderWay e.course };
}

impl<'c> Executor<'c> {
    /// Nothing has begun. It asks for a cluster within the limits, of which each leaf has at most eight recurring
    /// monitors, as each valid cluster is, and for a moment in seconds that fits 64 bits.
    pub fn new(
        alloc: Global,
        cluster: &'c Cluster,
        journal: Journal,
        graph: Graph,
    ) -> Result<Executor<'c>, NotMade>
        requires limits { KeepsLimits cluster.now }
        requires monitors { has_few_monitors cluster.now ≡ true }
        requires moment { moment_of journal.events < 2 ^ 64 }
        ensures ok { IfOk result (λ e. e ≡ record { cluster = cluster.now; graph = graph; planned_at = journal.events; since = []; promotions = journal.promotions }) }
        ensures journal { IfErr result (λ back. back.journal ≡ journal) }
        ensures graph { IfErr result (λ back. back.graph ≡ graph) }
    {
        let journal = match KnownJournal::new(alloc, cluster, journal) {
            Ok(journal) => journal,
            Err(journal) => return Err(NotMade { journal, graph }),
        };
        match Executor::on(alloc, journal, graph) {
            Ok(executor) => Ok(executor),
            Err(back) => Err(NotMade {
                journal: back.journal.into_journal(),
                graph: back.graph,
            }),
        }
    }

    /// The same on a journal of which is known what it tells, so that it isn't read anew. Out of memory, what was handed in is
    /// handed back as it was.
    pub fn on(
        alloc: Global,
        journal: KnownJournal<'c>,
        graph: Graph,
    ) -> Result<Executor<'c>, NotBegun<'c>>
        ensures ok { IfOk result (λ e. e ≡ fresh_on journal.entry graph) }
        ensures journal { IfErr result (λ back. back.journal ≡ journal.entry) }
        ensures graph { IfErr result (λ back. back.graph ≡ graph) }
    {
        let _edges = graph.edges();
        let course = Course::new(alloc, journal, graph)?;
        Ok(Executor { course })
    }

    /// Lends the actions in flight. Whatever was answered so far, the promises of a transition are kept.
    pub fn flight(&self) -> &InFlight
        ensures pairs { pairs_in_flight result.now ≡ in_flight_by_number (transition_in self.now) self.now.since }
        ensures promises { KeepsPromises self.now }
    {
        self.course.flight()
    }

    /// The first event that aborts the transition.
    pub fn abort(&self) -> Option<Event>
        ensures { result ≡ find (aborts self.now.cluster) self.now.since }
    {
        self.course.abort()
    }

    /// Of the actions that may begin, the one of lowest number begins, and its number is given. Where none may, nothing
    /// changes.
    pub fn begin_next(&mut self) -> Option<u32>
        ensures begins { IfSome result (λ k. BeginsNow self.old self.new k) }
        ensures settled { IfNone result (StaysSettled self.old self.new) }
        ensures under_way { IsUnderWay self.new }
    {
        self.course.begin_next()
    }

    /// Takes an answer, where none may begin and something is in flight. One that doesn't apply is handed back, and nothing
    /// changes.
    pub fn take(&mut self, answer: Answer) -> Result<(), Unexpected>
        requires { IsWaiting (transition_in self.old) self.old.since }
        ensures ok { OnOk result (Took self.old self.new answer) }
        ensures err { OnErr result (IsAnswerRefused self.old self.new answer) }
        ensures answer { IfErr result (λ refused. refused.answer ≡ answer) }
        ensures under_way { IsUnderWay self.new }
    {
        self.course.take(answer)
    }

    /// Nothing more is said, where none may begin and something is in flight: the first action in flight ends with its
    /// silent code. The answer that would say so is given.
    pub(crate) fn end_silently(&mut self) -> Answer
        requires { IsWaiting (transition_in self.old) self.old.since }
        ensures ended { EndedSilently self.old self.new result }
        ensures under_way { IsUnderWay self.new }
    {
        self.course.end_silently()
    }

    /// How the transition has ended, where none may begin and nothing is in flight.
    pub(crate) fn end(&self) -> WatchedEnd
        requires { HasEnded (transition_in self.now) self.now.since }
        ensures ends { EndsAs self.now result }
        ensures done { EndedByItself result }
    {
        match self.course.abort() {
            Some(event) => WatchedEnd::Aborted(event),
            None => WatchedEnd::Complete,
        }
    }

    /// The whole journal: that of the plan, and the events since.
    pub fn into_journal(self) -> Journal
        ensures { result ≡ record { events = self.entry.planned_at ++ self.entry.since; promotions = self.entry.promotions } }
    {
        self.into_known().into_journal()
    }

    /// The whole journal, and what it tells of the cluster. It takes no memory.
    pub fn into_known(self) -> KnownJournal<'c>
        ensures { result ≡ record { cluster = self.entry.cluster; events = self.entry.planned_at ++ self.entry.since; promotions = self.entry.promotions } }
    {
        self.course.into_known()
    }

    /// The same, with the graph, so that it can be carried out again. It takes no memory.
    pub fn into_parts(self) -> Parts<'c>
        ensures journal { result.journal ≡ record { cluster = self.entry.cluster; events = self.entry.planned_at ++ self.entry.since; promotions = self.entry.promotions } }
        ensures graph { result.graph ≡ self.entry.graph }
    {
        self.course.into_parts()
    }
}
