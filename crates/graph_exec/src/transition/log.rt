//! The journal of a transition that goes on.

ghost use Rattle.std.specs.Prelude.{◌≡◌, ◌<◌, ◌≤◌, ◌+◌, ◌^◌, ◌++◌, ◌∷◌, [], true, IfOk, IfErr, find, count_by};
ghost use Rattle.std.specs.Option.{option_or};
ghost use Rattle.cluster_types.specs.Journals.{moment_of, seconds_of};
ghost use Rattle.cluster_types.specs.Steps as steps;
ghost use Rattle.graph_exec.specs.Inner.Logs.{log_of, logged};
ghost use Rattle.state_unpack.specs.KeptKnowledge.{Knows};

use crate::transition::known_journal::KnownJournal;
use crate::transition::meaning::{aborts, is_from_outside};
use cluster_types::{Cluster, Event, Promotion};
use listed::Listed;
use state_unpack::Known;
use std::marker::Model;

/// The journal when the transition was planned, and the events since.
#[derive(Drop)]
pub struct Log<'c> {
    cluster: &'c Cluster,
    events: Vec<Event>,
    promotions: Listed<Promotion>,
    /// How many events there were when the transition was planned.
    planned: usize,
    /// What the events tell of the cluster.
    known: Known<'c>,
    /// How many answers from outside were taken since.
    outside: usize,
    /// The first event since that aborts the transition.
    abort: Option<Event>,
}

impl<'c> Model for Log<'c> {
    ghost use Rattle.std.specs.Prelude.{vec_capacity};
    ghost use Rattle.graph_exec.specs.Inner.Logs.{LogOf, Reflects, log_of};

    ghost Value = { LogOf };

    ghost view = { λ l. log_of l.cluster.now l.events.items l.promotions l.planned (vec_capacity l.events) };

    ghost invariant = { λ l. Reflects l.cluster.now l.events.items l.planned l.known l.outside l.abort };
}

/// How many answers from outside there are with the event, when there were so many before it.
fn outside_after(outside: usize, event: Event) -> usize
    requires { outside < 2 ^ 63 }
    ensures { result ≡ outside + count_by steps.is_from_outside (event ∷ []) }
{
    if is_from_outside(event) {
        outside + 1
    } else {
        outside
    }
}

/// The first event that aborts the transition, when this was the first before the event.
fn abort_after(cluster: &Cluster, abort: Option<Event>, event: Event) -> Option<Event>
    ensures { result ≡ option_or abort (find (steps.aborts cluster.now) (event ∷ [])) }
{
    match abort {
        Some(first) => Some(first),
        None if aborts(cluster, event) => Some(event),
        None => None,
    }
}

impl<'c> Log<'c> {
    /// The journal, with room for so many events more. Where the memory isn't there, it is handed back.
    pub fn new(journal: KnownJournal<'c>, more: usize) -> Result<Log<'c>, KnownJournal<'c>>
        ensures cluster { IfOk result (λ log. log.cluster ≡ journal.entry.cluster) }
        ensures planned { IfOk result (λ log. log.planned_at ≡ journal.entry.events) }
        ensures since { IfOk result (λ log. log.since ≡ []) }
        ensures promotions { IfOk result (λ log. log.promotions ≡ journal.entry.promotions) }
        ensures room { IfOk result (λ log. more ≤ log.room) }
        ensures err { IfErr result (λ back. back ≡ journal.entry) }
    {
        let cluster = journal.cluster;
        let promotions = journal.promotions;
        let known = journal.known;
        let mut events = journal.events;
        let planned = events.len();
        if events.reserve(more).is_err() {
            return Err(KnownJournal {
                cluster,
                events,
                promotions,
                known,
            });
        }
        Ok(Log {
            cluster,
            events,
            promotions,
            planned,
            known,
            outside: 0,
            abort: None,
        })
    }

    /// The cluster.
    pub fn cluster(&self) -> &'c Cluster
        ensures { result.now ≡ self.now.cluster }
    {
        self.cluster
    }

    /// What the events tell of the cluster.
    pub fn known(&self) -> &Known<'c>
        ensures { Knows self.now.cluster (self.now.planned_at ++ self.now.since) result.now }
    {
        &self.known
    }

    /// The moment, in seconds.
    pub fn moment(&self) -> u64
        ensures { result ≡ moment_of (self.now.planned_at ++ self.now.since) }
    {
        self.known.moment()
    }

    /// How many answers from outside were taken.
    pub fn outside(&self) -> usize
        ensures { result ≡ count_by steps.is_from_outside self.now.since }
    {
        self.outside
    }

    /// The first event that aborts the transition.
    pub fn abort(&self) -> Option<Event>
        ensures { result ≡ find (steps.aborts self.now.cluster) self.now.since }
    {
        self.abort
    }

    /// Adds an event. Where seconds go by with it, the moment after them fits 64 bits.
    pub fn add(&mut self, event: Event)
        requires room { 0 < self.old.room }
        requires moment { 0 < seconds_of event → moment_of (self.old.planned_at ++ self.old.since) + seconds_of event < 2 ^ 64 }
        ensures { self.new ≡ logged self.old event }
    {
        self.events.push_reserved(event);
        self.known.tell(event);
        self.outside = outside_after(self.outside, event);
        self.abort = abort_after(self.cluster, self.abort, event);
    }

    /// The whole journal, and what it tells.
    pub fn into_known(self) -> KnownJournal<'c>
        ensures { result ≡ record { cluster = self.entry.cluster; events = self.entry.planned_at ++ self.entry.since; promotions = self.entry.promotions } }
    {
        KnownJournal {
            cluster: self.cluster,
            events: self.events,
            promotions: self.promotions,
            known: self.known,
        }
    }
}
