//! A journal, and what it tells of the cluster.

ghost use Rattle.std.specs.Prelude.{◌≡◌, ◌<◌, ◌^◌, true, length, IfOk, IfErr};
ghost use Rattle.cluster_types.specs.Journals.{moment_of};
ghost use Rattle.cluster_types.specs.UnpackedStates.{states_of};
ghost use Rattle.cluster_types.specs.Valid.{KeepsLimits};
ghost use Rattle.state_unpack.specs.Knowledge.{has_few_monitors};

use cluster_types::{Cluster, Event, Journal, NoMemory, Promotion, States};
use listed::Listed;
use state_unpack::Known;
use std::alloc::Global;
use std::marker::Model;

/// A journal, and what it tells of the cluster, so that it is read once, however many transitions add to it.
#[derive(Drop)]
pub struct KnownJournal<'c> {
    pub(crate) cluster: &'c Cluster,
    pub(crate) events: Vec<Event>,
    pub(crate) promotions: Listed<Promotion>,
    /// What the events tell of the cluster.
    pub(crate) known: Known<'c>,
}

impl<'c> Model for KnownJournal<'c> {
    ghost use Rattle.graph_exec.specs.KnownJournals.{KnownJournalOf};
    ghost use Rattle.graph_exec.specs.Inner.Logs.{IsLogTold};

    ghost Value = { KnownJournalOf };

    ghost view = { λ j. record { cluster = j.cluster.now; events = j.events.items; promotions = j.promotions } };

    ghost invariant = { λ j. IsLogTold j.cluster.now j.events.items j.known };
}

impl<'c> KnownJournal<'c> {
    /// Reads the journal, once. Where the memory isn't there, it is handed back. It asks for a cluster within the limits, of
    /// which each leaf has at most eight recurring monitors, as each valid cluster is, and for a moment in seconds that fits
    /// 64 bits.
    pub fn new(
        alloc: Global,
        cluster: &'c Cluster,
        journal: Journal,
    ) -> Result<KnownJournal<'c>, Journal>
        requires limits { KeepsLimits cluster.now }
        requires monitors { has_few_monitors cluster.now ≡ true }
        requires moment { moment_of journal.events < 2 ^ 64 }
        ensures ok { IfOk result (λ known. known ≡ record { cluster = cluster.now; events = journal.events; promotions = journal.promotions }) }
        ensures err { IfErr result (λ back. back ≡ journal) }
    {
        let Ok(known) = Known::new(alloc, cluster, journal.events.as_slice()) else {
            return Err(journal);
        };
        Ok(KnownJournal {
            cluster,
            events: journal.events.into_vec(),
            promotions: journal.promotions,
            known,
        })
    }

    /// The cluster.
    pub fn cluster(&self) -> &'c Cluster
        ensures { result.now ≡ self.now.cluster }
    {
        self.cluster
    }

    /// How many events there are.
    pub fn count(&self) -> usize
        ensures { result ≡ length self.now.events }
    {
        self.events.len()
    }

    /// What the journal tells of the cluster. Out of memory is its only other answer.
    pub fn states(&self, alloc: Global) -> Result<States, NoMemory>
        ensures { IfOk result (λ states. states ≡ states_of self.now.cluster self.now.events self.now.promotions) }
    {
        self.known.states(alloc, self.promotions.as_slice())
    }

    /// The journal.
    pub fn into_journal(self) -> Journal
        ensures { result ≡ record { events = self.entry.events; promotions = self.entry.promotions } }
    {
        Journal {
            events: Listed::from(self.events),
            promotions: self.promotions,
        }
    }
}
