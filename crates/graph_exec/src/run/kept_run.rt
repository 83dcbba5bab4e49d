//! A run over a source of outcomes, of which each transition is kept.

ghost use Rattle.std.specs.Prelude.{◌≡◌, ◌<◌, ◌^◌, true};
ghost use Rattle.cluster_types.specs.Journals.{moment_of};
ghost use Rattle.cluster_types.specs.Safety.{IsAtRest};
ghost use Rattle.cluster_types.specs.Valid.{IsValid};
ghost use Rattle.graph_exec.specs.Questions.{AskedByEnd, events_kept};
ghost use Rattle.graph_exec.specs.Inner.KeptTransitions.{kept_end};
ghost use Rattle.graph_exec.specs.KeptRuns.{KeepsAs, KeepsPlans, kept_run_word};
ghost use Rattle.graph_exec.specs.LastWords.{SourceLasts};
ghost use Rattle.graph_exec.specs.Replays.{AgreesWith, IsJournalKept, IsReplayExpected, OfMade};

use crate::run::keeping::keep_transition;
use crate::run::stop::{Ended, ReplayStop};
use crate::{KnownJournal, Outcomes};
use cluster_types::{Cluster, Journal, Passed, Run};
use listed::Listed;
use state_unpack::valid_clusters_have_few_monitors;
use std::alloc::Global;

/// How a run ended, of which these transitions are kept.
fn kept(passed: Listed<Passed>, end: Ended) -> Result<Run, ReplayStop<Run>>
    ensures { result ≡ kept_end passed end }
{
    match end {
        Ok(journal) => Ok(Run { passed, journal }),
        Err(ReplayStop::Unexpected(journal, answer)) => {
            Err(ReplayStop::Unexpected(Run { passed, journal }, answer))
        }
        Err(ReplayStop::SourceFault(journal)) => {
            Err(ReplayStop::SourceFault(Run { passed, journal }))
        }
        Err(ReplayStop::Stopped(journal)) => Err(ReplayStop::Stopped(Run { passed, journal })),
        Err(ReplayStop::Most(journal)) => Err(ReplayStop::Most(Run { passed, journal })),
        Err(ReplayStop::NoMemory) => Err(ReplayStop::NoMemory),
    }
}

/// Makes the run of a journal, of which [`crate::replay_watched`] says how it goes, and keeps it. No watcher stops it, and
/// each transition is planned anew.
///
/// Of each transition its targets and reasons are kept, with the positions of its events in the journal. `NoMemory` comes
/// when memory runs out, or where the journal has 2^32 events or more, so that a position wouldn't fit.
///
/// It asks for a valid cluster, for a journal in order with nothing in flight, as a status gives it, and for a moment in
/// seconds that fits 64 bits.
pub fn replay<S: Outcomes>(
    alloc: Global,
    cluster: &Cluster,
    journal: Journal,
    outcomes: &mut S,
    most: u32,
) -> Result<Run, ReplayStop<Run>>
    requires valid { IsValid cluster.now }
    requires at_rest { IsAtRest journal.events }
    requires moment { moment_of journal.events < 2 ^ 64 }

    // Which run was made, and how far; and what is kept of it.
    ensures run { KeepsAs cluster.now journal.promotions (S.whole outcomes.old) (S.steady outcomes.old) journal.events
        (S.rest outcomes.old) (S.rest outcomes.new) most result }
    ensures plans { OfMade (KeepsPlans cluster.now journal.promotions most) result }
    ensures kept { OfMade (λ run. IsJournalKept journal.promotions run.journal) result }

    // What became of the source.
    ensures source { SourceLasts S.Outcomes outcomes.old outcomes.new (kept_run_word result) }
    ensures questions { AskedByEnd events_kept (S.asked outcomes.old) (S.asked outcomes.new) journal.events result }
    ensures agrees { S.agrees outcomes.old cluster.now journal.events 0
        → OfMade (λ run. AgreesWith (S.agrees outcomes.new) cluster.now run.journal) result }
    ensures fitting { S.careful outcomes.old ≡ true → S.agrees outcomes.old cluster.now journal.events 0 → IsReplayExpected result }
{
    valid_clusters_have_few_monitors();
    let Ok(mut known) = KnownJournal::new(alloc, cluster, journal) else {
        return Err(ReplayStop::NoMemory);
    };
    let mut passed = Listed::new(alloc);
    for _made in 0..most {
        known = match keep_transition(alloc, known, outcomes, &mut passed) {
            Ok(later) => later,
            Err(end) => return kept(passed, end),
        };
    }
    let journal = known.into_journal();
    Err(ReplayStop::Most(Run { passed, journal }))
}
