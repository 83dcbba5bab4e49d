//! A run over a source of outcomes, told to a watcher.

ghost use Rattle.std.specs.Prelude.{◌≡◌, ◌<◌, ◌^◌, true};
ghost use Rattle.cluster_types.specs.Journals.{moment_of};
ghost use Rattle.cluster_types.specs.Safety.{IsAtRest};
ghost use Rattle.cluster_types.specs.Valid.{IsValid};
ghost use Rattle.graph_exec.specs.Counts.{AreMostAnswered};
ghost use Rattle.graph_exec.specs.Questions.{AskedByEnd, events_left};
ghost use Rattle.graph_exec.specs.LastWords.{SourceLasts, WatcherLasts};
ghost use Rattle.graph_exec.specs.WatcherLines.{view_between};
ghost use Rattle.graph_exec.specs.Replays.{AgreesWith, IsQuietInFault, IsReplayExpected, IsJournalKept, IsShownEnd, OfMade, ReplaysAs, replay_heard, replay_word, setting, sight};

use crate::run::stop::ReplayStop;
use crate::run::turning::make_transition;
use crate::{Heard, KnownJournal, Outcomes, Watcher};
use cluster_types::{Cluster, Journal};
use state_unpack::valid_clusters_have_few_monitors;
use std::alloc::Global;

/// Makes the run of a journal: transition after transition, each with the plan for the journal so far, at most so many. After
/// an aborted transition the next is due; after a complete one the source is asked while nothing is to be done, and an answer
/// that applies then makes the next due. Where nothing more is said, the run is over.
///
/// The watcher is told each line as it happens, and that the source is asked, unless what it says is at hand. Out of memory
/// comes between two transitions alone, so that a transition that was told is carried out. The last plan is kept, and serves
/// again while the journal tells the same states; the journal is read once.
///
/// It asks for a valid cluster, for a journal in order with nothing in flight, as a status gives it, for a moment in seconds
/// that fits 64 bits, and for a watcher of the lines of this cluster.
pub fn replay_watched<S: Outcomes, V: Watcher>(
    alloc: Global,
    cluster: &Cluster,
    journal: Journal,
    outcomes: &mut S,
    watcher: &mut V,
    most: u32,
) -> Result<Journal, ReplayStop<Journal>>
    requires valid { IsValid cluster.now }
    requires at_rest { IsAtRest journal.events }
    requires moment { moment_of journal.events < 2 ^ 64 }
    requires lines { V.is_of watcher.old cluster.now }

    // Which run was made, and how far; and what the watcher was told of it.
    ensures run { ReplaysAs (V.follows watcher.old watcher.new) (V.stopped watcher.old watcher.new)
        (setting cluster.now journal.promotions (S.whole outcomes.old) (S.steady outcomes.old)) journal.events
        (sight (S.rest outcomes.old) (S.over outcomes.old))
        (sight (S.rest outcomes.new) (S.over outcomes.new)) most result }
    ensures kept { OfMade (IsJournalKept journal.promotions) result }

    // What became of the source.
    ensures source { SourceLasts S.Outcomes outcomes.old outcomes.new (replay_word result) }
    ensures answers { AreMostAnswered most (S.answered outcomes.old) (S.answered outcomes.new) result }
    ensures questions { AskedByEnd events_left (S.asked outcomes.old) (S.asked outcomes.new) journal.events result }
    ensures agrees { S.agrees outcomes.old cluster.now journal.events 0 → OfMade (AgreesWith (S.agrees outcomes.new) cluster.now) result }
    ensures fitting { S.careful outcomes.old ≡ true → S.agrees outcomes.old cluster.now journal.events 0 → IsReplayExpected result }

    // What became of the watcher.
    ensures watcher { WatcherLasts V.Watcher watcher.old watcher.new (replay_heard result) }
    ensures quiet { IsQuietInFault (S.broke outcomes.new) (V.quiet watcher.new) result }
    ensures shown { V.shown watcher.old Heard.Go (view_between cluster.now journal.promotions journal.events)
        → IsShownEnd (V.shown watcher.new) cluster.now journal.promotions result }
{
    valid_clusters_have_few_monitors();
    let Ok(mut known) = KnownJournal::new(alloc, cluster, journal) else {
        return Err(ReplayStop::NoMemory);
    };
    let mut last = None;
    for made in 0..most {
        let turn = match make_transition(alloc, known, last, outcomes, watcher, made + 1) {
            Ok(turn) => turn,
            Err(ended) => return ended,
        };
        known = turn.journal;
        last = Some(turn.plan);
    }
    Err(ReplayStop::Most(known.into_journal()))
}
