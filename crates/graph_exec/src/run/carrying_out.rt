//! A transition of a run, carried out and closed.

ghost use Rattle.std.specs.Prelude.{◌≡◌, [], true, false, IfOk, IfErr};
ghost use Rattle.cluster_io.specs.Streams.{Rose};
ghost use Rattle.cluster_types.specs.Runs.{amid};
ghost use Rattle.cluster_types.specs.Safety.{IsAtRest};
ghost use Rattle.graph_exec.specs.Questions.{AskedBeside, AskedByEnd, events_left};
ghost use Rattle.graph_exec.specs.LastWords.{SourceLasts, WatcherLasts};
ghost use Rattle.graph_exec.specs.Executors.{transition_in};
ghost use Rattle.graph_exec.specs.Replays.{AgreesWith, IsQuietInFault, IsReplayExpected, IsShownEnd, OfMade, setting, sight};
ghost use Rattle.graph_exec.specs.WatcherLines.{view_amid, view_between};
ghost use Rattle.graph_exec.specs.Inner.Turns.{CameTo, RunEndsAs, HasPlannedGraph, closed_at, part_heard, part_word};

use crate::run::stop::{Ended, ReplayStop};
use crate::{Executor, Heard, KnownJournal, Outcomes, Parts, WatchedEnd, Watcher, run_watched};
use cluster_types::Graph;

/// A transition that has ended: whether it is complete, and what it leaves.
#[derive(Drop)]
pub(crate) struct Closed<'c> {
    pub complete: bool,
    pub journal: KnownJournal<'c>,
    pub graph: Graph,
}

/// Carries the transition of this number in the run out to its end, and tells the watcher how it ended; or says how the run
/// ends on the way. It takes no memory.
pub(crate) fn carry_out<'c, S: Outcomes, V: Watcher>(
    mut executor: Executor<'c>,
    outcomes: &mut S,
    watcher: &mut V,
    number: u32,
) -> Result<Closed<'c>, Ended>
    requires fresh { executor.since ≡ [] }
    requires planned { HasPlannedGraph executor }
    ensures closes { IfOk result (λ closed. CameTo (V.follows watcher.old watcher.new)
        (setting executor.entry.cluster executor.entry.promotions (S.whole outcomes.old) (S.steady outcomes.old))
        (amid number (transition_in executor.entry) [])
        (sight (S.rest outcomes.old) (S.over outcomes.old))
        (sight (S.rest outcomes.new) (S.over outcomes.new))
        (closed_at number closed.complete) closed.journal) }
    ensures at_rest { IfOk result (λ closed. IsAtRest closed.journal.events) }
    ensures graph { IfOk result (λ closed. closed.graph ≡ executor.entry.graph) }
    ensures ends { IfErr result (RunEndsAs (V.follows watcher.old watcher.new)
        (setting executor.entry.cluster executor.entry.promotions (S.whole outcomes.old) (S.steady outcomes.old))
        (amid number (transition_in executor.entry) [])
        (sight (S.rest outcomes.old) (S.over outcomes.old))
        (sight (S.rest outcomes.new) (S.over outcomes.new))
        number (V.stopped watcher.old watcher.new)) }

    ensures agrees { S.agrees outcomes.old executor.entry.cluster executor.entry.planned_at 0
        → IfOk result (λ closed. S.agrees outcomes.new executor.entry.cluster closed.journal.events 0) }
    ensures agrees_at_end { S.agrees outcomes.old executor.entry.cluster executor.entry.planned_at 0
        → IfErr result (OfMade (AgreesWith (S.agrees outcomes.new) executor.entry.cluster)) }
    ensures fitting { S.careful outcomes.old ≡ true → S.agrees outcomes.old executor.entry.cluster executor.entry.planned_at 0 → IfErr result IsReplayExpected }

    ensures source { SourceLasts S.Outcomes outcomes.old outcomes.new (part_word result) }
    ensures answer { IfOk result (λ closed. closed.complete ≡ false → Rose (S.answered outcomes.old) (S.answered outcomes.new)) }
    ensures questions { IfOk result (λ closed. AskedBeside 0 (S.asked outcomes.old) (S.asked outcomes.new) executor.entry.planned_at closed.journal.events) }
    ensures questions_at_end { IfErr result (AskedByEnd events_left (S.asked outcomes.old) (S.asked outcomes.new) executor.entry.planned_at) }
    ensures watcher { WatcherLasts V.Watcher watcher.old watcher.new (part_heard result) }
    ensures quiet { IfErr result (IsQuietInFault (S.broke outcomes.new) (V.quiet watcher.new)) }
    ensures shown { V.shown watcher.old Heard.Go
        (view_amid executor.entry.cluster executor.entry.promotions executor.entry.graph.actions executor.entry.planned_at)
        → IfOk result (λ closed. V.shown watcher.new Heard.Go (view_between executor.entry.cluster executor.entry.promotions closed.journal.events)) }
    ensures shown_at_end { V.shown watcher.old Heard.Go
        (view_amid executor.entry.cluster executor.entry.promotions executor.entry.graph.actions executor.entry.planned_at)
        → IfErr result (IsShownEnd (V.shown watcher.new) executor.entry.cluster executor.entry.promotions) }
{
    let complete = match run_watched(&mut executor, outcomes, watcher) {
        WatchedEnd::Complete => true,
        WatchedEnd::Aborted(_) => false,
        WatchedEnd::Unexpected(answer) => {
            return Err(Err(ReplayStop::Unexpected(executor.into_journal(), answer)));
        }
        WatchedEnd::SourceFault => {
            return Err(Err(ReplayStop::SourceFault(executor.into_journal())));
        }
        WatchedEnd::Stopped => return Err(Err(ReplayStop::Stopped(executor.into_journal()))),
    };
    match watcher.closed(number, complete) {
        Heard::Go => {
            let Parts { journal, graph } = executor.into_parts();
            Ok(Closed {
                complete,
                journal,
                graph,
            })
        }
        Heard::Stop => Err(Err(ReplayStop::Stopped(executor.into_journal()))),
    }
}
