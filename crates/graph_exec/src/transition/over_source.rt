//! A transition over a source of outcomes, to its end.

ghost use Rattle.std.specs.Prelude.{◌≡◌, ◌≤◌, ◌+◌, true, length};
ghost use Rattle.graph_exec.specs.Counts.{IsAbortAnswered};
ghost use Rattle.graph_exec.specs.Questions.{AskedBeside, questions_beside};
ghost use Rattle.graph_exec.specs.LastWords.{SourceLasts, WatcherLasts, transition_word};
ghost use Rattle.graph_exec.specs.Promises.{EndsWell, KeepsPromises};
ghost use Rattle.graph_exec.specs.Transitions.{Accords, EndsAs, WentByEnd, HasSaidAll, IsExpected};
ghost use Rattle.graph_exec.specs.WatchedTransitions.{IsToldUpTo, IsQuietAt, IsShownAll, heard_at, watched};

use crate::transition::ends::{End, WatchedEnd, without_watcher};
use crate::transition::executor::Executor;
use crate::transition::outcomes::Outcomes;
use crate::transition::watcher::{Heard, Unwatched, Watcher};

/// Carries the transition out to its end: all that may begin, begins before an answer is taken. A watcher is told each step,
/// and that the source is asked, unless what it says is at hand. When the watcher stops, nothing more begins or is taken.
/// After `Unexpected`, `SourceFault` or `Stopped` the executor holds the steps so far, and a further call goes on from there.
/// It takes no memory.
pub fn run_watched<S: Outcomes, V: Watcher>(
    executor: &mut Executor<'_>,
    outcomes: &mut S,
    watcher: &mut V,
) -> WatchedEnd
    // What happened.
    ensures steps { WentByEnd (S.whole outcomes.old) executor.old executor.new (S.rest outcomes.old) (S.rest outcomes.new) result }
    ensures end { EndsAs executor.new result }
    ensures promises { KeepsPromises executor.new }
    ensures well { EndsWell executor.new result }

    // What became of the source.
    ensures source { SourceLasts S.Outcomes outcomes.old outcomes.new (transition_word result) }
    ensures asked { S.asked outcomes.new ≤ S.asked outcomes.old + (length executor.old.graph.actions + 257) }
    ensures questions { AskedBeside (questions_beside result) (S.asked outcomes.old) (S.asked outcomes.new) executor.old.since executor.new.since }
    ensures aborted { IsAbortAnswered executor.old executor.new (S.answered outcomes.old) (S.answered outcomes.new) }
    ensures said { S.steady outcomes.old ≡ true
        → HasSaidAll executor.old executor.new (S.rest outcomes.old) (S.rest outcomes.new) (S.over outcomes.old) (S.over outcomes.new) result }
    ensures agrees { Accords (S.agrees outcomes.old) executor.old → Accords (S.agrees outcomes.new) executor.new }
    ensures fitting { S.careful outcomes.old ≡ true → Accords (S.agrees outcomes.old) executor.old → IsExpected result }

    // What the watcher was told.
    ensures told { IsToldUpTo (V.follows watcher.old watcher.new) (V.stopped watcher.old watcher.new) (S.whole outcomes.old) executor.old executor.new
        (S.rest outcomes.old) (S.rest outcomes.new) (heard_at result) }
    ensures watcher { WatcherLasts V.Watcher watcher.old watcher.new (heard_at result) }
    ensures quiet { IsQuietAt (S.broke outcomes.new) (V.quiet watcher.new) result }
    ensures shown { IsShownAll (V.shown watcher.old Heard.Go) executor.old → IsShownAll (V.shown watcher.new (heard_at result)) executor.new }
{
    loop {
        if let Heard::Stop = executor.begin_all(outcomes, watcher) {
            return WatchedEnd::Stopped;
        }
        if executor.flight().count() == 0 {
            return executor.end();
        }
        if let Some(end) = executor.go_on(outcomes, watcher) {
            return end;
        }
    }
}

/// Carries the transition out to its end as [`run_watched`] does, with no watcher.
pub fn run_transition<S: Outcomes>(executor: &mut Executor<'_>, outcomes: &mut S) -> End
    ensures steps { WentByEnd (S.whole outcomes.old) executor.old executor.new (S.rest outcomes.old) (S.rest outcomes.new) (watched result) }
    ensures end { EndsAs executor.new (watched result) }
    ensures promises { KeepsPromises executor.new }
    ensures well { EndsWell executor.new (watched result) }

    ensures source { SourceLasts S.Outcomes outcomes.old outcomes.new (transition_word (watched result)) }
    ensures asked { S.asked outcomes.new ≤ S.asked outcomes.old + (length executor.old.graph.actions + 257) }
    ensures questions { AskedBeside (questions_beside (watched result)) (S.asked outcomes.old) (S.asked outcomes.new) executor.old.since executor.new.since }
    ensures aborted { IsAbortAnswered executor.old executor.new (S.answered outcomes.old) (S.answered outcomes.new) }
    ensures said { S.steady outcomes.old ≡ true
        → HasSaidAll executor.old executor.new (S.rest outcomes.old) (S.rest outcomes.new) (S.over outcomes.old) (S.over outcomes.new) (watched result) }
    ensures agrees { Accords (S.agrees outcomes.old) executor.old → Accords (S.agrees outcomes.new) executor.new }
    ensures fitting { S.careful outcomes.old ≡ true → Accords (S.agrees outcomes.old) executor.old → IsExpected (watched result) }
{
    without_watcher(run_watched(executor, outcomes, &mut Unwatched))
}
