//! One transition of a run, from its plan to where the next is due.

ghost use Rattle.std.specs.Prelude.{◌≡◌, ◌+◌, true, Err, IfOk, IfErr, IfSome};
ghost use Rattle.cluster_io.specs.Streams.{Rose};
ghost use Rattle.cluster_types.specs.Runs.{due};
ghost use Rattle.cluster_types.specs.Safety.{IsAtRest};
ghost use Rattle.cluster_types.specs.Valid.{IsValid};
ghost use Rattle.graph_exec.specs.declared.run.stop.ReplayStop.TheVariants.{Stopped};
ghost use Rattle.graph_exec.specs.Questions.{AskedBeside, AskedByEnd, events_left};
ghost use Rattle.graph_exec.specs.LastWords.{SourceLasts, WatcherLasts};
ghost use Rattle.graph_exec.specs.Replays.{AgreesWith, IsQuietInFault, IsReplayExpected, IsShownEnd, OfMade, setting, sight};
ghost use Rattle.graph_exec.specs.WatcherLines.{view_between};
ghost use Rattle.graph_exec.specs.Inner.Turns.{CameTo, RunEndsAs, Serves, left_of, part_heard, part_word};

use crate::run::carrying_out::carry_out;
use crate::run::idling::take_idle;
use crate::run::planning::plan_next;
use crate::run::stop::{Ended, ReplayStop};
use crate::{Executor, Heard, KnownJournal, Outcomes, Watcher};
use cluster_types::Plan;
use faults::with;
use std::alloc::Global;

/// The end of a run that the watcher stops at a plan. What would be kept of the plan is let go.
fn stopped<P: Drop>(executor: Executor<'_>, _plan: P) -> Ended
    ensures { result ≡ Err (Stopped (left_of executor.entry)) }
{
    Err(ReplayStop::Stopped(executor.into_journal()))
}

/// A transition that was made: its plan, and the journal for which the next is due.
#[derive(Drop)]
pub(crate) struct Turn<'c> {
    pub plan: Plan,
    pub journal: KnownJournal<'c>,
}

/// Makes the transition of this number in the run: plans it, carries it out, and, where it is complete, takes the answer
/// that comes then; or says how the run ends.
pub(crate) fn make_transition<'c, S: Outcomes, V: Watcher>(
    alloc: Global,
    journal: KnownJournal<'c>,
    last: Option<Plan>,
    outcomes: &mut S,
    watcher: &mut V,
    number: u32,
) -> Result<Turn<'c>, Ended>
    requires valid { IsValid journal.cluster }
    requires at_rest { IsAtRest journal.events }
    requires last { IfSome last (Serves journal.cluster) }
    requires lines { V.is_of watcher.old journal.cluster }
    ensures goes_on { IfOk result (λ turn. CameTo (V.follows watcher.old watcher.new)
        (setting journal.entry.cluster journal.entry.promotions (S.whole outcomes.old) (S.steady outcomes.old))
        (due number journal.entry.events)
        (sight (S.rest outcomes.old) (S.over outcomes.old))
        (sight (S.rest outcomes.new) (S.over outcomes.new))
        (due (number + 1)) turn.journal) }
    ensures serves { IfOk result (λ turn. Serves journal.entry.cluster turn.plan) }
    ensures ends { IfErr result (RunEndsAs (V.follows watcher.old watcher.new)
        (setting journal.entry.cluster journal.entry.promotions (S.whole outcomes.old) (S.steady outcomes.old))
        (due number journal.entry.events)
        (sight (S.rest outcomes.old) (S.over outcomes.old))
        (sight (S.rest outcomes.new) (S.over outcomes.new))
        number (V.stopped watcher.old watcher.new)) }

    ensures agrees { S.agrees outcomes.old journal.entry.cluster journal.entry.events 0
        → IfOk result (λ turn. S.agrees outcomes.new journal.entry.cluster turn.journal.events 0) }
    ensures agrees_at_end { S.agrees outcomes.old journal.entry.cluster journal.entry.events 0
        → IfErr result (OfMade (AgreesWith (S.agrees outcomes.new) journal.entry.cluster)) }
    ensures fitting { S.careful outcomes.old ≡ true → S.agrees outcomes.old journal.entry.cluster journal.entry.events 0 → IfErr result IsReplayExpected }

    ensures source { SourceLasts S.Outcomes outcomes.old outcomes.new (part_word result) }
    ensures answer { IfOk result (λ _. Rose (S.answered outcomes.old) (S.answered outcomes.new)) }
    ensures questions { IfOk result (λ turn. AskedBeside 0 (S.asked outcomes.old) (S.asked outcomes.new) journal.entry.events turn.journal.events) }
    ensures questions_at_end { IfErr result (AskedByEnd events_left (S.asked outcomes.old) (S.asked outcomes.new) journal.entry.events) }
    ensures watcher { WatcherLasts V.Watcher watcher.old watcher.new (part_heard result) }
    ensures quiet { IfErr result (IsQuietInFault (S.broke outcomes.new) (V.quiet watcher.new)) }
    ensures shown { V.shown watcher.old Heard.Go (view_between journal.entry.cluster journal.entry.promotions journal.entry.events)
        → IfOk result (λ turn. V.shown watcher.new Heard.Go (view_between journal.entry.cluster journal.entry.promotions turn.journal.events)) }
    ensures shown_at_end { V.shown watcher.old Heard.Go (view_between journal.entry.cluster journal.entry.promotions journal.entry.events)
        → IfErr result (IsShownEnd (V.shown watcher.new) journal.entry.cluster journal.entry.promotions) }
{
    let Ok(planned) = plan_next(alloc, journal, last) else {
        return Err(Err(ReplayStop::NoMemory));
    };
    if let Heard::Stop = watcher.planned(number, &planned.placed) {
        return Err(stopped(planned.executor, (planned.states, planned.placed)));
    }
    let carried = carry_out(planned.executor, outcomes, watcher, number);
    let ((states, placed), closed) = match with((planned.states, planned.placed), carried) {
        Ok(both) => both,
        Err(ended) => return Err(ended),
    };
    let plan = Plan {
        states,
        rights: planned.rights,
        placed,
        graph: closed.graph,
    };
    if !closed.complete {
        return Ok(Turn {
            plan,
            journal: closed.journal,
        });
    }
    let taken = take_idle(alloc, closed.journal, outcomes, watcher, number);
    match with(plan, taken) {
        Ok((plan, journal)) => Ok(Turn { plan, journal }),
        Err(ended) => Err(ended),
    }
}
