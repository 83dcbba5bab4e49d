//! An answer that comes while nothing is to be done.

ghost use Rattle.std.specs.Prelude.{◌≡◌, ◌≤◌, ◌⊎◌, ◌+◌, [], true, IfOk, IfErr};
ghost use Rattle.cluster_io.specs.Streams.{Rose};
ghost use Rattle.cluster_types.specs.Journals.{in_flight_by_begin};
ghost use Rattle.cluster_types.specs.Runs.{due, idle};
ghost use Rattle.graph_exec.specs.Questions.{AskedBeside, AskedByEnd, events_left};
ghost use Rattle.graph_exec.specs.Inner.KeptTransitions.{IsAnswered, IsUnanswered};
ghost use Rattle.graph_exec.specs.LastWords.{SourceLasts, WatcherLasts};
ghost use Rattle.graph_exec.specs.Replays.{AgreesWith, IsQuietInFault, IsReplayExpected, IsShownEnd, OfMade, setting, sight};
ghost use Rattle.graph_exec.specs.WatcherLines.{view_between};
ghost use Rattle.graph_exec.specs.Inner.Turns.{CameTo, RunEndsAs, part_heard, part_word};

use crate::run::stop::{Ended, ReplayStop};
use crate::transition::course::Course;
use crate::transition::rounds::wait_for;
use crate::{Heard, KnownJournal, Next, Outcomes, Watcher};
use cluster_types::{Answer, Edges, Graph};
use listed::Listed;
use std::alloc::Global;

/// A graph without actions. It takes no memory.
fn nothing_to_do(alloc: Global) -> Graph
    ensures { result.actions ≡ [] }
{
    let edges = Edges {
        positions: 0,
        list: Listed::new(alloc),
    };
    Graph::new(Vec::new(alloc), edges)
}

/// An answer that was taken while nothing was to be done, and the journal with what it adds.
#[derive(Drop)]
pub(crate) struct Taken<'c> {
    pub answer: Answer,
    pub journal: KnownJournal<'c>,
}

/// Asks the source while nothing is to be done. Takes its answer, or says how the run ends here. All memory is taken before
/// the source is asked. What that says is at hand, or this watcher holds nothing back.
pub(crate) fn ask_idle<'c, S: Outcomes, V: Watcher>(
    alloc: Global,
    journal: KnownJournal<'c>,
    outcomes: &mut S,
    watcher: &V,
) -> Result<Taken<'c>, Ended>
    requires resting { in_flight_by_begin journal.events ≡ [] }
    requires in_time { S.at_hand outcomes.old ⊎ V.quiet watcher.now }
    ensures answered { IfOk result (λ taken. IsAnswered (S.whole outcomes.old) journal.entry (S.rest outcomes.old) (S.rest outcomes.new) taken.answer taken.journal) }
    ensures unanswered { IfErr result
        (IsUnanswered (S.whole outcomes.old) journal.entry (S.rest outcomes.old) (S.rest outcomes.new) (S.over outcomes.old)) }

    ensures agrees { S.agrees outcomes.old journal.entry.cluster journal.entry.events 0
        → IfOk result (λ taken. S.agrees outcomes.new journal.entry.cluster taken.journal.events 0) }
    ensures agrees_at_end { S.agrees outcomes.old journal.entry.cluster journal.entry.events 0
        → IfErr result (OfMade (AgreesWith (S.agrees outcomes.new) journal.entry.cluster)) }
    ensures fitting { S.careful outcomes.old ≡ true → S.agrees outcomes.old journal.entry.cluster journal.entry.events 0
        → IfErr result IsReplayExpected }

    ensures source { SourceLasts S.Outcomes outcomes.old outcomes.new (part_word result) }
    ensures answer { IfOk result (λ _. Rose (S.answered outcomes.old) (S.answered outcomes.new)) }
    ensures asked { S.asked outcomes.new ≤ S.asked outcomes.old + 1 }
    ensures quiet { IfErr result (IsQuietInFault (S.broke outcomes.new) (V.quiet watcher.now)) }
{
    let Ok(mut course) = Course::new(alloc, journal, nothing_to_do(alloc)) else {
        return Err(Err(ReplayStop::NoMemory));
    };
    match outcomes.next(course.flight()) {
        Next::Answer(answer) => {
            if !course.applies(answer) {
                let journal = course.into_known().into_journal();
                return Err(Err(ReplayStop::Unexpected(journal, answer)));
            }
            course.enter(answer);
            Ok(Taken {
                answer,
                journal: course.into_known(),
            })
        }
        Next::Silent => Err(Ok(course.into_known().into_journal())),
        Next::Failed => {
            let journal = course.into_known().into_journal();
            Err(Err(ReplayStop::SourceFault(journal)))
        }
    }
}

/// Asks the source while nothing is to be done, after the transition of this number in the run. Its answer is entered, and
/// the watcher is told of it; where nothing more is said, the run is over. Before the source may keep it waiting, the watcher
/// is told so. All memory is taken before the source is asked.
pub(crate) fn take_idle<'c, S: Outcomes, V: Watcher>(
    alloc: Global,
    journal: KnownJournal<'c>,
    outcomes: &mut S,
    watcher: &mut V,
    number: u32,
) -> Result<KnownJournal<'c>, Ended>
    requires resting { in_flight_by_begin journal.events ≡ [] }
    ensures goes_on { IfOk result (CameTo (V.follows watcher.old watcher.new)
        (setting journal.entry.cluster journal.entry.promotions (S.whole outcomes.old) (S.steady outcomes.old))
        (idle number journal.entry.events)
        (sight (S.rest outcomes.old) (S.over outcomes.old))
        (sight (S.rest outcomes.new) (S.over outcomes.new))
        (due (number + 1))) }
    ensures ends { IfErr result (RunEndsAs (V.follows watcher.old watcher.new)
        (setting journal.entry.cluster journal.entry.promotions (S.whole outcomes.old) (S.steady outcomes.old))
        (idle number journal.entry.events)
        (sight (S.rest outcomes.old) (S.over outcomes.old))
        (sight (S.rest outcomes.new) (S.over outcomes.new))
        number (V.stopped watcher.old watcher.new)) }

    ensures agrees { S.agrees outcomes.old journal.entry.cluster journal.entry.events 0
        → IfOk result (λ later. S.agrees outcomes.new journal.entry.cluster later.events 0) }
    ensures agrees_at_end { S.agrees outcomes.old journal.entry.cluster journal.entry.events 0
        → IfErr result (OfMade (AgreesWith (S.agrees outcomes.new) journal.entry.cluster)) }
    ensures fitting { S.careful outcomes.old ≡ true → S.agrees outcomes.old journal.entry.cluster journal.entry.events 0 → IfErr result IsReplayExpected }

    ensures source { SourceLasts S.Outcomes outcomes.old outcomes.new (part_word result) }
    ensures answer { IfOk result (λ _. Rose (S.answered outcomes.old) (S.answered outcomes.new)) }
    ensures questions { IfOk result (λ later. AskedBeside 0 (S.asked outcomes.old) (S.asked outcomes.new) journal.entry.events later.events) }
    ensures questions_at_end { IfErr result (AskedByEnd events_left (S.asked outcomes.old) (S.asked outcomes.new) journal.entry.events) }
    ensures watcher { WatcherLasts V.Watcher watcher.old watcher.new (part_heard result) }
    ensures quiet { IfErr result (IsQuietInFault (S.broke outcomes.new) (V.quiet watcher.new)) }
    ensures shown { V.shown watcher.old Heard.Go (view_between journal.entry.cluster journal.entry.promotions journal.entry.events)
        → IfOk result (λ later. V.shown watcher.new Heard.Go (view_between journal.entry.cluster journal.entry.promotions later.events)) }
    ensures shown_at_end { V.shown watcher.old Heard.Go (view_between journal.entry.cluster journal.entry.promotions journal.entry.events)
        → IfErr result (IsShownEnd (V.shown watcher.new) journal.entry.cluster journal.entry.promotions) }
{
    if let Heard::Stop = wait_for(outcomes, watcher) {
        return Err(Err(ReplayStop::Stopped(journal.into_journal())));
    }
    match ask_idle(alloc, journal, outcomes, watcher) {
        Ok(taken) => match watcher.taken(taken.answer) {
            Heard::Go => Ok(taken.journal),
            Heard::Stop => Err(Err(ReplayStop::Stopped(taken.journal.into_journal()))),
        },
        Err(end) => Err(end),
    }
}
