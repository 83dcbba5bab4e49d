//! One round of a transition over a source: all that may begin, begins, and then an answer is taken.

ghost use Rattle.std.specs.Prelude.{◌≡◌, ◌⊎◌, ◌<◌, ◌≤◌, ◌+◌, [], ◌∷◌, true, false, None, IfSome, IfNone, IfOk, IfErr, OnOk, unwrap_or};
ghost use Rattle.cluster_types.specs.declared.journal.Event.TheVariants.{Begin};
ghost use Rattle.cluster_types.specs.declared.run.RunLine.TheVariants as line;
ghost use Rattle.cluster_types.specs.Steps.{IsWaiting, is_settled};
ghost use Rattle.graph_exec.specs.Counts.{IsAbortAnswered};
ghost use Rattle.graph_exec.specs.Questions.{AskedBeside, questions_beside};
ghost use Rattle.graph_exec.specs.LastWords.{SourceLasts, WatcherLasts, none_failed};
ghost use Rattle.graph_exec.specs.Inner.Rounds.{Advanced, Answered, IsBeginTold, StopsAs, asked_word, asks_left, begins_left, heard_in, round_word};
ghost use Rattle.graph_exec.specs.Executors.{IsUnderWay, Went, transition_in};
ghost use Rattle.graph_exec.specs.Transitions.{Accords, EndsAs, WentByEnd, EndedByItself, IsExpected, WentAsSaid};
ghost use Rattle.graph_exec.specs.WatcherLines.{RunView, view_action, view_later};
ghost use Rattle.graph_exec.specs.WatchedTransitions.{IsToldUpTo, IsQuietAt, IsShownAll};

use crate::transition::ends::WatchedEnd;
use crate::transition::executor::Executor;
use crate::transition::outcomes::{Next, Outcomes};
use crate::transition::watcher::{Heard, Watcher};
use cluster_types::{Action, Answer};

/// The source is asked next: unless what it says is at hand, the watcher is told so.
pub(crate) fn wait_for<S: Outcomes, V: Watcher>(outcomes: &S, watcher: &mut V) -> Heard
    ensures in_time { result ≡ Heard.Go → S.at_hand outcomes.now ⊎ V.quiet watcher.new }
    ensures follows { result ≡ Heard.Go → V.follows watcher.old watcher.new [] }
    ensures stopped { result ≡ Heard.Stop → V.stopped watcher.old watcher.new [] None }
    ensures watcher { WatcherLasts V.Watcher watcher.old watcher.new result }
    ensures shown { (v : RunView) → V.shown watcher.old Heard.Go v → V.shown watcher.new result v }
{
    if outcomes.is_ready() {
        return Heard::Go;
    }
    watcher.waits()
}

/// The watcher is told of a begin, of which the source was told before: so the source matches the journal also where the
/// watcher stops the run here.
fn tell_begin<S: Outcomes, V: Watcher>(
    outcomes: &S,
    watcher: &mut V,
    number: u32,
    action: Action,
) -> Heard
    requires source_first { IsBeginTold S.Outcomes outcomes.now number action }
    ensures follows { result ≡ Heard.Go → V.follows watcher.old watcher.new (line.Begin number action ∷ []) }
    ensures stopped { result ≡ Heard.Stop → V.stopped watcher.old watcher.new [] (Some (line.Begin number action)) }
    ensures watcher { WatcherLasts V.Watcher watcher.old watcher.new result }
    ensures shown { (v : RunView) → view_action v number ≡ Some action → V.shown watcher.old Heard.Go v → V.shown watcher.new result (view_later v (Begin number action ∷ [])) }
{
    watcher.begun(number, action)
}

impl<'c> Executor<'c> {
    /// Of the actions that may begin, the one of lowest number begins, and the source and then the watcher are told. Where
    /// none may, nothing changes.
    fn begin_one<S: Outcomes, V: Watcher>(
        &mut self,
        outcomes: &mut S,
        watcher: &mut V,
    ) -> Option<Heard>
        ensures went { Went (S.whole outcomes.old) self.old self.new (S.rest outcomes.old) (S.rest outcomes.new) }
        ensures said { WentAsSaid self.old self.new (S.rest outcomes.old) (S.rest outcomes.new) }
        ensures on { IfSome result (λ heard. begins_left self.new < begins_left self.old) }
        ensures settled { IfNone result (is_settled (transition_in self.new) self.new.since ≡ true) }
        ensures asks { asks_left self.new ≤ asks_left self.old }
        ensures under_way { IsUnderWay self.new }

        ensures source { SourceLasts S.Outcomes outcomes.old outcomes.new none_failed }
        ensures asked { S.asked outcomes.new ≡ S.asked outcomes.old }
        ensures aborted { IsAbortAnswered self.old self.new (S.answered outcomes.old) (S.answered outcomes.new) }
        ensures agrees { Accords (S.agrees outcomes.old) self.old → Accords (S.agrees outcomes.new) self.new }

        ensures told { IsToldUpTo (V.follows watcher.old watcher.new) (V.stopped watcher.old watcher.new) (S.whole outcomes.old) self.old self.new
            (S.rest outcomes.old) (S.rest outcomes.new) (unwrap_or result Heard.Go) }
        ensures watcher { WatcherLasts V.Watcher watcher.old watcher.new (unwrap_or result Heard.Go) }
        ensures shown { IsShownAll (V.shown watcher.old Heard.Go) self.old → IsShownAll (V.shown watcher.new (unwrap_or result Heard.Go)) self.new }
    {
        let Some(number) = self.begin_next() else {
            return None;
        };
        let action = self.course.flight().graph().action(number);
        outcomes.begun(number, action);
        let heard = tell_begin(outcomes, watcher, number, action);
        Some(heard)
    }

    /// All that may begin, begins, in the order of their numbers, as long as the watcher goes on.
    pub(crate) fn begin_all<S: Outcomes, V: Watcher>(
        &mut self,
        outcomes: &mut S,
        watcher: &mut V,
    ) -> Heard
        ensures went { Went (S.whole outcomes.old) self.old self.new (S.rest outcomes.old) (S.rest outcomes.new) }
        ensures said { WentAsSaid self.old self.new (S.rest outcomes.old) (S.rest outcomes.new) }
        ensures settled { result ≡ Heard.Go → is_settled (transition_in self.new) self.new.since ≡ true }
        ensures asks { asks_left self.new ≤ asks_left self.old }
        ensures under_way { IsUnderWay self.new }

        ensures source { SourceLasts S.Outcomes outcomes.old outcomes.new none_failed }
        ensures asked { S.asked outcomes.new ≡ S.asked outcomes.old }
        ensures aborted { IsAbortAnswered self.old self.new (S.answered outcomes.old) (S.answered outcomes.new) }
        ensures agrees { Accords (S.agrees outcomes.old) self.old → Accords (S.agrees outcomes.new) self.new }

        ensures told { IsToldUpTo (V.follows watcher.old watcher.new) (V.stopped watcher.old watcher.new) (S.whole outcomes.old) self.old self.new
            (S.rest outcomes.old) (S.rest outcomes.new) result }
        ensures watcher { WatcherLasts V.Watcher watcher.old watcher.new result }
        ensures shown { IsShownAll (V.shown watcher.old Heard.Go) self.old → IsShownAll (V.shown watcher.new result) self.new }
    {
        loop {
            match self.begin_one(outcomes, watcher) {
                None => return Heard::Go,
                Some(Heard::Stop) => return Heard::Stop,
                Some(Heard::Go) => {}
            }
        }
    }

    /// The source is asked, where none may begin and something is in flight. Its answer is taken, or the first action in
    /// flight ends silently, and the answer is given; else it says how the transition ends here.
    ///
    /// What it says is at hand, or this watcher holds nothing back: whoever waits for it was told all before.
    fn ask<S: Outcomes, V: Watcher>(
        &mut self,
        outcomes: &mut S,
        watcher: &V,
    ) -> Result<Answer, WatchedEnd>
        requires waiting { IsWaiting (transition_in self.old) self.old.since }
        requires in_time { S.at_hand outcomes.old ⊎ V.quiet watcher.now }
        ensures answered { IfOk result (Answered (S.whole outcomes.old) self.old self.new (S.rest outcomes.old) (S.rest outcomes.new)) }
        ensures stops { IfErr result (StopsAs (S.whole outcomes.old) self.old self.new (S.rest outcomes.old) (S.rest outcomes.new)) }
        ensures under_way { IsUnderWay self.new }
        ensures source { SourceLasts S.Outcomes outcomes.old outcomes.new (asked_word result) }
        ensures asked { S.asked outcomes.new ≤ S.asked outcomes.old + 1 }
        ensures aborted { IsAbortAnswered self.old self.new (S.answered outcomes.old) (S.answered outcomes.new) }
        ensures agrees { Accords (S.agrees outcomes.old) self.old → Accords (S.agrees outcomes.new) self.new }
        ensures said { S.steady outcomes.old ≡ true → S.over outcomes.new ≡ false
            → OnOk result (WentAsSaid self.old self.new (S.rest outcomes.old) (S.rest outcomes.new)) }
        ensures not_over { IfErr result (λ end. end ≡ WatchedEnd.SourceFault → S.over outcomes.old ≡ false) }
        ensures unread { IfErr result (λ end. end ≡ WatchedEnd.SourceFault → S.rest outcomes.new ≡ S.rest outcomes.old) }
        ensures fitting { S.careful outcomes.old ≡ true → Accords (S.agrees outcomes.old) self.old → IfErr result IsExpected }
        ensures quiet { IfErr result (IsQuietAt (S.broke outcomes.new) (V.quiet watcher.now)) }
    {
        match outcomes.next(self.course.flight()) {
            Next::Answer(answer) => match self.take(answer) {
                Ok(()) => Ok(answer),
                Err(refused) => Err(WatchedEnd::Unexpected(refused.answer)),
            },
            Next::Silent => Ok(self.end_silently()),
            Next::Failed => Err(WatchedEnd::SourceFault),
        }
    }

    /// The source is asked, where none may begin and something is in flight, and the watcher is told of the answer that was
    /// taken; else it says how the transition ends here. Before the source may keep it waiting, the watcher is told so.
    pub(crate) fn go_on<S: Outcomes, V: Watcher>(
        &mut self,
        outcomes: &mut S,
        watcher: &mut V,
    ) -> Option<WatchedEnd>
        requires waiting { IsWaiting (transition_in self.old) self.old.since }
        requires under_way { IsUnderWay self.old }
        ensures on { IfNone result (Advanced (S.whole outcomes.old) self.old self.new (S.rest outcomes.old) (S.rest outcomes.new)) }
        ensures steps { IfSome result (WentByEnd (S.whole outcomes.old) self.old self.new (S.rest outcomes.old) (S.rest outcomes.new)) }
        ensures end { IfSome result (EndsAs self.new) }
        ensures going { IfSome result (λ end. ¬ EndedByItself end) }
        ensures under_way { IsUnderWay self.new }

        ensures source { SourceLasts S.Outcomes outcomes.old outcomes.new (round_word result) }
        ensures asked { S.asked outcomes.new ≤ S.asked outcomes.old + 1 }
        ensures questions { IfSome result (λ end. AskedBeside (questions_beside end) (S.asked outcomes.old) (S.asked outcomes.new) self.old.since self.new.since) }
        ensures aborted { IsAbortAnswered self.old self.new (S.answered outcomes.old) (S.answered outcomes.new) }
        ensures agrees { Accords (S.agrees outcomes.old) self.old → Accords (S.agrees outcomes.new) self.new }
        ensures said { S.steady outcomes.old ≡ true → S.over outcomes.new ≡ false
            → IfNone result (WentAsSaid self.old self.new (S.rest outcomes.old) (S.rest outcomes.new)) }
        ensures failed { S.steady outcomes.old ≡ true → result ≡ Some WatchedEnd.SourceFault → self.new ≡ self.old }
        ensures not_over { result ≡ Some WatchedEnd.SourceFault → S.over outcomes.old ≡ false }
        ensures unread { result ≡ Some WatchedEnd.SourceFault → S.rest outcomes.new ≡ S.rest outcomes.old }
        ensures fitting { S.careful outcomes.old ≡ true → Accords (S.agrees outcomes.old) self.old → IfSome result IsExpected }

        ensures told { IsToldUpTo (V.follows watcher.old watcher.new) (V.stopped watcher.old watcher.new) (S.whole outcomes.old) self.old self.new
            (S.rest outcomes.old) (S.rest outcomes.new) (heard_in result) }
        ensures watcher { WatcherLasts V.Watcher watcher.old watcher.new (heard_in result) }
        ensures quiet { IfSome result (IsQuietAt (S.broke outcomes.new) (V.quiet watcher.new)) }
        ensures shown { IsShownAll (V.shown watcher.old Heard.Go) self.old → IsShownAll (V.shown watcher.new (heard_in result)) self.new }
    {
        if let Heard::Stop = wait_for(outcomes, watcher) {
            return Some(WatchedEnd::Stopped);
        }
        match self.ask(outcomes, watcher) {
            Ok(answer) => match watcher.taken(answer) {
                Heard::Go => None,
                Heard::Stop => Some(WatchedEnd::Stopped),
            },
            Err(end) => Some(end),
        }
    }
}
