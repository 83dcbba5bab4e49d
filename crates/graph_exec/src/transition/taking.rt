//! An answer is taken: what it ends is ended, and what it tells from outside is told. Or nothing more is said.

ghost use Rattle.std.specs.Prelude.{◌≡◌, ◌<◌, ◌+◌, ◌^◌, ◌++◌, ◌∷◌, [], true, OnOk, OnErr, IfErr};
ghost use Rattle.cluster_types.specs.declared.journal.Event.TheVariants.{Lost};
ghost use Rattle.cluster_types.specs.AnswersThatApply as answering;
ghost use Rattle.cluster_types.specs.Journals as journals;
ghost use Rattle.cluster_types.specs.Steps.{IsWaiting, answer_events, ended, in_flight_by_number, journal, count_from_outside};
ghost use Rattle.cluster_types.specs.Steps as steps;
ghost use Rattle.graph_exec.specs.Executors.{IsAnswerRefused, Took, transition_in, later};
ghost use Rattle.graph_exec.specs.Inner.ExecutorFields.{EndedSilently, all_gone};

use crate::transition::course::Course;
use crate::transition::meaning::{is_on, is_success, silent_code};
use cluster_types::{Answer, Event, NodeId, Outcome};

/// The answer doesn't apply.
#[derive(Clone, Copy, Debug, PartialEq, Eq)]
pub struct Unexpected {
    pub answer: Answer,
}

impl<'c> Course<'c> {
    /// The action in flight of this number ends so.
    fn end(&mut self, number: u32, outcome: Outcome)
        requires { answering.is_in_flight self.old.cluster (self.old.planned_at ++ self.old.since) (in_flight_by_number (transition_in self.old) self.old.since) number ≡ true }
        ensures { self.new ≡ later self.old (ended (transition_in self.old) self.old.since number outcome) }
    {
        let action = self.flight.graph().action(number);
        let success = is_success(self.log.cluster(), action, outcome);
        let moment = self.log.moment();
        self.log.add(Event::Ended {
            number,
            action,
            outcome,
            moment,
        });
        self.flight.end(number, success);
    }

    /// An event from outside is told.
    fn tell(&mut self, event: Event)
        requires outer { steps.is_from_outside event ≡ true }
        requires few { count_from_outside (transition_in self.old) self.old.since < answering.most_from_outside }
        requires moment { 0 < journals.seconds_of event → journals.moment_of (self.old.planned_at ++ self.old.since) + journals.seconds_of event < 2 ^ 64 }
        ensures { self.new ≡ later self.old (event ∷ []) }
    {
        self.log.add(event);
    }

    /// Each action in flight of a cell on the node is gone, in the order of their numbers.
    fn end_all_on(&mut self, node: NodeId)
        ensures { self.new ≡ later self.old (all_gone self.old node) }
    {
        let mut place = 0;
        while place < self.flight().count() {
            let (number, action) = self.flight().at(place);
            if !is_on(node, action) {
                place += 1;
                continue;
            }
            self.end(number, Outcome::Gone);
        }
    }

    /// The node is lost: what is in flight on it is gone, but for its fencing.
    fn lose(&mut self, node: NodeId)
        requires { count_from_outside (transition_in self.old) self.old.since < answering.most_from_outside }
        ensures { self.new ≡ later self.old (all_gone self.old node ++ Lost node ∷ []) }
    {
        self.end_all_on(node);
        self.tell(Event::Lost { node });
    }

    /// Enters what the answer adds, which applies.
    pub(crate) fn enter(&mut self, answer: Answer)
        requires { answering.applies_after self.old.cluster (journal (transition_in self.old) self.old.since) (in_flight_by_number (transition_in self.old) self.old.since)
            (count_from_outside (transition_in self.old) self.old.since) answer ≡ true }
        ensures { self.new ≡ later self.old (answer_events (transition_in self.old) self.old.since answer) }
    {
        match answer {
            Answer::End { number, code } => self.end(number, Outcome::Code(code)),
            Answer::Timeout { number } => self.end(number, Outcome::TimedOut),
            Answer::Lost { node } => self.lose(node),
            Answer::Up { node } => self.tell(Event::Up { node }),
            Answer::Quorum { yes } => self.tell(Event::Quorum { yes }),
            Answer::Wait { seconds } => self.tell(Event::Wait { seconds }),
            Answer::Report {
                node,
                leaf,
                interval_ms,
                code,
            } => {
                let action = self.monitor_action(leaf, node, interval_ms);
                let moment = self.log.moment();
                self.tell(Event::Ended {
                    number: 0,
                    action,
                    outcome: Outcome::Code(code),
                    moment,
                });
            }
        }
    }

    /// Takes an answer. One that doesn't apply is handed back, and nothing changes.
    pub(crate) fn take(&mut self, answer: Answer) -> Result<(), Unexpected>
        requires { IsWaiting (transition_in self.old) self.old.since }
        ensures ok { OnOk result (Took self.old self.new answer) }
        ensures err { OnErr result (IsAnswerRefused self.old self.new answer) }
        ensures answer { IfErr result (λ refused. refused.answer ≡ answer) }
    {
        if !self.applies(answer) {
            return Err(Unexpected { answer });
        }
        self.enter(answer);
        Ok(())
    }

    /// The first action in flight ends with its silent code. The answer that would say so is given.
    pub(crate) fn end_silently(&mut self) -> Answer
        requires { IsWaiting (transition_in self.old) self.old.since }
        ensures { EndedSilently self.old self.new result }
    {
        let (number, action) = self.flight().at(0);
        let code = silent_code(action);
        self.end(number, Outcome::Code(code));
        Answer::End { number, code }
    }
}
