//! Lines as a source of outcomes.

use crate::line_outcomes::LineOutcomes;
use cluster_io::Source;
use cluster_types::Action;
use graph_exec::{InFlight, Next, Outcomes};

impl<'c, 's, S: Source> Outcomes for LineOutcomes<'c, 's, S> {
    ghost use Rattle.std.specs.Prelude.{◌≡◌, true, false, Some};
    ghost use Rattle.live_run.specs.AnswersAtHand.{IsAtHand};
    ghost use Rattle.live_run.specs.Courses.{faults_of, has_course_ended, rest_of, stop_of, told_by, whole_of};
    ghost use Rattle.live_run.specs.declared.line_stop.LineStop.TheVariants.{ReadFault};
    ghost use Rattle.live_run.specs.SourceFollowed.{HasFollowed, HasSaid};
    ghost use Rattle.live_run.specs.LineSources.{outcomes_source, state_of, outcomes_view};
    ghost use Rattle.live_run.specs.Inner.SourceFollowedLaws.{followed_itself, followed_said, followed_then, said_behind};

    ghost rest = { λ o. rest_of (told_by (state_of o) (S.left (outcomes_source o))) };

    ghost whole = { λ o. whole_of (told_by (state_of o) (S.left (outcomes_source o))) };

    ghost faults = { λ o. faults_of (state_of o) (S.faults (outcomes_source o)) };

    ghost asked = { λ o. o.asked };

    ghost answered = { λ o. (state_of o).lines.at.before };

    ghost careful = { λ _. false };

    ghost steady = { λ _. true };

    ghost over = { λ o. has_course_ended (state_of o).course };

    ghost at_hand = { λ o. IsAtHand (state_of o) };

    ghost broke = { λ o. stop_of (state_of o) ≡ Some ReadFault };

    ghost agrees = { λ _ _ _ _. Unit {0} };

    ghost follows = { λ old new. HasFollowed S.counts_only_failures (outcomes_view S.left S.faults old) (outcomes_view S.left S.faults new) };

    ghost said = { λ old new brought. HasSaid S.counts_only_failures (outcomes_view S.left S.faults old) (outcomes_view S.left S.faults new) brought };

    ghost anew = { λ _ _ _ _ agreed. agreed };

    ghost from_itself = { λ source. followed_itself S.counts_only_failures (outcomes_view S.left S.faults source) };

    ghost from_before = { λ first middle last. followed_then S.counts_only_failures (outcomes_view S.left S.faults first)
        (outcomes_view S.left S.faults middle) (outcomes_view S.left S.faults last) };

    ghost from_said = { λ first last. followed_said S.counts_only_failures (outcomes_view S.left S.faults first) (outcomes_view S.left S.faults last) };

    ghost said_later = { λ first middle last. said_behind S.counts_only_failures (outcomes_view S.left S.faults first)
        (outcomes_view S.left S.faults middle) (outcomes_view S.left S.faults last) };

    fn begun(&mut self, _number: u32, _action: Action) {}

    fn is_ready(&self) -> bool {
        self.is_at_hand()
    }

    fn next(&mut self, _flight: &InFlight) -> Next {
        self.ask()
    }
}
