//! Laws of how many transitions a run has, and of the lines up to a place between two of them.

ghost use Rattle.std.specs.Prelude.{◌≡◌, ◌<◌, ◌≤◌, ◌+◌, ℕ, List, Bool, false, Option};
ghost use Rattle.cluster_types.specs.declared.cluster.Cluster.{Cluster as ClusterOf};
ghost use Rattle.cluster_types.specs.declared.journal.Answer.{Answer as AnswerOf};
ghost use Rattle.cluster_types.specs.declared.journal.Event.{Event as EventOf};
ghost use Rattle.cluster_types.specs.declared.journal.Promotion.{Promotion as PromotionOf};
ghost use Rattle.cluster_types.specs.declared.run.RunLine.{RunLine as LineOf};
ghost use Rattle.cluster_types.specs.Runs.{RunStanding, due, Runs, IsBetween, IsRunUpTo, IsWholeRun};
ghost use Rattle.cluster_types.specs.Steps.{Transition, StepsOn};
ghost use Rattle.run_safety.specs.TwoRuns.{EndsBetween, IsNoSilentEnd, AreAnswersTold, count_told, transition_number_at};

/// Each transition but the last takes an answer: the number of a transition is at most one more than the answers that were taken.
pub fn transitions_are_few()
    ensures { (c : ClusterOf) (promotions : List PromotionOf) (whole : Bool) (es : List EventOf) (rest left : Option (List AnswerOf)) (lines : List LineOf) (at : RunStanding)
        → AreAnswersTold rest → Runs c promotions whole (due 1 es) rest lines at left → transition_number_at at + count_told left ≤ 1 + count_told rest }
{}

/// So where more transitions are allowed than there are answers to come, a run isn't broken off for their number.
pub fn enough_transitions_are_allowed()
    ensures { (c : ClusterOf) (promotions : List PromotionOf) (whole : Bool) (most : ℕ) (es journal : List EventOf) (rest left : Option (List AnswerOf)) (lines : List LineOf)
        → AreAnswersTold rest → count_told rest < most → ¬ IsRunUpTo c promotions whole most es rest lines journal left }
{}

/// Where the answers to come are known to be not all, no action ends silently.
pub fn nothing_is_silent_where_answers_lack()
    ensures { (t : Transition) (since events : List EventOf) (rest left : Option (List AnswerOf))
        → AreAnswersTold rest → StepsOn t false since rest events left → IsNoSilentEnd t false since rest events left }
{}

/// And no run is over.
pub fn no_run_is_whole_where_answers_lack()
    ensures { (c : ClusterOf) (promotions : List PromotionOf) (es left : List EventOf) (rest : Option (List AnswerOf)) (lines : List LineOf)
        → AreAnswersTold rest → ¬ IsWholeRun c promotions false es rest lines left }
{}

/// The lines up to a place between two transitions end with the line of a transition that is complete or aborted, or with the answer behind a complete one; or
/// there are none yet.
pub fn lines_between_transitions_end_one()
    ensures { (c : ClusterOf) (promotions : List PromotionOf) (whole : Bool) (es : List EventOf) (at : RunStanding) (rest left : Option (List AnswerOf)) (lines : List LineOf)
        → Runs c promotions whole (due 1 es) rest lines at left → IsBetween at → EndsBetween es at lines }
{}
