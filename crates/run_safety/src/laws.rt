//! Laws of the definitions. Each is a function that does nothing, and whose contract is the law.

ghost use Rattle.std.specs.Prelude.{◌≡◌, ◌<◌, ◌≤◌, ◌+◌, ◌^◌, ◌++◌, ℕ, Bool, true, false, List, [], Option, Some, length};
ghost use Rattle.cluster_types.specs.declared.cluster.Cluster.{Cluster as ClusterOf};
ghost use Rattle.cluster_types.specs.declared.journal.Action.{Action as ActionOf};
ghost use Rattle.cluster_types.specs.declared.journal.Answer.{Answer as AnswerOf};
ghost use Rattle.cluster_types.specs.declared.journal.Event.{Event as EventOf};
ghost use Rattle.cluster_types.specs.declared.journal.Promotion.{Promotion as PromotionOf};
ghost use Rattle.cluster_types.specs.declared.run.RunLine.{RunLine as LineOf};
ghost use Rattle.cluster_types.specs.Steps.{Transition, StepsOn, GoesBySteps, HasEnded};
ghost use Rattle.cluster_types.specs.Runs.{RunStanding, RunsOn, Runs};
ghost use Rattle.run_safety.specs.TwoRuns.{AreAnswersTold, AreOnOneWay, IsPartOfRun};

/// Where the answers to come are told, a transition goes on in one way.
pub fn steps_are_unique()
    ensures { (t : Transition) (whole : Bool) (since events others : List EventOf) (rest left other : Option (List AnswerOf))
        → AreAnswersTold rest → StepsOn t whole since rest events left → StepsOn t whole since rest others other → (events ≡ others) × (left ≡ other) }
{}

/// So it is with a run, since a journal has one plan: where the answers to come are told, it goes on in one way.
pub fn continuations_of_runs_are_unique()
    ensures { (c : ClusterOf) (promotions : List PromotionOf) (whole : Bool) (at next after : RunStanding) (lines others : List LineOf) (rest left other : Option (List AnswerOf))
        → AreAnswersTold rest → RunsOn c promotions whole at rest lines next left → RunsOn c promotions whole at rest others after other
        → (lines ≡ others) × (next ≡ after) × (left ≡ other) }
{}

/// Of two runs from one place, over the same answers, the one goes on from where the other stands.
pub fn one_of_two_runs_goes_on()
    ensures { (c : ClusterOf) (promotions : List PromotionOf) (whole : Bool) (at p q : RunStanding) (lines others : List LineOf) (rest left right : Option (List AnswerOf))
        → AreAnswersTold rest → Runs c promotions whole at rest lines p left → Runs c promotions whole at rest others q right
        → AreOnOneWay c promotions whole lines p left others q right }
{}

/// Over answers that are told a transition ends in one way at most.
pub fn ends_of_transitions_are_unique()
    ensures { (t : Transition) (whole : Bool) (since events others : List EventOf) (rest left right : Option (List AnswerOf))
        → AreAnswersTold rest → GoesBySteps t whole since rest events left → GoesBySteps t whole since rest others right → HasEnded t events → HasEnded t others → (events ≡ others) × (left ≡ right) }
{}

/// The steps of a transition are those of a run.
pub fn transitions_are_parts_of_runs()
    ensures { (c : ClusterOf) (promotions : List PromotionOf) (whole : Bool) (k : ℕ) (t : Transition) (since later : List EventOf) (rest left : Option (List AnswerOf))
        → GoesBySteps t whole since rest later left → IsPartOfRun c promotions whole k t since later rest left }
{}
