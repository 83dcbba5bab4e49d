//! Laws of runs that stop before they are over.

ghost use Rattle.std.specs.Prelude.{◌≡◌, ◌++◌, List, [], Bool, false, Option, Some};
ghost use Rattle.cluster_types.specs.declared.cluster.Cluster.{Cluster as ClusterOf};
ghost use Rattle.cluster_types.specs.declared.journal.Answer.{Answer as AnswerOf};
ghost use Rattle.cluster_types.specs.declared.journal.Event.{Event as EventOf};
ghost use Rattle.cluster_types.specs.declared.journal.Promotion.{Promotion as PromotionOf};
ghost use Rattle.cluster_types.specs.declared.run.RunLine.{RunLine as LineOf};
ghost use Rattle.cluster_types.specs.Runs.{RunStanding, RunsOn, Runs, IsCutRun, IsRunSoFar, IsStoppedRun, IsWholeRun};
ghost use Rattle.run_safety.specs.TwoRuns.{AreAnswersTold, IsFront};

/// A run goes a step further.
pub fn runs_go_on()
    ensures { (c : ClusterOf) (promotions : List PromotionOf) (whole : Bool) (at middle next : RunStanding) (rest behind left : Option (List AnswerOf)) (lines more : List LineOf)
        → Runs c promotions whole at rest lines middle behind → RunsOn c promotions whole middle behind more next left → Runs c promotions whole at rest (lines ++ more) next left }
{}

/// What was told before a stop is how the whole run begins.
pub fn stopped_runs_begin_the_whole_run()
    ensures { (c : ClusterOf) (promotions : List PromotionOf) (whole : Bool) (es left right : List EventOf) (rest behind : Option (List AnswerOf)) (told call closing others : List LineOf)
        → AreAnswersTold rest → IsStoppedRun c promotions whole es rest told call closing left behind → IsWholeRun c promotions whole es rest others right
        → IsFront ((told ++ call) ++ closing) others × IsFront left right }
{}

/// Where the answers to come are known to be not all, there is one run at most up to where all were taken and one more is asked for.
pub fn runs_so_far_are_unique()
    ensures { (c : ClusterOf) (promotions : List PromotionOf) (es left right : List EventOf) (rest : Option (List AnswerOf)) (lines others : List LineOf)
        → AreAnswersTold rest → IsRunSoFar c promotions false es rest lines left (Some []) → IsRunSoFar c promotions false es rest others right (Some [])
        → (lines ≡ others) × (left ≡ right) }
{}

/// Where there is such a run, it isn't cut.
pub fn runs_so_far_are_not_cut()
    ensures { (c : ClusterOf) (promotions : List PromotionOf) (es left right : List EventOf) (rest behind : Option (List AnswerOf)) (given : AnswerOf) (lines others : List LineOf)
        → AreAnswersTold rest → IsRunSoFar c promotions false es rest lines left (Some []) → ¬ IsCutRun c promotions false es rest others right given behind }
{}
