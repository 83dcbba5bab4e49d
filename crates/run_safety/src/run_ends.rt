//! Laws of how a run ends.

ghost use Rattle.std.specs.Prelude.{◌≡◌, List, Bool, Option};
ghost use Rattle.cluster_types.specs.declared.cluster.Cluster.{Cluster as ClusterOf};
ghost use Rattle.cluster_types.specs.declared.journal.Answer.{Answer as AnswerOf};
ghost use Rattle.cluster_types.specs.declared.journal.Event.{Event as EventOf};
ghost use Rattle.cluster_types.specs.declared.journal.Promotion.{Promotion as PromotionOf};
ghost use Rattle.cluster_types.specs.declared.run.RunLine.{RunLine as LineOf};
ghost use Rattle.cluster_types.specs.Runs.{RunStanding, due, Runs, IsCutRun, IsWholeRun, journal_at};
ghost use Rattle.run_safety.specs.TwoRuns.{AreAnswersTold, IsFront};

/// Over answers that are told a journal has one whole run at most: its lines, and the journal that it leaves.
pub fn whole_runs_are_unique()
    ensures { (c : ClusterOf) (promotions : List PromotionOf) (whole : Bool) (es : List EventOf) (rest : Option (List AnswerOf)) (left right : List EventOf) (lines others : List LineOf)
        → AreAnswersTold rest → IsWholeRun c promotions whole es rest lines left → IsWholeRun c promotions whole es rest others right
        → (lines ≡ others) × (left ≡ right) }
{}

/// Over answers that are told a run is cut in at most one way: by one answer, behind one list of lines.
pub fn cut_runs_are_unique()
    ensures { (c : ClusterOf) (promotions : List PromotionOf) (whole : Bool) (es : List EventOf) (rest : Option (List AnswerOf)) (left right : List EventOf) (lines others : List LineOf)
        (given other : AnswerOf) (behind unread : Option (List AnswerOf))
        → AreAnswersTold rest → IsCutRun c promotions whole es rest lines left given behind → IsCutRun c promotions whole es rest others right other unread
        → (lines ≡ others) × (left ≡ right) × (given ≡ other) × (behind ≡ unread) }
{}

/// Where it has a whole run, none is cut.
pub fn whole_runs_are_not_cut()
    ensures { (c : ClusterOf) (promotions : List PromotionOf) (whole : Bool) (es : List EventOf) (rest : Option (List AnswerOf)) (left right : List EventOf) (lines others : List LineOf)
        (given : AnswerOf) (behind : Option (List AnswerOf))
        → AreAnswersTold rest → IsWholeRun c promotions whole es rest lines left → ¬ IsCutRun c promotions whole es rest others right given behind }
{}

/// Wherever a run over told answers stands, its lines and its journal are how those of the whole run begin.
pub fn runs_begin_the_whole_run()
    ensures { (c : ClusterOf) (promotions : List PromotionOf) (whole : Bool) (es : List EventOf) (rest : Option (List AnswerOf)) (at : RunStanding) (behind : Option (List AnswerOf))
        (left : List EventOf) (lines others : List LineOf)
        → AreAnswersTold rest → Runs c promotions whole (due 1 es) rest lines at behind → IsWholeRun c promotions whole es rest others left
        → IsFront lines others × IsFront (journal_at at) left }
{}

/// And so it is with the run that is cut.
pub fn runs_begin_the_cut_run()
    ensures { (c : ClusterOf) (promotions : List PromotionOf) (whole : Bool) (es : List EventOf) (rest : Option (List AnswerOf)) (at : RunStanding) (behind unread : Option (List AnswerOf))
        (given : AnswerOf) (left : List EventOf) (lines others : List LineOf)
        → AreAnswersTold rest → Runs c promotions whole (due 1 es) rest lines at behind → IsCutRun c promotions whole es rest others left given unread
        → IsFront lines others × IsFront (journal_at at) left }
{}

/// The journal of a run only grows.
pub fn journals_grow()
    ensures { (c : ClusterOf) (promotions : List PromotionOf) (whole : Bool) (at later : RunStanding) (rest left : Option (List AnswerOf)) (lines : List LineOf)
        → Runs c promotions whole at rest lines later left → IsFront (journal_at at) (journal_at later) }
{}
