//! Laws of the definitions. Each is a function that does nothing, and whose contract is the law.

ghost use Rattle.std.specs.Prelude.{◌≡◌, ◌≢◌, ℕ, List, Option, Some, is_none};
ghost use Rattle.cluster_types.specs.declared.cluster.Cluster.{Cluster as ClusterOf};
ghost use Rattle.cluster_types.specs.declared.journal.Answer.{Answer as AnswerOf};
ghost use Rattle.cluster_types.specs.declared.journal.Journal.{Journal as JournalOf};
ghost use Rattle.cluster_types.specs.declared.run.RunLine.{RunLine as LineOf};
ghost use Rattle.cluster_types.specs.Runs.{RunStanding, due, Runs};
ghost use Rattle.live_run.specs.AnswersToCome.{Coming, LineReaderAt, coming_of};
ghost use Rattle.live_run.specs.Courses.{answers_to_come};
ghost use Rattle.live_run.specs.declared.line_stop.LineStop.TheVariants.{ReadFault};
ghost use Rattle.live_run.specs.declared.live_end.LiveEnd.{LiveEnd as LiveEndOf};
ghost use Rattle.live_run.specs.Ends.{EndGets, run_lines_text};
ghost use Rattle.run_safety.specs.TwoRuns.{IsFront};

/// A run gets one end and one text.
pub fn ends_are_unique()
    ensures { (c : ClusterOf) (journal : JournalOf) (coming : Coming) (one other : LiveEndOf) (text also : List ℕ)
        → EndGets c journal coming one text → EndGets c journal coming other also → (one ≡ other) × (text ≡ also) }
{}

/// Wherever a run stands, its lines are how the text begins that is due.
pub fn runs_begin_what_is_due()
    ensures { (c : ClusterOf) (journal : JournalOf) (coming : Coming) (at : RunStanding) (behind : Option (List AnswerOf)) (lines : List LineOf) (how : LiveEndOf) (text : List ℕ)
        → Runs c journal.promotions (is_none coming.stop) (due 1 journal.events) (Some (answers_to_come coming)) lines at behind → EndGets c journal coming how text
        → IsFront (run_lines_text c lines) text }
{}

/// What is to come of bytes never says that their source has failed: it stops at a line that is refused or goes past the limit, if it stops.
pub fn lines_say_no_read_fault()
    ensures { (c : ClusterOf) (lines : LineReaderAt) (left : List ℕ) → (coming_of c lines left).stop ≢ Some ReadFault }
{}
