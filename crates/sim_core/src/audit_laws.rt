//! What follows from the definitions of `specs/`, for every valid cluster.

ghost use Rattle.std.specs.Prelude.{◌≡◌, ℕ, Bool, List, Option};
ghost use Rattle.cluster_types.specs.declared.cluster.Cluster.{Cluster as ClusterOf};
ghost use Rattle.cluster_types.specs.declared.journal.Answer.{Answer as AnswerOf};
ghost use Rattle.cluster_types.specs.declared.journal.Event.{Event as EventOf};
ghost use Rattle.cluster_types.specs.declared.journal.Journal.{Journal as JournalOf};
ghost use Rattle.cluster_types.specs.declared.run.RunLine.{RunLine as LineOf};
ghost use Rattle.cluster_types.specs.Runs.{IsWholeRun};
ghost use Rattle.sim_core.specs.declared.verdict.Clause.{Clause as ClauseOf};
ghost use Rattle.sim_core.specs.Audit.{IsAuditOutput, lawful_text};
ghost use Rattle.sim_core.specs.LawfulRuns.{IsFaultyPlace, IsLawfulRun};
ghost use Rattle.sim_core.specs.Replay.{IsReplayOutput};
ghost use Rattle.sim_core.specs.TraceSection.{AreWholeLines, before_results, with_trace_section};
ghost use Rattle.sim_core.specs.declared.status.Status.TheVariants.{Done};

/// A run with a line that isn't the due one isn't lawful.
pub fn faulty_runs_are_not_lawful()
    ensures { (c : ClusterOf) (journal : JournalOf) (lines : List LineOf) (place : ℕ) (kind : ClauseOf)
        → IsFaultyPlace c journal lines place kind → ¬ IsLawfulRun c journal lines }
{}

/// A run has at most one first line that isn't the due one.
pub fn faulty_lines_are_unique()
    ensures { (c : ClusterOf) (journal : JournalOf) (lines : List LineOf) (one other : ℕ) (kind sort : ClauseOf)
        → IsFaultyPlace c journal lines one kind → IsFaultyPlace c journal lines other sort → (one ≡ other) × (kind ≡ sort) }
{}

/// The lines of a whole run are lawful, whatever answers are to come, told or not.
pub fn whole_runs_are_lawful()
    ensures { (c : ClusterOf) (journal : JournalOf) (whole : Bool) (rest : Option (List AnswerOf)) (lines : List LineOf) (left : List EventOf)
        → IsWholeRun c journal.promotions whole journal.events rest lines left → IsLawfulRun c journal lines }
{}

/// What `replay` writes of an input with status 0 is lawful in the place of its results, and behind the input where it has none: `audit` writes `lawful` for what
/// stands before the results, a line `%trace` and that text. An input without results must consist of whole lines, so that `%trace` begins one of its own: its
/// last line has its line end, and no backslash continues it. (An input of more than 16 MiB is none to the program: of a run that is so long it says that, with status 7.)
pub fn what_replay_writes_is_lawful()
    ensures { (input text : List ℕ) → (before_results input ≡ input → AreWholeLines input) → IsReplayOutput input Done text
        → IsAuditOutput (with_trace_section input text) Done lawful_text }
{}
