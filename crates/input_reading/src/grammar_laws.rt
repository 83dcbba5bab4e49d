//! A line is read just when its words say what is read, by a form of its kind; and so are all lines of a section.

ghost use Rattle.std.specs.Prelude.{◌≡◌, ◌↔◌, ℕ, List, Ok, Err};
ghost use Rattle.cluster_types.specs.declared.cluster.Cluster.{Cluster as ClusterOf};
ghost use Rattle.cluster_types.specs.declared.journal.Answer.{Answer as AnswerOf};
ghost use Rattle.cluster_types.specs.declared.journal.Journal.{Journal as JournalOf};
ghost use Rattle.crm_lex.specs.declared.line.Line.{Line as LineOf};
ghost use Rattle.faults.specs.declared.fault.Fault.TheVariants.{At};
ghost use Rattle.input_reading.specs.declared.history_fault.ResultCause.{ResultCause as ResultCauseOf};
ghost use Rattle.input_reading.specs.declared.history_fault.StatusCause.{StatusCause as StatusCauseOf};
ghost use Rattle.input_reading.specs.declared.results.result_lines.ResultLine.{ResultLine as ResultLineOf};
ghost use Rattle.input_reading.specs.declared.run.text.RunTextLine.{RunTextLine as RunTextLineOf};
ghost use Rattle.input_reading.specs.FirstJournal.{status_journal};
ghost use Rattle.input_reading.specs.Grammar.LinesSaid.{AreResultsRefused, IsRunRefused, IsStatusRefused, ResultsAreSaid, RunIsSaid, StatusIsSaid};
ghost use Rattle.input_reading.specs.Results.{answer_of, results_of};
ghost use Rattle.input_reading.specs.declared.words.word_cause.WordCause.{WordCause as CauseOf};
ghost use Rattle.cluster_types.specs.declared.run.RunLine.{RunLine as RunLineOf};
ghost use Rattle.input_reading.specs.RunReading.{line_of_words, read_run_lines};
ghost use Rattle.input_reading.specs.Status.{told_of};
ghost use Rattle.input_reading.specs.Grammar.ResultForms.{ResultSays};
ghost use Rattle.input_reading.specs.Grammar.RunForms.{RunSays};
ghost use Rattle.input_reading.specs.Grammar.StatusForms.{StatusSays};
ghost use Rattle.input_reading.specs.declared.status.line_meaning.Fact.{Fact as FactOf};

/// The words of a result line are read as an answer, at a moment, just when they say it.
pub fn result_lines_are_read_as_they_say()
    ensures { (c : ClusterOf) (moment : ℕ) (words : List (List ℕ)) (given : AnswerOf)
        → (answer_of c moment words ≡ Ok given) ↔ ResultSays c moment words given }
{}

/// The words of a result line say one answer and no other, so no two answers have the same words.
pub fn answers_of_result_lines_are_unique()
    ensures { (c : ClusterOf) (moment : ℕ) (words : List (List ℕ)) (one other : AnswerOf) → ResultSays c moment words one
        → ResultSays c moment words other → one ≡ other }
{}

/// A result line is refused just when its words say no answer.
pub fn result_lines_that_say_nothing_are_refused()
    ensures refused { (c : ClusterOf) (moment : ℕ) (words : List (List ℕ)) → ((given : AnswerOf) → ResultSays c moment words given → ⊥)
        → (cause : CauseOf) × (answer_of c moment words ≡ Err cause) }
    ensures nothing { (c : ClusterOf) (moment : ℕ) (words : List (List ℕ)) (cause : CauseOf) (given : AnswerOf)
        → answer_of c moment words ≡ Err cause → ResultSays c moment words given → ⊥ }
{}

/// The words of a line of a run are read as what the line says, just when they say it.
pub fn run_lines_are_read_as_they_say()
    ensures { (c : ClusterOf) (words : List (List ℕ)) (line : RunLineOf) → (line_of_words c words ≡ Ok line) ↔ RunSays c words line }
{}

/// The words of a line of a run say one thing and no other, so no two meanings have the same words.
pub fn meanings_of_run_lines_are_unique()
    ensures { (c : ClusterOf) (words : List (List ℕ)) (one other : RunLineOf) → RunSays c words one → RunSays c words other → one ≡ other }
{}

/// A line of a run is refused just when its words say nothing.
pub fn run_lines_that_say_nothing_are_refused()
    ensures refused { (c : ClusterOf) (words : List (List ℕ)) → ((line : RunLineOf) → RunSays c words line → ⊥)
        → (cause : CauseOf) × (line_of_words c words ≡ Err cause) }
    ensures nothing { (c : ClusterOf) (words : List (List ℕ)) (cause : CauseOf) (line : RunLineOf)
        → line_of_words c words ≡ Err cause → RunSays c words line → ⊥ }
{}

/// The words of a line of a status are read as a fact just when they say it.
pub fn status_lines_are_read_as_they_say()
    ensures { (c : ClusterOf) (words : List (List ℕ)) (told : FactOf) → (told_of c words ≡ Ok told) ↔ StatusSays c words told }
{}

/// The words of a line of a status say one fact and no other, so no two facts have the same words.
pub fn facts_of_status_lines_are_unique()
    ensures { (c : ClusterOf) (words : List (List ℕ)) (one other : FactOf) → StatusSays c words one → StatusSays c words other → one ≡ other }
{}

/// A line of a status is refused just when its words say no fact.
pub fn status_lines_that_say_nothing_are_refused()
    ensures refused { (c : ClusterOf) (words : List (List ℕ)) → ((told : FactOf) → StatusSays c words told → ⊥)
        → (cause : CauseOf) × (told_of c words ≡ Err cause) }
    ensures nothing { (c : ClusterOf) (words : List (List ℕ)) (cause : CauseOf) (told : FactOf)
        → told_of c words ≡ Err cause → StatusSays c words told → ⊥ }
{}

/// The lines of a status are read as a journal just when they say it, and else one of them is refused. They are never both.
pub fn a_status_is_read_as_its_lines_say()
    ensures read { (c : ClusterOf) (lines : List LineOf) (journal : JournalOf) → (status_journal c lines ≡ Ok journal) ↔ StatusIsSaid c lines journal }
    ensures refused { (c : ClusterOf) (lines : List LineOf) (number : ℕ) (cause : StatusCauseOf)
        → status_journal c lines ≡ Err (At number cause) → IsStatusRefused c lines number cause }
    ensures not_both { (c : ClusterOf) (lines : List LineOf) (journal : JournalOf) (number : ℕ) (cause : StatusCauseOf)
        → StatusIsSaid c lines journal → IsStatusRefused c lines number cause → ⊥ }
{}

/// Result lines are read as answers just when they say them, and else one of them is refused. They are never both.
pub fn results_are_read_as_their_lines_say()
    ensures read { (c : ClusterOf) (start : ℕ) (lines : List LineOf) (results : List ResultLineOf)
        → (results_of c start lines ≡ Ok results) ↔ ResultsAreSaid c start lines results }
    ensures refused { (c : ClusterOf) (start : ℕ) (lines : List LineOf) (number : ℕ) (cause : ResultCauseOf)
        → results_of c start lines ≡ Err (At number cause) → AreResultsRefused c start lines number cause }
    ensures not_both { (c : ClusterOf) (start : ℕ) (lines : List LineOf) (results : List ResultLineOf) (number : ℕ) (cause : ResultCauseOf)
        → ResultsAreSaid c start lines results → AreResultsRefused c start lines number cause → ⊥ }
{}

/// The lines of a run are read as what they say just when they say it, and else one of them is refused. They are never both.
pub fn a_run_is_read_as_its_lines_say()
    ensures read { (c : ClusterOf) (lines : List LineOf) (run : List RunTextLineOf) → (read_run_lines c lines ≡ Ok run) ↔ RunIsSaid c lines run }
    ensures refused { (c : ClusterOf) (lines : List LineOf) (number : ℕ) (cause : CauseOf)
        → read_run_lines c lines ≡ Err (At number cause) → IsRunRefused c lines number cause }
    ensures not_both { (c : ClusterOf) (lines : List LineOf) (run : List RunTextLineOf) (number : ℕ) (cause : CauseOf)
        → RunIsSaid c lines run → IsRunRefused c lines number cause → ⊥ }
{}
