//! Each law is a function that does nothing, and whose contract is the law.

ghost use Rattle.std.specs.Prelude.{◌<◌, ◌≤◌, ◌+◌, ◌^◌, ◌∷◌, ◌++◌, ℕ, Bool, List, [], Option, Some, length, map, Contains};
ghost use Rattle.std.specs.List.{AllByRecursion};
ghost use Rattle.cluster_types.specs.declared.cluster.Cluster.{Cluster as ClusterOf};
ghost use Rattle.cluster_types.specs.declared.journal.Answer.{Answer as AnswerOf};
ghost use Rattle.cluster_types.specs.declared.journal.Event.{Event as EventOf};
ghost use Rattle.cluster_types.specs.declared.journal.Promotion.{Promotion as PromotionOf};
ghost use Rattle.cluster_types.specs.declared.run.RunLine.{RunLine as LineOf};
ghost use Rattle.cluster_types.specs.declared.run.RunLine.TheVariants as line;
ghost use Rattle.cluster_types.specs.Runs.{RunStanding, due, Runs, IsCutRun, IsRunSoFar, IsStoppedRun, IsWholeRun};
ghost use Rattle.cluster_types.specs.Valid.{IsValid};
ghost use Rattle.run_safety.specs.TwoRuns.{transition_number_at};
ghost use Rattle.input_reading.specs.declared.input.reading.Input.{Input as InputOf};
ghost use Rattle.input_reading.specs.declared.results.result_lines.ResultLine.{ResultLine as ResultOf};
ghost use Rattle.input_reading.specs.Reading.{ReadsInput, most_bytes};
ghost use Rattle.input_reading.specs.PrintedLines.{IsLineOf, IsNumber, ReadsAgain};
ghost use Rattle.input_reading.specs.ResultFields.{AnswerFieldsFit};
ghost use Rattle.written_runs.specs.Fitting.{AnswersFit, IntervalsFit};

/// Each line that a run of a valid cluster prints is a line of the cluster: its leaves and nodes are the cluster's, the rule that holds a leaf back has a name,
/// and its numbers have 32 bits, as long as those of the transitions, of intervals and of answers have.
pub fn runs_print_lines_of_their_cluster()
    ensures { (c : ClusterOf) (promotions : List PromotionOf) (whole : Bool) (es : List EventOf) (rest left : Option (List AnswerOf)) (lines : List LineOf) (at : RunStanding)
        → IsValid c → IntervalsFit c → AnswersFit rest lines → Runs c promotions whole (due 1 es) rest lines at left → transition_number_at at < 2 ^ 32
        → AllByRecursion (IsLineOf c) lines }
{}

/// So what is written of a run reads again. Where the answers to come are told, the transitions are few as soon as the answers are; this is said of a whole
/// run, of a run so far, of one that is cut, with the line that says so behind its lines, and of one that is stopped.
pub fn texts_of_runs_read_again()
    ensures text { (c : ClusterOf) (promotions : List PromotionOf) (whole : Bool) (es : List EventOf) (rest left : Option (List AnswerOf)) (lines : List LineOf) (at : RunStanding)
        → IsValid c → IntervalsFit c → AnswersFit rest lines → Runs c promotions whole (due 1 es) rest lines at left → transition_number_at at < 2 ^ 32
        → ReadsAgain c lines }
    ensures whole_run { (c : ClusterOf) (promotions : List PromotionOf) (whole : Bool) (es left : List EventOf) (answers : List AnswerOf) (lines : List LineOf)
        → IsValid c → IntervalsFit c → AllByRecursion AnswerFieldsFit answers → length answers + 1 < 2 ^ 32 → IsWholeRun c promotions whole es (Some answers) lines left
        → ReadsAgain c lines }
    ensures so_far { (c : ClusterOf) (promotions : List PromotionOf) (whole : Bool) (es left : List EventOf) (answers : List AnswerOf) (behind : Option (List AnswerOf)) (lines : List LineOf)
        → IsValid c → IntervalsFit c → AllByRecursion AnswerFieldsFit answers → length answers + 1 < 2 ^ 32 → IsRunSoFar c promotions whole es (Some answers) lines left behind
        → ReadsAgain c lines }
    ensures cut { (c : ClusterOf) (promotions : List PromotionOf) (whole : Bool) (es left : List EventOf) (answers : List AnswerOf) (behind : Option (List AnswerOf)) (given : AnswerOf) (lines : List LineOf) (l : ℕ)
        → IsValid c → IntervalsFit c → AllByRecursion AnswerFieldsFit answers → length answers + 1 < 2 ^ 32 → IsCutRun c promotions whole es (Some answers) lines left given behind
        → IsNumber l → ReadsAgain c (lines ++ line.Unexpected l ∷ []) }
    ensures stopped { (c : ClusterOf) (promotions : List PromotionOf) (whole : Bool) (es left : List EventOf) (answers : List AnswerOf) (behind : Option (List AnswerOf)) (told call closing : List LineOf)
        → IsValid c → IntervalsFit c → AllByRecursion AnswerFieldsFit answers → length answers + 1 < 2 ^ 32 → IsStoppedRun c promotions whole es (Some answers) told call closing left behind
        → ReadsAgain c ((told ++ call) ++ closing) }
{}

/// What is read of a text is so: the intervals of its monitors have 32 bits, its answers are few, and the lines of its answers have numbers of 32 bits, where
/// the text has at most 16 MiB. (That its exit codes and the intervals of its reports fit is a law of `input_reading`.)
pub fn what_is_read_fits()
    ensures intervals { (text : List ℕ) (input : InputOf) → ReadsInput text input → IntervalsFit input.head.cluster }
    ensures few { (text : List ℕ) (input : InputOf) → ReadsInput text input → length (map (λ (result : ResultOf). result.answer) input.results) + 1 < 2 ^ 32 }
    ensures lines { (text : List ℕ) (input : InputOf) → ReadsInput text input → length text ≤ most_bytes
        → AllByRecursion (λ (result : ResultOf). IsNumber result.line) input.results }
{}

/// So the run of a text reads again, whatever the text: a whole run; and of a text of at most 16 MiB one that is cut by an answer of the text, with the line
/// `unexpected LINE` behind its lines.
pub fn runs_of_texts_read_again()
    ensures whole_run { (text : List ℕ) (input : InputOf) (whole : Bool) (left : List EventOf) (lines : List LineOf) → ReadsInput text input
        → IsWholeRun input.head.cluster input.head.journal.promotions whole input.head.journal.events
        (Some (map (λ (result : ResultOf). result.answer) input.results)) lines left
        → ReadsAgain input.head.cluster lines }
    ensures cut { (text : List ℕ) (input : InputOf) (whole : Bool) (result : ResultOf) (left : List EventOf) (behind : Option (List AnswerOf)) (lines : List LineOf)
        → ReadsInput text input → length text ≤ most_bytes → Contains input.results result
        → IsCutRun input.head.cluster input.head.journal.promotions whole input.head.journal.events
        (Some (map (λ (result : ResultOf). result.answer) input.results)) lines left result.answer behind
        → ReadsAgain input.head.cluster (lines ++ line.Unexpected result.line ∷ []) }
{}
