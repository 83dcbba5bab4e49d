//! Laws of the definitions. Each is a function that does nothing, and whose contract is the law.

ghost use Rattle.std.specs.Prelude.{◌≡◌, ◌⊎◌, ℕ, List, [], map};
ghost use Rattle.std.specs.List.{AllByRecursion};
ghost use Rattle.cluster_types.specs.Journals.{Orderly, in_flight_by_begin};
ghost use Rattle.cluster_types.specs.Valid.{IsValid};
ghost use Rattle.input_reading.specs.Reading.{IsFaultyText, IsReadable, IsTextRefused, ReadsInput, most_bytes};
ghost use Rattle.input_reading.specs.ResultFields.{AnswerFieldsFit};
ghost use Rattle.input_reading.specs.Traces.{IsFaultyTrace, IsReadableTrace, IsTraceRefused, ReadsTrace};
ghost use Rattle.input_reading.specs.declared.input.cause.InputCause.{InputCause as CauseOf};
ghost use Rattle.input_reading.specs.declared.input.reading.Input.{Input as InputOf};
ghost use Rattle.input_reading.specs.declared.input.reading.TheConstants.{MOST_BYTES};
ghost use Rattle.input_reading.specs.declared.input.trace.Trace.{Trace as TraceOf};
ghost use Rattle.input_reading.specs.declared.results.result_lines.ResultLine.{ResultLine as ResultOf};

/// A text is read as one input, or it has one fault, and never both.
pub fn readings_are_unique()
    ensures either { (text : List ℕ) → IsReadable text ⊎ IsFaultyText text }
    ensures not_both { (text : List ℕ) → IsReadable text → ¬ IsFaultyText text }
    ensures one_input { (text : List ℕ) (one other : InputOf) → ReadsInput text one → ReadsInput text other → one ≡ other }
    ensures one_fault { (text : List ℕ) (line other : ℕ) (why cause : CauseOf) → IsTextRefused text line why → IsTextRefused text other cause
        → (line ≡ other) × (why ≡ cause) }
{}

/// So it is with a text with a trace.
pub fn readings_of_a_trace_are_unique()
    ensures either { (text : List ℕ) → IsReadableTrace text ⊎ IsFaultyTrace text }
    ensures not_both { (text : List ℕ) → IsReadableTrace text → ¬ IsFaultyTrace text }
    ensures one_trace { (text : List ℕ) (one other : TraceOf) → ReadsTrace text one → ReadsTrace text other → one ≡ other }
    ensures one_fault { (text : List ℕ) (line other : ℕ) (why cause : CauseOf) → IsTraceRefused text line why → IsTraceRefused text other cause
        → (line ≡ other) × (why ≡ cause) }
{}

/// What is read of a text is valid: its cluster is, and its first journal is in order and has nothing in flight.
pub fn what_is_read_is_valid()
    ensures cluster { (text : List ℕ) (input : InputOf) → ReadsInput text input → IsValid input.head.cluster }
    ensures orderly { (text : List ℕ) (input : InputOf) → ReadsInput text input → Orderly input.head.journal.events }
    ensures idle { (text : List ℕ) (input : InputOf) → ReadsInput text input → in_flight_by_begin input.head.journal.events ≡ [] }
{}

/// The exit codes of the answers of a text that is read are bytes, and the intervals of its reports have 32 bits.
pub fn answers_that_are_read_fit()
    ensures { (text : List ℕ) (input : InputOf) → ReadsInput text input
        → AllByRecursion AnswerFieldsFit (map (λ (result : ResultOf). result.answer) input.results) }
{}

/// The limit of an input is the one that the definitions name.
pub fn the_limit_is_told()
    ensures { MOST_BYTES ≡ most_bytes }
{}
