ghost use Rattle.std.specs.Prelude.{◌≡◌, List, ℕ, Err};
ghost use Rattle.std.specs.List.{concat, AllByRecursion};
ghost use Rattle.crm_lex.specs.RawLines.{physical_lines, raw_lines};
ghost use Rattle.crm_lex.specs.Reading.{reads, faults_from};
ghost use Rattle.crm_lex.specs.Pieces.{line_bytes, reads_each};
ghost use Rattle.crm_lex.specs.FaultOrder.{NotAfter};
ghost use Rattle.crm_lex.specs.declared.fault.LexCause.{LexCause as CauseOf};
ghost use Rattle.faults.specs.declared.fault.Fault.TheVariants.{At};

/// The lines of a text are the lines of its pieces: what `lex_one` says of each logical line with its number is what
/// `logical_lines` says of the whole text, up to the first fault. The pieces joined are the text, and the physical lines of
/// a piece are those of its logical line.
pub fn lines_of_pieces()
    ensures same { (text : List ℕ) → reads text ≡ reads_each 1 (line_bytes text) }
    ensures whole { (text : List ℕ) → concat (line_bytes text) ≡ text }
    ensures lines { (text : List ℕ)
        → AllByRecursion (λ lines. physical_lines (concat lines) ≡ lines) (raw_lines text) }
{}

/// The fault that is read of a text is the first of all its faults: of the lowest line, and there of the first cause in
/// the order `LineTooLong`, `NotUtf8`, `ControlByte`, `OpenQuote`.
pub fn the_first_fault_is_read()
    ensures { (text : List ℕ) (n : ℕ) (cause : CauseOf) → reads text ≡ Err (At n cause)
        → AllByRecursion (NotAfter n cause) (faults_from 1 (raw_lines text)) }
{}
