//! How a run over result lines ends.

/// How a run over result lines ended.
#[derive(Clone, Copy, Debug, PartialEq, Eq)]
pub enum LiveEnd {
    /// The whole run was written, and all lines were read.
    Done,
    /// An answer came that doesn't apply. The run up to it was written, and a line `unexpected LINE`.
    Unexpected,
    /// The line that was asked for isn't read. The run up to there was written, and a line `refused LINE CAUSE`.
    Refused,
    /// The line that was asked for goes past the limit of bytes. The run up to there was written.
    TooLarge,
    /// The source of bytes failed. The run of the lines that were taken whole was written.
    ReadFault,
    /// The sink failed. A front of the text was written, in which of the lines before the last that was told at most 65,536
    /// bytes are missing. No line was asked for since.
    WriteFault,
    /// Memory ran out between two transitions. The run up to there was written.
    NoMemory,
}
