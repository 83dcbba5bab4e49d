/// What one call of `LineReader::line` came to.
#[derive(Clone, Copy, Debug, PartialEq, Eq)]
pub enum LineStep {
    /// A logical line: `raw` gives its bytes and `number` its first line.
    Line,

    /// No byte is left.
    End,

    /// The next logical line has too many bytes, line ends left out.
    TooLong,

    /// The next logical line goes past the limit of bytes, and isn't too long before that.
    TooLarge,

    /// The source failed, and has counted it. A further call goes on.
    Failed,
}
