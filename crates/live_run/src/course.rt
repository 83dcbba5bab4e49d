use crate::line_stop::LineStop;

/// Whether a source of answers goes on.
#[derive(Clone, Copy)]
pub(crate) enum Course {
    Reading,
    /// The input has ended.
    Ended,
    /// A line was refused, or went past the limit of bytes.
    Stopped {
        why: LineStop,
        /// How many questions have failed by it. The count stands still at its end.
        times: u64,
    },
}
