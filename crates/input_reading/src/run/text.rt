use crate::WordCause;
use cluster_types::RunLine;
use faults::Fault;
use listed::Listed;

/// A line of a run that was read, and where it stands.
#[derive(PartialEq, Eq, Drop)]
pub struct RunTextLine {
    /// The physical line, counted from 1, where the logical line begins.
    pub line: u32,
    /// What it says.
    pub what: RunLine,
}

/// The lines of a run that were read, in order.
#[derive(PartialEq, Eq, Drop)]
pub struct RunText {
    pub lines: Listed<RunTextLine>,
}

/// Why the lines of a run aren't read: the first faulty line with its cause, or out of memory. Of a line the leftmost
/// faulty word counts.
pub type TraceFault = Fault<WordCause>;
