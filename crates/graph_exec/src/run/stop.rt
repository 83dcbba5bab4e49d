//! Why a run ends before all is done.

use cluster_types::{Answer, Journal};

/// Why a run ended before all was done. Each but the last hands back what was made so far: its journal, or the run that is
/// kept.
#[derive(Drop)]
pub enum ReplayStop<T> {
    /// This answer came where one was asked for, and doesn't apply.
    Unexpected(T, Answer),
    /// The source failed where an answer was asked for.
    SourceFault(T),
    /// The watcher stopped it.
    Stopped(T),
    /// As many transitions as were allowed were made, and another is due.
    Most(T),
    NoMemory,
}

/// How a run ended: with all done, or before.
pub(crate) type Ended = Result<Journal, ReplayStop<Journal>>;
