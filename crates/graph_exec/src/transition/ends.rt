//! How a transition ended.

ghost use Rattle.std.specs.Prelude.{◌≡◌, ◌≢◌};
ghost use Rattle.graph_exec.specs.WatchedTransitions.{watched};

use cluster_types::{Answer, Event};

/// How a transition ended.
#[derive(Clone, Copy, Debug, PartialEq, Eq)]
pub enum End {
    /// Each action succeeded.
    Complete,
    /// This event, the first that did, aborted it.
    Aborted(Event),
    /// This answer came, and doesn't apply.
    Unexpected(Answer),
    SourceFault,
}

/// How a transition ended that was watched: as [`End`] says, or stopped by the watcher.
#[derive(Clone, Copy, Debug, PartialEq, Eq)]
pub enum WatchedEnd {
    Complete,
    Aborted(Event),
    Unexpected(Answer),
    SourceFault,
    Stopped,
}

/// The end of a transition that no watcher stopped.
pub(crate) fn without_watcher(end: WatchedEnd) -> End
    requires { end ≢ WatchedEnd.Stopped }
    ensures { watched result ≡ end }
{
    match end {
        WatchedEnd::Complete => End::Complete,
        WatchedEnd::Aborted(event) => End::Aborted(event),
        WatchedEnd::Unexpected(answer) => End::Unexpected(answer),
        WatchedEnd::SourceFault => End::SourceFault,
        WatchedEnd::Stopped => unreachable!(),
    }
}
