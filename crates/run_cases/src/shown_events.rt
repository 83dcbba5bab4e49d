//! Events in short.

use cluster_types::{Event, Outcome};

/// An event in short.
pub(crate) enum Shown {
    /// The action of this number began.
    Begin(u32),
    /// It ended so.
    End(u32, Outcome),
    /// Something else happened.
    Other(Event),
}

pub(crate) const DONE: Outcome = Outcome::Code(0);

pub(crate) const FAILED: Outcome = Outcome::Code(1);

pub(crate) const NOT_RUNNING: Outcome = Outcome::Code(7);

fn is_shown(event: &Event, shown: &Shown) -> bool {
    match (event, shown) {
        (Event::Begin { number, .. }, Shown::Begin(expected)) => *number == *expected,
        (
            Event::Ended {
                number,
                outcome,
                ..
            },
            Shown::End(expected, how),
        ) => *number == *expected && *outcome == *how,
        (event, Shown::Other(expected)) => *event == *expected,
        _ => false,
    }
}

/// The events from a position on are these.
pub(crate) fn are_shown(events: &[Event], from: usize, expected: &[Shown]) -> bool {
    match events.get(from..) {
        Some(since) => {
            since.len() == expected.len()
                && since
                    .iter()
                    .zip(expected)
                    .all(|(event, shown)| is_shown(event, shown))
        }
        None => false,
    }
}
