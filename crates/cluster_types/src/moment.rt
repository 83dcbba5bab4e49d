//! The seconds that go by, and the moment at the end of a journal.

ghost use Rattle.std.specs.Prelude.{◌≡◌};
ghost use Rattle.cluster_types.specs.AnswersThatApply.{seconds_in};
ghost use Rattle.cluster_types.specs.Journals as journals;

use crate::journal::{Answer, Event};

impl Event {
    /// The seconds that go by with the event.
    pub fn seconds(self) -> u64
        ensures { result ≡ journals.seconds_of self }
    {
        match self {
            Event::Wait { seconds } => seconds,
            _ => 0,
        }
    }
}

impl Answer {
    /// The seconds that it lets go by.
    pub fn seconds(self) -> u64
        ensures { result ≡ seconds_in self }
    {
        match self {
            Answer::Wait { seconds } => seconds,
            _ => 0,
        }
    }
}

/// The moment after these events, in seconds: the sum of all that went by. Any number of events fits.
pub fn moment_of(events: &[Event]) -> u128
    ensures { result ≡ journals.moment_of events.now }
{
    let mut moment = 0;
    for event in events {
        moment += u128::from(event.seconds());
    }
    moment
}
