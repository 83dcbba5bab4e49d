//! A run asks nothing more once its source was silent while nothing was to be done.

ghost use Rattle.std.specs.Prelude.{true, false, None};

use crate::runs::RUNNING;
use crate::starts::start_of;
use crate::watching::{Follower, Line};
use cluster_types::{Action, Answer};
use graph_exec::{InFlight, Next, Outcomes, replay_watched};

/// A source that tells nothing of what is to come. It is silent at its first question; at each later one it would say that
/// the first node is lost, which applies.
#[derive(Drop)]
struct SilentOnce {
    asked: u64,
    answered: u64,
}

impl Outcomes for SilentOnce {
    ghost rest = { λ _. None };

    ghost whole = { λ _. false };

    ghost faults = { λ _. 0 };

    ghost asked = { λ s. s.asked };

    ghost answered = { λ s. s.answered };

    ghost careful = { λ _. false };

    ghost steady = { λ _. true };

    ghost over = { λ _. true };

    ghost at_hand = { λ _. Unit {0} };

    ghost broke = { λ _. ⊥ };

    ghost agrees = { λ _ _ _ _. Unit {0} };

    ghost follows = { λ _ _. Unit {0} };

    ghost said = { λ _ _ _. Unit {0} };

    ghost anew = { λ _ _ _ _ agreed. agreed };

    ghost from_itself = { λ _. tt };

    ghost from_before = { λ _ _ _ _ later. later };

    ghost from_said = { λ _ _ _ _ _. tt };

    ghost said_later = { λ _ _ _ _ _ _. tt };

    fn begun(&mut self, _number: u32, _action: Action) {}

    fn is_ready(&self) -> bool {
        true
    }

    fn next(&mut self, _flight: &InFlight) -> Next {
        let first = self.asked == 0;
        self.asked = self.asked.saturating_add(1);
        if first {
            return Next::Silent;
        }
        self.answered = self.answered.saturating_add(1);
        Next::Answer(Answer::Lost { node: 0 })
    }
}

/// Nothing is to be done from the first on.
const TOLD: &[Line] = &[Line::Transition(1, Some(1)), Line::Complete(1)];

#[test]
fn nothing_is_asked_after_a_silence_at_the_end(rt: HostRuntime) {
    let alloc = rt.alloc();
    let (cluster, journal) = start_of(&rt, alloc, RUNNING);
    let mut source = SilentOnce {
        asked: 0,
        answered: 0,
    };
    let mut follower = Follower::new(TOLD, u32::MAX);
    let made = replay_watched(alloc, &cluster, journal, &mut source, &mut follower, 4);
    assert!(rt; made.is_ok() && source.asked == 1 && follower.has_heard_all());
}
