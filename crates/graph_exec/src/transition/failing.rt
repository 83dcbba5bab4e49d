//! A source that says the answers of a list, and fails now and then.

ghost use Rattle.std.specs.Prelude.{◌≡◌, ◌≢◌, ◌↔◌, ◌<◌, ◌≤◌, ◌+◌, ◌^◌, true, false, Some, length, Contains};
ghost use Rattle.cluster_io.specs.Streams.{next_fault};
ghost use Rattle.graph_exec.specs.Counts.{RoseByOne};
ghost use Rattle.graph_exec.specs.SourceDuties.{GivesNext, taken_by};

use crate::transition::flight::InFlight;
use crate::transition::outcomes::{Next, Outcomes};
use crate::transition::script::Script;
use cluster_types::{Action, Answer};
use std::marker::Model;

/// A source that says the answers of a list in their order, and then nothing more. The calls of `next` whose numbers,
/// counted from 1, stand in `fails` fail, and take none.
#[derive(Drop)]
pub struct Failing {
    script: Script,
    fails: Vec<u64>,
    calls: u64,
    faults: u64,
}

impl Model for Failing {
    ghost use Rattle.graph_exec.specs.Scripts.{FailingOf};

    ghost Value = { FailingOf };

    ghost view = { λ s. record { left = s.script.left; taken = s.script.taken; fails = s.fails.items; calls = s.calls; faults = s.faults } };
}

impl Failing {
    /// A source of these answers, fewer than 2^32, that fails at these calls.
    pub fn new(answers: Vec<Answer>, fails: Vec<u64>) -> Failing
        requires { length answers.items < 2 ^ 32 }
        ensures { result ≡ record { left = answers.items; taken = 0; fails = fails.items; calls = 0; faults = 0 } }
    {
        Failing {
            script: Script::new(answers),
            fails,
            calls: 0,
            faults: 0,
        }
    }
}

impl Outcomes for Failing {
    ghost rest = { λ s. Some s.left };

    ghost whole = { λ _. true };

    ghost faults = { λ s. s.faults };

    ghost asked = { λ s. s.calls };

    ghost answered = { λ s. s.taken };

    ghost careful = { λ _. false };

    ghost steady = { λ _. false };

    ghost over = { λ _. false };

    ghost at_hand = { λ _. Unit {0} };

    ghost broke = { λ _. ⊥ };

    ghost agrees = { λ _ _ _ _. Unit {0} };

    ghost follows = { λ _ _. Unit {0} };

    ghost said = { λ _ _ _. Unit {0} };

    ghost anew = { λ _ _ _ _ agreed. agreed };

    ghost from_itself = { λ _. tt };

    ghost from_before = { λ _ _ _ _ later. later };

    ghost from_said = { λ _ _ _ _ _. tt };

    ghost said_later = { λ _ _ _ _ _ _. tt };

    fn begun(&mut self, _number: u32, _action: Action)
        ensures { self.new ≡ self.old }
    {}

    fn is_ready(&self) -> bool {
        true
    }

    fn next(&mut self, flight: &InFlight) -> Next
        ensures gives { GivesNext true (Some self.old.left) (Some self.new.left) result }
        ensures taken { self.new.taken ≡ self.old.taken + taken_by result }
        ensures count { self.old.faults ≤ self.new.faults }
        ensures fails { (result ≡ Next.Failed) ↔ Contains self.old.fails self.new.calls }
        ensures counted { result ≡ Next.Failed → self.new.faults ≡ next_fault self.old.faults }
        ensures others { result ≢ Next.Failed → self.new.faults ≡ self.old.faults }
        ensures calls { RoseByOne self.old.calls self.new.calls }
        ensures fails_stay { self.new.fails ≡ self.old.fails }
    {
        self.calls = self.calls.saturating_add(1);
        if self.fails.contains(&self.calls) {
            self.faults = self.faults.saturating_add(1);
            return Next::Failed;
        }
        self.script.next(flight)
    }
}
