//! A source that says the answers of a list.

ghost use Rattle.std.specs.Prelude.{◌≡◌, ◌≢◌, ◌+◌, ◌<◌, ◌^◌, true, false, Some, length, slice_get};
ghost use Rattle.graph_exec.specs.Counts.{RoseByOne};
ghost use Rattle.graph_exec.specs.SourceDuties.{GivesNext, taken_by};

use crate::transition::flight::InFlight;
use crate::transition::outcomes::{Next, Outcomes};
use cluster_types::{Action, Answer};
use std::marker::Model;

/// A source that says the answers of a list in their order, and then nothing more. It never fails.
#[derive(Drop)]
pub struct Script {
    answers: Vec<Answer>,
    taken: u32,
    /// How often it was asked.
    asked: u64,
}

impl Model for Script {
    ghost use Rattle.std.specs.Prelude.{◌≤◌, ◌<◌, ◌^◌, drop, length, vec_len};
    ghost use Rattle.graph_exec.specs.Scripts.{ScriptOf};

    ghost Value = { ScriptOf };

    ghost view = { λ s. record { left = drop s.taken s.answers.items; taken = s.taken; asked = s.asked } };

    ghost invariant = { λ s. (s.taken ≤ length s.answers.items) × (length s.answers.items < 2 ^ 32) };
}

fn answer_at(answers: &[Answer], place: u32) -> Option<Answer>
    ensures { result ≡ slice_get answers.now place }
{
    match answers.get(place as usize) {
        Some(answer) => Some(*answer),
        None => None,
    }
}

impl Script {
    /// A source of these answers, fewer than 2^32.
    pub fn new(answers: Vec<Answer>) -> Script
        requires { length answers.items < 2 ^ 32 }
        ensures { result ≡ record { left = answers.items; taken = 0; asked = 0 } }
    {
        Script {
            answers,
            taken: 0,
            asked: 0,
        }
    }

    /// How many answers were taken.
    pub fn taken(&self) -> u32
        ensures { result ≡ self.now.taken }
    {
        self.taken
    }
}

impl Outcomes for Script {
    ghost rest = { λ s. Some s.left };

    ghost whole = { λ _. true };

    ghost faults = { λ _. 0 };

    ghost asked = { λ s. s.asked };

    ghost answered = { λ s. s.taken };

    ghost careful = { λ _. false };

    ghost steady = { λ _. true };

    ghost over = { λ _. true };

    ghost at_hand = { λ _. Unit {0} };

    ghost broke = { λ _. ⊥ };

    ghost agrees = { λ _ _ _ _. Unit {0} };

    ghost follows = { λ _ _. Unit {0} };

    ghost said = { λ _ _ _. Unit {0} };

    ghost anew = { λ _ _ _ _ agreed. agreed };

    ghost from_itself = { λ _. tt };

    ghost from_before = { λ _ _ _ _ later. later };

    ghost from_said = { λ _ _ _ _ _. tt };

    ghost said_later = { λ _ _ _ _ _ _. tt };

    fn begun(&mut self, _number: u32, _action: Action) {}

    fn is_ready(&self) -> bool {
        true
    }

    fn next(&mut self, _flight: &InFlight) -> Next
        ensures gives { GivesNext true (Some self.old.left) (Some self.new.left) result }
        ensures taken { self.new.taken ≡ self.old.taken + taken_by result }
        ensures asked { RoseByOne self.old.asked self.new.asked }
        ensures never { result ≢ Next.Failed }
    {
        self.asked = self.asked.saturating_add(1);
        let Some(answer) = answer_at(self.answers.as_slice(), self.taken) else {
            return Next::Silent;
        };
        self.taken += 1;
        Next::Answer(answer)
    }
}
