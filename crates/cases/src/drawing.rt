//! Draws of one number, one after the other.

ghost use Rattle.std.specs.Prelude.{◌≡◌, ◌<◌, ◌+◌, ◌^◌};
ghost use Rattle.cases.specs.Draws.{draw, state_after};

use crate::states::{first_state, next_state, taken_of};

/// What is drawn from a number on, one draw after the other.
#[derive(Drop)]
pub struct Draws {
    /// The number with which it began.
    pub number: u32,
    /// How many draws were made.
    pub drawn: u32,
    state: u32,
    ghost are: { state ≡ state_after number drawn },
}

impl Draws {
    /// Before the first draw.
    pub fn new(number: u32) -> Draws
        ensures number { result.number ≡ number }
        ensures drawn { result.drawn ≡ 0 }
    {
        Draws {
            number,
            drawn: 0,
            state: first_state(number),
        }
    }

    /// The next draw: a number below the bound. It asks for a bound above 0, and for fewer than 2^32 - 1 draws so far.
    #[tactic(auto, using(crate::proofs::DrawLaws::state_more))]
    pub fn below(&mut self, bound: u32) -> u32
        requires some { 0 < bound }
        requires few { self.old.drawn + 1 < 2 ^ 32 }
        ensures value { result ≡ draw self.old.number (self.old.drawn + 1) bound }
        ensures low { result < bound }
        ensures number { self.new.number ≡ self.old.number }
        ensures drawn { self.new.drawn ≡ self.old.drawn + 1 }
    {
        self.state = next_state(self.state);
        self.drawn += 1;
        taken_of(self.state, bound)
    }
}
