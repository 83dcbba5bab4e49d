//! States, from one draw to the next.

ghost use Rattle.std.specs.Prelude.{◌≡◌, ◌<◌};
ghost use Rattle.cases.specs.Draws.{next_state, state_after, taken_of};

/// The state before the first draw.
#[tactic(auto, using(crate::proofs::DrawLaws::state_begins))]
pub fn first_state(number: u32) -> u32
    ensures { result ≡ state_after number 0 }
{
    number % 2_147_483_648
}

/// The state that follows one.
pub fn next_state(state: u32) -> u32
    ensures { result ≡ next_state state }
{
    let next = (u64::from(state) * 1_103_515_245 + 12_345) % 2_147_483_648;
    next as u32
}

/// What is taken of a state: a number below the bound. It asks for a bound above 0.
pub fn taken_of(state: u32, bound: u32) -> u32
    requires { 0 < bound }
    ensures value { result ≡ taken_of state bound }
    ensures low { result < bound }
{
    state / 65_536 % bound
}
