//! A large case from a number: 60 nodes that are all online, 400 resources with 710 rules, and a node that is then lost.
//! Beside it the numbers that are drawn for it and by a simulated cluster, one after the other, by a linear congruential
//! generator.
#![tactic(auto)]

// The numbers that are drawn.
mod drawing;
mod states;

// The text of the case.
mod case;

// Its configuration, its status and its results.
mod resources;
mod rules;
mod state;

pub use case::{generate, lost_node};
pub use drawing::Draws;
pub use states::{first_state, next_state, taken_of};
