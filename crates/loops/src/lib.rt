//! The loops of a cluster's rules, the ranks of its steps by the links between them, and the order of numbers by these.
#![tactic(auto)]

// Which decision needs which, and which step must come before which.
mod colocations;
mod links;
mod orders;
mod pushing;

// How many steps come before one, and where an action stands in the order of numbers.
mod place;
mod placing;
mod ranking;

// What follows from the definitions.
mod rank_laws;
mod rule_laws;

pub use colocations::{colocation_loop, joins_leaves};
pub(crate) use orders::link_edges;
pub use orders::{order_loop, orders_steps};
pub use place::Place;
pub use rank_laws::{ranks_are_computed, ranks_are_one_above, ranks_are_unique, ranks_rise};
pub use ranking::{StepRanks, ranks};
pub use rule_laws::{
    first_colocation_is_unique, first_order_is_unique, first_rules_have_the_loop,
    loops_are_computed, needs_are_computed, ties_are_computed,
};
