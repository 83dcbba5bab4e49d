//! The plan of a cluster: what a journal tells, where everything goes, and what is done for it in which order; and what
//! the loss of each node does.
//!
//! What is done are exactly the actions that bring a cluster to its targets, in the order of their numbers. Which of them
//! comes before which is told by edges between positions, few of them.
#![tactic(auto)]

// Which actions are needed.
mod needed_actions;

// Which of the actions must precede which, as edges between positions.
mod precedence;

// The numbers of the actions.
mod by_number;
mod numbering;

// The whole plan.
mod planning;

// What the loss of each node does.
mod losing;

// What follows from the definitions.
mod action_laws;
mod edge_laws;
mod laws;
mod number_laws;

pub use action_laws::{falling_orders_find_the_cycled, marks_of_orders_are_the_cycled};
pub use edge_laws::{
    chains_say_what_is_serialized, edges_lead_to_higher_numbers, joins_say_what_must_precede,
    needed_actions_are_within,
};
pub use laws::a_plan_exists_and_is_unique;
pub use losing::survive;
pub use needed_actions::building::actions;
pub use number_laws::{needed_actions_of_places_are_unique, plans_have_few_edges};
pub use numbering::number;
pub use planning::{plan, plan_of};
pub(crate) use precedence::migrating::migrating_flags;
pub use precedence::whole::edges;
