//! Edges between positions, whatever these stand for, and what follows from where they lead: loops, and the longest
//! ways.
#![tactic(auto)]

mod edge;

// Which edges lead from a position, and which lead to it.
mod sources;

// Whether edges have a loop, and from which edge on.
mod clearing;
mod first;

// How many edges the longest way to each position has.
mod measuring;

// Edges by their ends, and where those from each position lead, side by side.
mod rows;
mod side;

// What follows from the definitions.
mod laws;

pub use clearing::is_loop_free;
pub use edge::{Edge, end_within};
pub use first::first_loop;
pub use laws::{
    edges_without_a_loop_rise, first_loop_is_unique, longest_ways_are_unique, loops_or_none,
    loops_stay, ways_are_computed,
};
pub use measuring::{longest_ways, longest_ways_if_free};
pub use rows::Rows;
pub use side::{Side, count_ends, count_off};
