//! Rules of a location: which tests of a node's attributes and of the moment they ask, and whether they hold.
//!
//! Moments are seconds since 1970-01-01T00:00:00Z. Nothing here takes memory.
#![tactic(auto)]

// The data.
mod rule;

// Whether a rule holds at a node and a moment.
mod attribute;
mod compare;
mod evaluation;
mod number;

// The moment that a text says.
mod calendar;
mod digits;
mod moment;

pub use evaluation::holds;
pub use faults::NoMemory;
pub use moment::instant;
pub use number::whole_number;
pub use rule::{Compare, Kind, Pair, Rule, Test};
