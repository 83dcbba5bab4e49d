//! Lists, names and sets of numbers, as contracts see them.
//!
//! Structs that are compared keep their lists in [`Listed`], so that two of them are equal where their values are,
//! whatever room the memory behind them has. [`Name`] is a list of bytes. [`NumberSet`] is a set of numbers from 1 on, that finds its members by
//! their place.
#![tactic(auto)]

mod list;
mod name;

// What a slice has at a place.
mod places;

// What rows of flags and of lists begin with.
mod starts;

// A set of numbers, and its counts.
mod counting;
mod set;

pub use list::Listed;
pub use name::Name;
pub use places::{flag_at, number_at, value_at};
pub use set::NumberSet;
pub use starts::{empty_lists, none_set};
