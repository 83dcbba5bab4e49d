//! The vocabulary of the readers: why nothing is read of an input, values that are carried past a step that may fail, and
//! numbers in decimal digits.
#![tactic(auto)]

mod fault;
mod memory;
mod stop;

// Values that are carried past a step that may fail.
mod carrying;

// Numbers that are written in decimal digits, and nothing else.
mod number;

pub use carrying::{done, with};
pub use fault::Fault;
pub use memory::NoMemory;
pub use number::number_up_to;
pub use stop::Stop;
