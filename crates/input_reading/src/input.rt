//! The whole input and its parts, or why it is refused.

// The whole input, and its parts.
pub mod reading;
pub mod sections;
pub mod trace;

// Why an input is refused.
pub mod cause;
pub mod fault;
