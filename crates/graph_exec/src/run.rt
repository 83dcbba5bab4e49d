//! A run: transition after transition, told as it goes, or kept.

// How a run ends.
pub mod stop;

// One transition of a run, from its plan to what comes right after it.
pub mod carrying_out;
pub mod idling;
pub mod planning;
pub mod same_states;
pub mod turning;

// A run that is told as it goes.
pub mod watched_run;

// A run that is kept.
pub mod keeping;
pub mod kept_run;
