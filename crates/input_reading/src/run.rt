//! The lines of a run.

// The lines of a run: what is read, what the words of a line say, and all lines of a text.
pub mod actions;
pub mod line;
pub mod run_reading;
pub mod text;
pub mod words;
