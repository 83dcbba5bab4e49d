//! Tests of whole runs of the program that files can't hold. Those that are an input, a status and a text stand in `cases/`.
//!
//! They stand in a crate of their own, since the tests of a crate are proved together with all of its code once more.
#![tactic(auto)]

// Words of the command line.
#[cfg(test)]
mod check;
#[cfg(test)]
mod memory;
#[cfg(test)]
mod replay_live;
#[cfg(test)]
mod waiting;
#[cfg(test)]
mod words;
#[cfg(test)]
mod worlds;

// Generated cases.
#[cfg(test)]
mod case_texts;
#[cfg(test)]
mod generated_cases;

// What the tests of words share.
#[cfg(test)]
mod long_inputs;
#[cfg(test)]
mod outcome;
