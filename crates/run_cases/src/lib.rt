//! Tests of how a plan is carried out: transitions, runs, simulated clusters, and the lines of runs.
//!
//! They stand in a crate of their own, since the tests of a crate are proved together with all of its code once more.
#![tactic(auto)]

// Small graphs, what happens, in short, a watcher that is told, and a sink that keeps what it is offered.
#[cfg(test)]
mod recorder;
#[cfg(test)]
mod shown_events;
#[cfg(test)]
mod small_graphs;
#[cfg(test)]
mod starts;
#[cfg(test)]
mod watching;

// Which actions may begin.
#[cfg(test)]
mod numbers;
#[cfg(test)]
mod waiting_orders;

// Transitions and runs.
#[cfg(test)]
mod begins;
#[cfg(test)]
mod out_of_memory;
#[cfg(test)]
mod questions;
#[cfg(test)]
mod runs;
#[cfg(test)]
mod stopping;
#[cfg(test)]
mod transitions;

// Simulated clusters.
#[cfg(test)]
mod firsts;
#[cfg(test)]
mod turns;

// Lines of runs.
#[cfg(test)]
mod asking;
#[cfg(test)]
mod live_writing;
#[cfg(test)]
mod run_lines;
#[cfg(test)]
mod writing;
