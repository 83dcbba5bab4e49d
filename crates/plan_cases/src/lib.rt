//! Tests of what is decided: what a journal tells, where everything goes, and what has to be done in which order.
//!
//! They stand in a crate of their own, since the tests of a crate are proved together with all of its code once more.
#![tactic(auto)]

// What small texts say, and tests that are tables.
#[cfg(test)]
mod case_rows;
#[cfg(test)]
mod plain;
#[cfg(test)]
mod todos;

// What a journal tells.
#[cfg(test)]
mod fences;
#[cfg(test)]
mod one_by_one;
#[cfg(test)]
mod states;

// Where everything goes.
#[cfg(test)]
mod choices;
#[cfg(test)]
mod held_cells;
#[cfg(test)]
mod orders;
#[cfg(test)]
mod tables;

// What has to be done, and in which order.
#[cfg(test)]
mod actions;
#[cfg(test)]
mod graphs;
#[cfg(test)]
mod ranks;
