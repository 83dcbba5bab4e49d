//! Tests of the crates that read: of plain values, of texts, and of what a configuration and a history say.
//!
//! They stand in a crate of their own, since the tests of a crate are proved together with all of its code once more.
#![tactic(auto)]

// What names the row of a table that doesn't hold.
#[cfg(test)]
mod checked;

// Plain values.
#[cfg(test)]
mod first_loops;
#[cfg(test)]
mod lists;
#[cfg(test)]
mod moments;
#[cfg(test)]
mod rows;
#[cfg(test)]
mod rules;
#[cfg(test)]
mod scores;
#[cfg(test)]
// Texts.
#[cfg(test)]
mod lines;
#[cfg(test)]
mod kept_names;
#[cfg(test)]
mod printed;
#[cfg(test)]
mod reading;
#[cfg(test)]
mod statements;
#[cfg(test)]
mod streams;

// Clusters and histories.
#[cfg(test)]
mod clusters;
#[cfg(test)]
mod histories;
#[cfg(test)]
mod leaves;
#[cfg(test)]
mod loops_of_rules;
#[cfg(test)]
mod resolved_texts;
#[cfg(test)]
mod tables_and_graphs;
