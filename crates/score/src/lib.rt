//! Scores, their totals and their text; sets of nodes, and rows that hold the terms of every node of a cluster.
//!
//! The kernels over rows go by whole vectors of lanes and then node by node; beside each stands its plain form, which goes node by node alone.
#![tactic(auto)]

mod points;
mod text;
mod totalling;

// Sets of nodes, and rows of scores.
mod addition;
mod candidate_set;
mod flags;
mod form;
mod greatest_node;
mod lanes;
mod node_set;
mod row;
mod row_totals;
mod sums;

// What follows from the definitions.
mod laws;

pub use candidate_set::{candidates, candidates_plain};
pub use faults::NoMemory;
pub use greatest_node::{greatest, greatest_plain};
pub use laws::{total_in_any_order, total_of_one, total_within, written_reads_back};
pub use node_set::NodeSet;
pub use points::Score;
pub use row::{Row, add_row, add_row_plain};
pub use row_totals::{totals, totals_plain};
pub use totalling::{cut, total};
