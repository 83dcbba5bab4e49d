//! The printed lines of what is decided, of graphs, of runs, and of what the loss of a node does.
#![tactic(auto)]

// Words that many lines have.
mod names;
mod numbers;

// Which actions of a graph come before one.
mod found_positions;
mod walk;

// The lines of each text.
mod graph_lines;
mod loss_lines;
mod score_lines;
mod target_lines;
mod target_walk;

// The lines of a run: one by one without memory, and all in a text.
mod line_buf;
mod line_text;
mod run_line_ref;
mod run_lines;
mod runs;

// What follows from the definitions.
mod laws;

pub use graph_lines::graph_text;
pub use laws::{reasons_with_names_are_named, valid_clusters_have_short_names};
pub use line_buf::LineBuf;
pub use loss_lines::survive_text;
pub use names::{node_name, push_leaf_on};
pub use numbers::push_number;
pub use run_line_ref::RunLineRef;
pub use run_lines::{write_line, write_refusal};
pub use runs::run_text;
pub use score_lines::{push_decision, push_total, score_text};
pub use target_lines::TargetLines;
pub use target_walk::push_targets;
