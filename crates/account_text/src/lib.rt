//! The text of how decisions came about.
#![tactic(auto)]

// The printed lines of parts and verdicts.
mod lent_parts;
mod part_lines;
mod verdict_lines;

// What gives each leaf its own terms, and which leaves lend to it.
mod joining;
mod leaf_sources;
mod sources;

// The lines of the terms of a decision on a node.
mod base_parts;
mod own_parts;
mod sides;

// Why a node is chosen or not.
mod decision_asked;
mod judging;
mod last_chosen;

// What is held back.
mod held_cells;

// All of it, by what is read once.
mod account;
mod account_inputs;

pub use account::why_text;
