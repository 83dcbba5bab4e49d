//! Where everything goes, and why: the total of each decision on each node, what is left as it is, what is decided in
//! which order, which nodes each decision chooses, and which chosen cells are held back.
#![tactic(auto)]

// In which order chains of edges are followed.
mod chain_order;

// The total of each decision on each node, before colocations.
mod totals;

// What colocations say of a decision: on which nodes it is allowed, and how much it prefers them.
mod colocations;

// What is left as it is.
mod pinned_targets;
mod pinning;

// What is decided, by what keys, and in which order.
mod order;

// Which nodes a decision chooses, and what it makes of the table.
mod choice;

// What mandatory rules ask of the chosen targets, and which targets are left.
mod held_targets;

// Why a leaf has no target.
mod unplaced_leaves;

// All of it.
mod placing;

pub use choice::cells::is_kept;
pub use choice::chosen_nodes::{ChosenNodes, chosen_nodes};
pub use choice::deciding::{Choices, decide_all, target_by};
pub use choice::inputs::Known;
pub use choice::loaded_table::LoadedTable;
pub use choice::permitting::{is_placed, may_stay};
pub use colocations::preferences::{counts, preference};
pub use colocations::testing::{allowed, has_primary, keeps_apart};
pub use held_targets::final_targets::targets;
pub use order::making::decisions_in_order;
pub use pinned_targets::pinned_table;
pub use pinning::pins;
pub use placing::{place, placement_of};
pub use totals::adding::{both, copy_of};
pub use totals::fitting::leaves_a_node;
pub use totals::laws::scores_are_bases;
pub use totals::locations::{nodes_of, unnamed_nodes};
pub use totals::own::{is_active, is_banned, stickiness_of};
pub use totals::own_rows::OwnRows;
pub(crate) use totals::own_rows::usable_nodes;
pub use totals::promotions::{first_said, wish};
pub(crate) use totals::putting::put_if;
pub(crate) use totals::row_totals::totals_of;
pub use totals::table::{ScoreTable, rows};
pub use totals::ties::{tied, ties_of};
pub use unplaced_leaves::missing::reasons;
