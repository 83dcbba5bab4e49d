//! Which nodes a decision chooses, and what it makes of the table.

// What a decision reads beside the table.
pub mod caps;
pub mod cells;
pub mod inputs;
pub mod permitting;

// Which nodes it chooses.
pub mod candidate_nodes;
pub mod choosing;
pub mod chosen_nodes;
pub mod totalling;

// What it makes of the table.
pub mod deciding;
pub mod loaded_table;
