//! Which actions are needed.

// What each cell needs.
pub mod knowing;
pub mod steps;

// Which cells are stopped and started again.
pub mod activity;
pub mod finding;
pub mod marking;
pub mod marks;
pub mod passing;

// Which leaves migrate, and from where.
pub mod flags;
pub mod sources;
pub mod work;

// The list of all actions.
pub mod building;
pub mod listing;
