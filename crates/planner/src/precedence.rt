//! Which of the actions must precede which, as edges between positions.

// By which cell an action stands on a side of a join, and the edges of joins.
pub mod edge_building;
pub mod gates;
pub mod keys;
pub mod sides;

// Which leaves are sent, where the actions of each leaf stand, and what all rules read of them.
pub mod index;
pub mod inputs;
pub mod migrating;

// The edges of each rule.
pub mod buckets;
pub mod chains;
pub mod colocations;
pub mod orders;
pub mod rules;
pub mod serialize;
pub mod serials;

// All edges.
pub mod whole;
