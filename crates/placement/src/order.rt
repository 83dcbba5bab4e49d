//! What is decided, by what keys, and in which order.

// What is decided, and by what keys.
pub mod decision_set;
pub mod decisions;
pub mod keys;

// What decisions lend to those that they need.
pub mod effective;
pub mod key_slots;
pub mod lending;
pub mod link_order;

// In which order decisions are made.
pub mod flags;
pub mod links;
pub mod making;
pub mod ordering;
pub mod queue;
pub mod ranked_decisions;
pub mod turns;
