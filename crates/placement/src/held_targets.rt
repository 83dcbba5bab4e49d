//! What mandatory rules ask of the chosen targets, and which targets are left.

// What mandatory rules ask of the chosen targets.
pub mod dependencies;

// The targets that are left.
pub mod final_targets;
pub mod passes;
pub mod spreading;
pub mod targets_left;
