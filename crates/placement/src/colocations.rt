//! What colocations say of a decision: on which nodes it is allowed, and how much it prefers them.

// What colocations say of a decision: on which nodes it is allowed, and how much it prefers them.
pub mod preferences;
pub mod testing;

// What colocations say of it.
pub mod allowing;
pub mod preferring;
