//! The leaves that primitives, groups and clones stand for.

// Why there is no cluster.
pub mod expand_fault;

// What stands around a primitive.
pub mod clones;
pub mod groups;
pub mod meta;
pub mod settings;
pub mod surroundings;

// The leaves and their spans.
pub mod leaf;
pub mod leaves;
pub mod operations;
pub mod spans;

// The faults of resources.
pub mod kinds;
pub mod leaf_checks;
pub mod seen_names;

// All leaves.
pub mod whole;

// What follows from the definitions.
pub mod leaf_laws;
