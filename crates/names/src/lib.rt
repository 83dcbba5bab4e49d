//! The names of a cluster in first-seen order, which is its numbering: the index of a name is the number of its node or
//! leaf.
#![tactic(auto)]

// The sets of names.
mod name_sets;

// A cluster with its names.
mod named_cluster;

pub use named_cluster::Names;
