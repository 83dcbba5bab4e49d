//! The cluster that a configuration says: its groups and clones as leaves, its names and rules resolved.
#![tactic(auto)]

// The leaves that primitives, groups and clones stand for.
mod expansion;

// The cluster that a configuration says: names and rules resolved.
mod resolution;

// What names stand for, and how values are read.
mod name_table;
mod values;

// What follows from the definitions.
mod laws;

pub use expansion::expand_fault::{ExpandCause, ExpandFault, expand_name};
pub use expansion::leaf_laws::{each_primitive_is_a_leaf, leaf_names_differ};
pub use expansion::leaves::{Leaves, Span};
pub(crate) use expansion::settings::{option_given, properties_in};
pub use expansion::whole::expand;
pub use laws::{
    resolved_clusters_are_valid, resolved_rules_have_no_loop, resolved_rules_name_able_leaves,
};
pub(crate) use name_table::NameTable;
pub use resolution::fault::{ModelCause, ModelFault, model_name};
pub use resolution::whole::resolve;
pub(crate) use values::bool_at;
