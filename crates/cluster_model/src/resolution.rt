//! The cluster that a configuration says: names and rules resolved.

// Why there is no cluster.
pub mod fault;

// What the names in rules stand for.
pub mod directory;

// What is taken over as it is.
pub mod copies;

// What a cluster has.
pub mod colocations;
pub mod locations;
pub mod nodes;
pub mod options;
pub mod orders;

// The faults of rules.
pub mod checks;
pub mod counts;
pub mod loop_faults;

// The whole configuration.
pub mod whole;
