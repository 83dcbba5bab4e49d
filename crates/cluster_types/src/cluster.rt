use crate::leaf::Leaf;
use crate::node::Node;
use crate::rules::{Colocation, Location, Order, RuleLocation};
use listed::Listed;

/// What a cluster without quorum may do (Pacemaker Explained, "no-quorum-policy").
#[derive(Clone, Copy, Debug, PartialEq, Eq)]
pub enum Policy {
    /// It stops all resources.
    Stop,
    /// It goes on as if it had quorum.
    Ignore,
    /// It keeps what runs, and starts nothing.
    Freeze,
}

/// The options of the whole cluster (Pacemaker Explained, "Cluster Options").
#[derive(Clone, Copy, Debug, PartialEq, Eq)]
pub struct Properties {
    /// Whether a resource may run on a node that no location names: `symmetric-cluster`.
    pub symmetric: bool,
    /// Whether nodes are fenced: `stonith-enabled`.
    pub fencing: bool,
    /// Whether a node of which nothing is known is fenced: `startup-fencing`.
    pub startup_fencing: bool,
    pub policy: Policy,
    /// Whether one failed start makes the fail count INFINITY, which reaches every threshold: `start-failure-is-fatal`.
    pub start_fatal: bool,
    /// Whether all resources are stopped: `stop-all-resources`.
    pub stop_all: bool,
    /// How many actions are in flight at once at most; 0 is no bound: `batch-limit`.
    pub batch_limit: u32,
}

/// A configuration, with its groups and clones resolved into leaves and the rules among them.
#[derive(PartialEq, Eq, Drop)]
pub struct Cluster {
    /// At most 256.
    pub nodes: Listed<Node>,
    /// At most 1,000.
    pub leaves: Listed<Leaf>,
    /// The rules of each kind in the order of the text, at most 2,000 in all.
    pub locations: Listed<Location>,
    pub rule_locations: Listed<RuleLocation>,
    pub colocations: Listed<Colocation>,
    pub orders: Listed<Order>,
    pub properties: Properties,
}
