use crate::graph::Graph;
use crate::placement::Placed;
use crate::states::{Rights, States};

/// What is planned for a journal: what it tells of the cluster, what the cluster may do, where everything goes, and what is to be done for it.
#[derive(Drop)]
pub struct Plan {
    pub states: States,
    pub rights: Rights,
    pub placed: Placed,
    pub graph: Graph,
}
