use crate::node::NodeId;
use crate::placement::{NoReason, Pin, Table};
use listed::Listed;

/// Where everything goes once a node is lost, and why.
#[derive(PartialEq, Eq, Drop)]
pub struct Loss {
    /// The node that is lost.
    pub node: NodeId,
    /// Per leaf.
    pub pins: Listed<Option<Pin>>,
    pub table: Table,
    /// Per leaf.
    pub none: Listed<Option<NoReason>>,
}

/// What the loss of each node does.
#[derive(PartialEq, Eq, Drop)]
pub struct Report {
    /// One for each node that is online, in the order of the nodes.
    pub losses: Listed<Loss>,
}
