use crm_lex::Name;
use date_rules::Pair;
use listed::Listed;

/// The position of a node in its cluster, from 0.
pub type NodeId = u32;

/// A node of the cluster.
#[derive(PartialEq, Eq, Drop)]
pub struct Node {
    pub name: Name,
    /// Whether it may run no resource.
    pub standby: bool,
    /// The attributes of its statement, in order.
    pub attributes: Listed<Pair>,
}
