//! What one line of a status tells.

use cluster_types::{Event, NodeId, Promotion};

/// What a status says of a node.
#[derive(Clone, Copy)]
pub enum NodeWord {
    Online,
    /// It left in order.
    Offline,
    /// It is lost, and not known to be down.
    Unclean,
}

/// What one line of a status tells.
#[derive(Clone, Copy)]
pub enum Fact {
    /// The moment, in seconds.
    Now(u64),
    /// Whether the cluster has quorum.
    Quorum(bool),
    /// The state of a node.
    Node { node: NodeId, word: NodeWord },
    /// An operation ended, or a cell was cleaned up.
    Past(Event),
    /// How much a leaf wants to be promoted on a node.
    Promoting(Promotion),
}
