use cluster_types::{Colocation, LeafId, NodeId};
use listed::Name;
use score::Score;

/// Where a term of a total comes from, lent to be written.
#[derive(Clone, Copy)]
pub(crate) enum OriginRef<'a> {
    /// The location of this id.
    Location(&'a Name),
    Stickiness,
    /// Its failures ban the leaf.
    Ban,
    /// No location names the leaf there, and one must.
    OptIn,
    /// How much the leaf wants to be promoted.
    Promotion,
    /// The colocation of this id.
    Colocation(&'a Name),
}

/// A term of a total, lent to be written.
#[derive(Clone, Copy)]
pub(crate) struct PartRef<'a> {
    pub(crate) score: Score,
    /// The leaf that lends it, where it isn't the own term of the leaf that is decided on.
    pub(crate) lender: Option<LeafId>,
    pub(crate) origin: OriginRef<'a>,
}

/// Why a node is chosen or not, lent to be written.
#[derive(Clone, Copy)]
pub(crate) enum VerdictRef<'a> {
    Chosen,
    Unusable,
    /// The decision isn't permitted there.
    Forbidden,
    /// The total is below 0.
    Below,
    /// A mandatory primary isn't there.
    Without(&'a Colocation),
    /// What must be apart from it is there.
    Beside(&'a Colocation),
    /// The leaf isn't placed there.
    Unplaced,
    /// No node is chosen.
    Capped,
    /// The total of this node is greater.
    Less(NodeId),
    /// This node has fewer leaves.
    Fuller(NodeId),
    /// This node is earlier.
    Later(NodeId),
}
