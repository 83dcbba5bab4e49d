use cluster_types::{Leaf, LeafId};
use crm_lex::Name;
use listed::Listed;

/// The first and the last leaf of a resource.
#[derive(PartialEq, Eq, Drop)]
pub struct Span {
    /// The id of the resource.
    pub name: Name,
    /// The leaf of a primitive, of the first member of a group, or of what a clone has.
    pub first: LeafId,
    /// The leaf of a primitive, of the last member of a group, or of what a clone has.
    pub last: LeafId,
}

/// What the groups and clones of a configuration stand for.
#[derive(PartialEq, Eq, Drop)]
pub struct Leaves {
    /// A leaf for each primitive, in the order of the text.
    pub leaves: Listed<Leaf>,
    /// A span for each resource, in the order of the text.
    pub spans: Listed<Span>,
}
