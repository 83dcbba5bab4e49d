//! What comes next.

use cluster_types::NodeId;

/// What becomes of an action that ends.
#[derive(Clone, Copy, Debug, PartialEq, Eq)]
pub enum Fate {
    /// It does what it is for, and its agent says what is so.
    True,
    /// It does what it is for, and its agent says that it failed.
    DoneBadly,
    /// It does nothing, and its agent says that it failed.
    Undone,
    /// Its agent says nothing in time. A start may come true later.
    TimedOut,
}

/// What comes next of a simulated cluster with actions in flight.
#[derive(Clone, Copy, Debug, PartialEq, Eq)]
pub enum Turn {
    /// The node leaves without a word.
    Leaves { node: NodeId },
    /// The node joins.
    Joins { node: NodeId },
    /// The action at this place in the order of those in flight, from 0, ends.
    Ends { place: u32, fate: Fate },
}
