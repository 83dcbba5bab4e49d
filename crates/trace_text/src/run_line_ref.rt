use cluster_types::{Action, Answer, LeafId, NoReason, NodeId, Pin, Target};

/// What a line of a run says, lent to be written: as `RunLine`, but the reason of a leaf without a target stays where
/// it is.
#[derive(Clone, Copy)]
pub enum RunLineRef<'a> {
    /// A transition begins: its number, from 1.
    Transition(u32),
    /// Why the leaf is left as it is.
    Pinned(LeafId, Pin),
    /// The target of the leaf on the node.
    Goal(LeafId, NodeId, Target),
    /// Why the leaf has no target.
    Lacking(LeafId, &'a NoReason),
    /// An action begins: its number in the transition, from 1.
    Begin(u32, Action),
    /// An answer that was taken.
    Taken(Answer),
    /// The transition with this number is complete.
    Complete(u32),
    /// It was aborted.
    Aborted(u32),
    /// The answer at this line of the input isn't one that may come.
    Unexpected(u32),
}
