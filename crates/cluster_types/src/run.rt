use crate::journal::{Action, Answer, Journal};
use crate::leaf::LeafId;
use crate::node::NodeId;
use crate::placement::{NoReason, Pin, Table, Target};
use listed::Listed;

/// How a transition of a run ended.
#[derive(Clone, Copy, Debug, PartialEq, Eq)]
pub enum PassedEnd {
    /// Each action succeeded.
    Complete,
    /// Something came up that wants a new plan.
    Aborted,
    /// The run stopped in its midst.
    Cut,
}

/// A transition of a run, with its events by their positions in the journal: the first is at `begins_at`, and the last before `ends_at`.
#[derive(PartialEq, Eq, Drop)]
pub struct Passed {
    pub pins: Listed<Option<Pin>>,
    pub table: Table,
    pub none: Listed<Option<NoReason>>,
    pub begins_at: u32,
    pub ends_at: u32,
    pub end: PassedEnd,
}

/// A run: its transitions in order, and the journal that they left.
#[derive(PartialEq, Eq, Drop)]
pub struct Run {
    pub passed: Listed<Passed>,
    pub journal: Journal,
}

/// What a line of a printed run says.
#[derive(PartialEq, Eq, Drop)]
pub enum RunLine {
    /// A transition begins: its number, from 1.
    Transition(u32),
    Pinned(LeafId, Pin),
    /// The target of a leaf on a node.
    Goal(LeafId, NodeId, Target),
    /// A leaf without a target.
    Lacking(LeafId, NoReason),
    /// An action begins: its number in the transition, from 1.
    Begin(u32, Action),
    /// An answer that was taken.
    Taken(Answer),
    /// The transition with this number is complete.
    Complete(u32),
    /// It was aborted.
    Aborted(u32),
    /// The answer at this line isn't one that may come.
    Unexpected(u32),
}
