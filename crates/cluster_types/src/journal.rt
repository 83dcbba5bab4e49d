use crate::leaf::{LeafId, Op, Role};
use crate::node::NodeId;
use listed::Listed;
use score::Score;

/// How an action ended.
#[derive(Clone, Copy, Debug, PartialEq, Eq)]
pub enum Outcome {
    /// With this exit code (OCF Resource Agent API, exit status codes).
    Code(u8),
    /// It was killed after its time.
    TimedOut,
    /// Its node was lost while it was in flight.
    Gone,
}

/// What the cluster does.
#[derive(Clone, Copy, Debug, PartialEq, Eq)]
pub enum Action {
    /// Cuts the node off.
    Fence {
        node: NodeId,
    },
    /// Asks whether the leaf runs on the node.
    Probe {
        leaf: LeafId,
        node: NodeId,
    },
    /// Calls an operation of the leaf on the node. The interval is 0 for every operation but Monitor. The role is Promoted for a monitor whose
    /// interval has a statement of role Promoted, and Started for every other action.
    Operation {
        op: Op,
        leaf: LeafId,
        node: NodeId,
        interval_ms: u32,
        role: Role,
    },
    /// Sends the leaf from the source to the target, where it runs on.
    MigrateTo {
        leaf: LeafId,
        source: NodeId,
        target: NodeId,
    },
    /// Takes the leaf in on the target.
    MigrateFrom {
        leaf: LeafId,
        source: NodeId,
        target: NodeId,
    },
}

/// What happened, in the order of a journal.
#[derive(Clone, Copy, Debug, PartialEq, Eq)]
pub enum Event {
    /// The node joined.
    Up {
        node: NodeId,
    },
    /// The node is down, and known to be.
    Down {
        node: NodeId,
    },
    /// The node left without a word.
    Lost {
        node: NodeId,
    },
    /// The cluster has quorum from now on, or hasn't.
    Quorum {
        yes: bool,
    },
    /// Some seconds went by.
    Wait {
        seconds: u64,
    },
    /// What is known of the leaf on the node is forgotten.
    Cleanup {
        leaf: LeafId,
        node: NodeId,
    },
    /// The action of this number began.
    Begin {
        number: u32,
        action: Action,
    },
    /// An action ended at this moment, in seconds. Its number is 0 where it began before the journal, or was reported.
    Ended {
        number: u32,
        action: Action,
        outcome: Outcome,
        moment: u64,
    },
}

/// How much a leaf wants to be promoted on a node, as its agent said.
#[derive(Clone, Copy, Debug, PartialEq, Eq)]
pub struct Promotion {
    pub leaf: LeafId,
    pub node: NodeId,
    pub score: Score,
}

/// All that happened, and the promotion scores of the status.
#[derive(PartialEq, Eq, Drop)]
pub struct Journal {
    pub events: Listed<Event>,
    pub promotions: Listed<Promotion>,
}

/// What a source of outcomes says.
#[derive(Clone, Copy, Debug, PartialEq, Eq)]
pub enum Answer {
    /// The action ended with this exit code.
    End {
        number: u32,
        code: u8,
    },
    /// The action was killed after its time.
    Timeout {
        number: u32,
    },
    /// The node left without a word.
    Lost {
        node: NodeId,
    },
    /// The node joined.
    Up {
        node: NodeId,
    },
    /// Quorum is so from now on.
    Quorum {
        yes: bool,
    },
    /// Some seconds go by.
    Wait {
        seconds: u64,
    },
    /// A recurring monitor found this code.
    Report {
        node: NodeId,
        leaf: LeafId,
        interval_ms: u32,
        code: u8,
    },
}
