ghost use Rattle.std.specs.Prelude.{◌≡◌};
ghost use Rattle.cluster_types.specs.OperationNames.{operation_named};
ghost use Rattle.cluster_types.specs.Precedence as precedence;

use crm_lex::{Name, is};
use listed::Listed;
use score::Score;

/// The position of a leaf in its cluster, from 0. A leaf is a primitive resource, with all its copies where it is cloned.
pub type LeafId = u32;

/// What a copy of a resource is where it runs.
#[derive(Clone, Copy, Debug, PartialEq, Eq)]
pub enum Role {
    /// It runs, promoted or not.
    Started,
    /// It runs and is promoted.
    Promoted,
}

/// An operation of a resource agent.
#[derive(Clone, Copy, Debug, PartialEq, Eq)]
pub enum Op {
    Start,
    Stop,
    Promote,
    Demote,
    Monitor,
}

impl Op {
    /// The operation of this name; names are in lower case. None for any other word.
    pub fn from_word(word: &[u8]) -> Option<Op>
        ensures { result ≡ operation_named word.now }
    {
        if is(word, b"start") {
            Some(Op::Start)
        } else if is(word, b"stop") {
            Some(Op::Stop)
        } else if is(word, b"promote") {
            Some(Op::Promote)
        } else if is(word, b"demote") {
            Some(Op::Demote)
        } else if is(word, b"monitor") {
            Some(Op::Monitor)
        } else {
            None
        }
    }

    /// Whether the operation gives a role.
    pub fn is_giving(self) -> bool
        ensures { result ≡ precedence.is_giving self }
    {
        matches!(self, Op::Start | Op::Promote)
    }

    /// The role that a start or a promote gives. It is Started for any other.
    pub fn role_given(self) -> Role
        ensures { result ≡ precedence.role_given self }
    {
        match self {
            Op::Promote => Role::Promoted,
            _ => Role::Started,
        }
    }

    /// The operation that undoes it. A monitor has nothing to undo.
    pub fn inverse(self) -> Op
        ensures { result ≡ precedence.inverse self }
    {
        match self {
            Op::Start => Op::Stop,
            Op::Stop => Op::Start,
            Op::Promote => Op::Demote,
            Op::Demote => Op::Promote,
            Op::Monitor => Op::Monitor,
        }
    }
}

/// What follows the failure of an operation (Pacemaker Explained, "on-fail").
#[derive(Clone, Copy, Debug, PartialEq, Eq)]
pub enum OnFail {
    /// Nothing.
    Ignore,
    /// The resource is left alone until somebody looks at it.
    Block,
    /// The resource is stopped, and not started anywhere.
    Stop,
    /// The resource is stopped, and started again somewhere.
    Restart,
    /// The node is fenced.
    Fence,
}

/// What the configuration wants a resource to be (Pacemaker Explained, "target-role").
#[derive(Clone, Copy, Debug, PartialEq, Eq)]
pub enum TargetRole {
    Started,
    Stopped,
    Promoted,
    /// Started, and no copy promoted.
    Unpromoted,
}

/// A recurring monitor.
#[derive(Clone, Copy, Debug, PartialEq, Eq)]
pub struct Monitor {
    /// Milliseconds from one call to the next, above 0.
    pub interval_ms: u32,
    /// Promoted where it runs on promoted copies, Started where it runs on the others.
    pub role: Role,
    pub on_fail: OnFail,
}

/// A primitive resource.
#[derive(PartialEq, Eq, Drop)]
pub struct Leaf {
    pub name: Name,
    /// On how many nodes it may run at once.
    pub copies: u32,
    /// On how many nodes it may be promoted at once.
    pub promoted_copies: u32,
    /// Whether it is inside a clone.
    pub cloned: bool,
    /// Whether an order of another clone's leaf before this one joins the copies on one node only.
    pub interleave: bool,
    pub promotable: bool,
    /// Whether it is a member of a group, after the first.
    pub follower: bool,
    /// Which resource is placed first.
    pub priority: Score,
    /// How much it wants to stay where it runs.
    pub stickiness: Score,
    /// At how many failures on a node it is banned from there; 0 is never.
    pub threshold: Score,
    /// After how many milliseconds its failures are forgotten; 0 is never.
    pub timeout_ms: u32,
    pub target_role: TargetRole,
    /// Whether the cluster may start and stop it.
    pub managed: bool,
    /// Whether it may be moved live (Pacemaker Explained, "allow-migrate").
    pub migrates: bool,
    pub start_fail: OnFail,
    pub stop_fail: OnFail,
    pub promote_fail: OnFail,
    pub demote_fail: OnFail,
    /// Its recurring monitors, at most eight, of different intervals.
    pub monitors: Listed<Monitor>,
}
