ghost use Rattle.std.specs.Prelude.{◌≡◌};
ghost use Rattle.cluster_types.specs.Choice as choice;
ghost use Rattle.cluster_types.specs.Precedence as precedence;

use crate::leaf::{LeafId, Op, Role};
use crate::node::NodeId;
use crm_lex::Name;
use date_rules::Rule;
use score::Score;

/// How much a resource wants to be on a node, in a role.
#[derive(PartialEq, Eq, Drop)]
pub struct Location {
    pub id: Name,
    pub leaf: LeafId,
    pub role: Role,
    pub score: Score,
    pub node: NodeId,
}

/// The same for each node at which a rule holds.
#[derive(PartialEq, Eq, Drop)]
pub struct RuleLocation {
    pub id: Name,
    pub leaf: LeafId,
    pub role: Role,
    pub score: Score,
    pub rule: Rule,
}

/// How much the dependent, in its role, wants to be where the primary is in its own.
#[derive(PartialEq, Eq, Drop)]
pub struct Colocation {
    pub id: Name,
    pub dependent: LeafId,
    pub dependent_role: Role,
    pub primary: LeafId,
    pub primary_role: Role,
    pub score: Score,
}

impl Colocation {
    /// Whether the dependent must be where the primary is: its score is INFINITY.
    pub fn is_mandatory(&self) -> bool
        ensures { result ≡ choice.is_mandatory self.now }
    {
        self.score == Score::INFINITY
    }

    /// Whether the two must be apart: its score is -INFINITY.
    pub fn is_separation(&self) -> bool
        ensures { result ≡ choice.is_separation self.now }
    {
        self.score == Score::MINUS_INFINITY
    }
}

/// How strictly an order holds (Pacemaker Explained, "kind").
#[derive(Clone, Copy, Debug, PartialEq, Eq)]
pub enum OrderKind {
    /// It orders the two actions where both happen. Where both give a role, the then can't have its role without the first.
    Mandatory,
    /// It orders the two actions where both happen.
    Optional,
    /// No start, stop, promote or demote of the one happens while one of the other does, whatever the two actions are.
    Serialize,
}

/// Which action of one resource comes before which of another.
#[derive(PartialEq, Eq, Drop)]
pub struct Order {
    pub id: Name,
    pub kind: OrderKind,
    pub first: LeafId,
    /// Start, Stop, Promote or Demote.
    pub first_op: Op,
    pub then_leaf: LeafId,
    /// Start, Stop, Promote or Demote.
    pub then_op: Op,
    /// Whether the inverse actions come in the inverse order.
    pub symmetrical: bool,
    /// Whether it joins the copies on one node only.
    pub local: bool,
}

impl Order {
    /// Whether its kind is Mandatory.
    pub fn is_mandatory(&self) -> bool
        ensures { result ≡ precedence.is_mandatory_order self.now.kind }
    {
        self.kind == OrderKind::Mandatory
    }
}
