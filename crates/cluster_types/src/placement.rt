ghost use Rattle.std.specs.Prelude.{◌≡◌, ◌+◌, ◌*◌, ◌<◌, ◌==◌, ◌&&◌, if◌then◌else◌, IfOk, None, ℕ, length, replicate, slice_get, unwrap_or};
ghost use Rattle.cluster_types.specs.Choice as choice;
ghost use Rattle.cluster_types.specs.Decisions as decisions;
ghost use Rattle.cluster_types.specs.Pins.{is_pinned_in};
ghost use Rattle.cluster_types.specs.Tables as tables;
ghost use Rattle.cluster_types.specs.Tables.{targets_of};

use crate::cells::cell_place;
use crate::leaf::{LeafId, Role};
use crate::node::NodeId;
use crate::rules::Colocation;
use crm_lex::Name;
use faults::NoMemory;
use listed::{Listed, value_at};
use score::Score;
use std::alloc::Global;

/// What a leaf is to be on a node.
#[derive(Clone, Copy, Debug, PartialEq, Eq)]
pub enum Target {
    /// It has no target there.
    Nowhere,
    /// Started, and not promoted.
    Started,
    Promoted,
}

impl Target {
    /// Whether a leaf with this target holds the role: Started wherever it has one, and Promoted where it is to be promoted.
    pub fn holds(self, role: Role) -> bool
        ensures { result ≡ tables.target_holds self role }
    {
        match role {
            Role::Started => self != Target::Nowhere,
            Role::Promoted => self == Target::Promoted,
        }
    }
}

/// The targets of all cells, leaf by leaf, node by node.
#[derive(PartialEq, Eq, Drop)]
pub struct Table {
    /// How many nodes there are.
    pub nodes: u32,
    pub targets: Listed<Target>,
}

impl Table {
    /// The table of so many leaves and nodes in which nothing has a target.
    pub fn nowhere(alloc: Global, leaves: u32, nodes: u32) -> Result<Table, NoMemory>
        ensures nodes { IfOk result (λ table. table.nodes ≡ nodes) }
        ensures targets { IfOk result (λ table. table.targets ≡ replicate (leaves * nodes) Target.Nowhere) }
    {
        let cells = leaves as usize * nodes as usize;
        let targets = vec![in alloc; Target::Nowhere; cells]?;
        Ok(Table {
            nodes,
            targets: Listed::from(targets),
        })
    }

    /// The target of a cell. One that the table doesn't have has none.
    pub fn target(&self, leaf: LeafId, node: NodeId) -> Target
        ensures { result ≡ targets_of self.now leaf node }
    {
        if node >= self.nodes {
            return Target::Nowhere;
        }
        match self
            .targets
            .as_slice()
            .get(cell_place(self.nodes as usize, leaf, node))
        {
            Some(target) => *target,
            None => Target::Nowhere,
        }
    }

    /// Whether the leaf holds the role on the node.
    pub fn holds_role(&self, leaf: LeafId, role: Role, node: NodeId) -> bool
        ensures { result ≡ tables.holds_role (targets_of self.now) leaf role node }
    {
        self.target(leaf, node).holds(role)
    }

    /// The table in which a cell that it has gets this target, and each other stays as it was. It takes no memory.
    pub fn with_target(self, leaf: LeafId, node: NodeId, target: Target) -> Table
        requires on_node { node < self.nodes }
        requires within { leaf * self.nodes + node < length self.targets }
        ensures nodes { result.nodes ≡ self.nodes }
        ensures size { length result.targets ≡ length self.targets }
        ensures targets { (r n : ℕ) → targets_of result r n ≡ (if r == leaf && n == node then target else targets_of self r n) }
    {
        let place = cell_place(self.nodes as usize, leaf, node);
        let mut targets = self.targets.into_vec();
        targets[place] = target;
        Table {
            nodes: self.nodes,
            targets: Listed::from(targets),
        }
    }
}

/// What is decided in one step: where a leaf runs, or where it is promoted.
#[derive(Clone, Copy, Debug, PartialEq, Eq)]
pub enum Decision {
    Place(LeafId),
    Promote(LeafId),
}

impl Decision {
    /// The decision that gives the leaf its role.
    pub fn of_role(leaf: LeafId, role: Role) -> Decision
        ensures { result ≡ decisions.decision_of leaf role }
    {
        match role {
            Role::Started => Decision::Place(leaf),
            Role::Promoted => Decision::Promote(leaf),
        }
    }

    /// The leaf that it decides on.
    pub fn leaf(self) -> LeafId
        ensures { result ≡ decisions.leaf_of self }
    {
        match self {
            Decision::Place(leaf) | Decision::Promote(leaf) => leaf,
        }
    }

    /// Whether it gives the dependent of the colocation its role.
    pub fn is_dependent_in(self, rule: &Colocation) -> bool
        ensures { result ≡ choice.is_dependent self rule.now }
    {
        self == Decision::of_role(rule.dependent, rule.dependent_role)
    }

    /// Whether it gives the primary its role.
    pub fn is_primary_in(self, rule: &Colocation) -> bool
        ensures { result ≡ choice.is_primary self rule.now }
    {
        self == Decision::of_role(rule.primary, rule.primary_role)
    }
}

/// Why a leaf is left as it is.
#[derive(Clone, Copy, Debug, PartialEq, Eq)]
pub enum Pin {
    /// The cluster doesn't manage it.
    Unmanaged,
    /// A failure after which it must be left alone blocks it on a node.
    Blocked,
}

/// Whether the leaf is left as it is, by the list of why each leaf is. One that the list doesn't have is too.
pub fn is_pinned(pins: &[Option<Pin>], leaf: LeafId) -> bool
    ensures { result ≡ is_pinned_in pins.now leaf }
{
    match pins.get(leaf as usize) {
        Some(pin) => pin.is_some(),
        None => true,
    }
}

/// Why the leaf is left as it is, by the list of why each leaf is. None where it isn't, or where the list doesn't have it.
pub fn pin_of(pins: &[Option<Pin>], leaf: LeafId) -> Option<Pin>
    ensures { result ≡ unwrap_or (slice_get pins.now leaf) None }
{
    value_at(pins, leaf as usize)
}

/// Why a leaf has no target. The first reason that holds counts.
#[derive(PartialEq, Eq, Drop)]
pub enum NoReason {
    /// It may have no copy: `clone-max` is 0, or there is no node.
    NoCopies,
    /// Its target role.
    Stopped,
    /// A failure whose on-fail is stop.
    OnFail,
    /// `stop-all-resources`.
    StopAll,
    /// There is no quorum, and the policy lets nothing start.
    NoQuorum,
    /// No node may have it.
    NoNode,
    /// The rule of this id holds it back.
    Held(Name),
}

/// A decision, with its total on each node.
#[derive(PartialEq, Eq, Drop)]
pub struct Decided {
    pub decision: Decision,
    pub totals: Listed<Score>,
}

/// Where everything goes, and why.
#[derive(PartialEq, Eq, Drop)]
pub struct Placed {
    /// Per leaf.
    pub pins: Listed<Option<Pin>>,
    /// In the order in which they were made.
    pub decided: Listed<Decided>,
    pub table: Table,
    /// Per leaf.
    pub none: Listed<Option<NoReason>>,
}
