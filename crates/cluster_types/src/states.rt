ghost use Rattle.std.specs.Prelude.{◌≡◌, ◌+◌, ◌*◌, ◌<◌, Some, length, slice_get};
ghost use Rattle.cluster_types.specs.NodeStates.{is_online_in};
ghost use Rattle.cluster_types.specs.Terms.{is_active};

use crate::cells::cell_place;
use crate::journal::Promotion;
use crate::leaf::LeafId;
use crate::node::NodeId;
use listed::Listed;

/// What is known of a node.
#[derive(Clone, Copy, Debug, PartialEq, Eq)]
pub enum NodeState {
    Online,
    Offline,
    /// It may still run something, and must be fenced first.
    Unclean,
}

/// Whether the node is online, by the states of the nodes. One that they don't have isn't.
pub fn is_online(nodes: &[NodeState], node: NodeId) -> bool
    ensures { result ≡ is_online_in nodes.now node }
{
    nodes.get(node as usize) == Some(&NodeState::Online)
}

/// What is known of a leaf on a node.
#[derive(Clone, Copy, Debug, PartialEq, Eq)]
pub enum CellState {
    /// The node isn't online.
    Away,
    /// Nothing is known since the node joined and the cell was last cleaned up.
    Unprobed,
    /// The last failure that counts blocks it.
    Blocked,
    /// It may run, and its last outcome is bad, or a migration left it open what runs there.
    Failed,
    Promoted,
    On,
    Off,
}

impl CellState {
    /// Whether it is taken that the leaf runs there: what runs by its last outcome, and what has failed.
    pub fn is_active(self) -> bool
        ensures { result ≡ is_active self }
    {
        matches!(
            self,
            CellState::On | CellState::Promoted | CellState::Failed
        )
    }
}

/// A leaf on a node.
#[derive(Clone, Copy, Debug, PartialEq, Eq)]
pub struct Cell {
    pub state: CellState,
    /// Whether it may run there.
    pub may: bool,
    /// Whether it may be promoted there.
    pub may_promoted: bool,
    /// Whether its failures keep it from the node.
    pub banned: bool,
    /// Bit i is set where monitor i of the leaf is running.
    pub running: u8,
}

/// What a journal tells of a cluster.
#[derive(PartialEq, Eq, Drop)]
pub struct States {
    pub nodes: Listed<NodeState>,
    /// Leaf by leaf, node by node.
    pub cells: Listed<Cell>,
    /// Per leaf, whether a failure stops it everywhere.
    pub fail_stop: Listed<bool>,
    pub promotions: Listed<Promotion>,
    pub quorum: bool,
    /// The seconds that went by.
    pub moment: u64,
}

impl States {
    /// Whether the node is online. One that isn't there isn't.
    pub fn is_online(&self, node: NodeId) -> bool
        ensures { result ≡ is_online_in self.now.nodes node }
    {
        is_online(self.nodes.as_slice(), node)
    }

    /// What is known of a leaf on a node that are there.
    pub fn cell(&self, leaf: LeafId, node: NodeId) -> Cell
        requires on_node { node < length self.now.nodes }
        requires within { leaf * length self.now.nodes + node < length self.now.cells }
        ensures { slice_get self.now.cells (leaf * length self.now.nodes + node) ≡ Some result }
    {
        let cells = self.cells.as_slice();
        cells[cell_place(self.nodes.len(), leaf, node)]
    }
}

/// What the cluster may do now.
#[derive(Clone, Copy, Debug, PartialEq, Eq)]
pub struct Rights {
    pub may_fence: bool,
    pub may_start: bool,
    /// Whether what runs may stay.
    pub may_keep: bool,
}
