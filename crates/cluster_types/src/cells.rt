//! Cells. A cell is a leaf on a node.

ghost use Rattle.std.specs.Prelude.{◌≡◌, ◌+◌, ◌*◌, ◌<◌, ◌^◌};
ghost use Rattle.cluster_types.specs.Cells as cells;

use crate::journal::{Action, Event};
use crate::leaf::LeafId;
use crate::node::NodeId;

/// The place of a cell in a list that has those of so many nodes, leaf by leaf and node by node. It asks that the place is below 2^64.
pub fn cell_place(nodes: usize, leaf: LeafId, node: NodeId) -> usize
    requires { leaf * nodes + node < 2 ^ 64 }
    ensures { result ≡ leaf * nodes + node }
{
    leaf as usize * nodes + node as usize
}

/// Whether the two cells are one.
pub fn is_same_cell(leaf: LeafId, node: NodeId, other_leaf: LeafId, other_node: NodeId) -> bool
    ensures { result ≡ cells.is_same_cell leaf node other_leaf other_node }
{
    other_leaf == leaf && other_node == node
}

impl Action {
    /// Whether the action is of the cell: a migration is of its source while it sends, and of its target while it takes in (rule of this project).
    pub fn is_of_cell(self, leaf: LeafId, node: NodeId) -> bool
        ensures { result ≡ cells.is_of_cell leaf node self }
    {
        match self {
            Action::Fence { .. } => false,
            Action::Probe {
                leaf: its_leaf,
                node: its_node,
            }
            | Action::Operation {
                leaf: its_leaf,
                node: its_node,
                ..
            } => is_same_cell(leaf, node, its_leaf, its_node),
            Action::MigrateTo {
                leaf: its_leaf,
                source,
                ..
            } => is_same_cell(leaf, node, its_leaf, source),
            Action::MigrateFrom {
                leaf: its_leaf,
                target,
                ..
            } => is_same_cell(leaf, node, its_leaf, target),
        }
    }

    /// Whether the action sends the leaf to the cell.
    pub fn is_sent_to(self, leaf: LeafId, node: NodeId) -> bool
        ensures { result ≡ cells.is_sent_to leaf node self }
    {
        match self {
            Action::MigrateTo {
                leaf: its_leaf,
                target,
                ..
            } => is_same_cell(leaf, node, its_leaf, target),
            _ => false,
        }
    }
}

impl Event {
    /// Whether what was known of the cell before the event counts no more: the node joins, or the cell is cleaned up (rule of this project).
    pub fn is_reset(self, leaf: LeafId, node: NodeId) -> bool
        ensures { result ≡ cells.is_reset leaf node self }
    {
        match self {
            Event::Up { node: joined } => joined == node,
            Event::Cleanup {
                leaf: its_leaf,
                node: its_node,
            } => is_same_cell(leaf, node, its_leaf, its_node),
            _ => false,
        }
    }
}
