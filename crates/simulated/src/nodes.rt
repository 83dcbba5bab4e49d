//! What is kept of all nodes.

ghost use Rattle.std.specs.Prelude.{◌≡◌, ℕ, nat_lt, if◌then◌else◌, IfSome, length};
ghost use Rattle.simulated.specs.declared.real.Standing.{Standing as StandingOf};
ghost use Rattle.simulated.specs.declared.real.Standing.TheVariants as standing;
ghost use Rattle.simulated.specs.KeptReality.{ListsNodes};
ghost use Rattle.simulated.specs.Inner.NodeTurns.{IsOfNode, node_turn_from};
ghost use Rattle.simulated.specs.Turns.{fenced, with_node};

use crate::real::Standing;
use crate::turn::Turn;
use cluster_types::{Action, Cluster, NodeId};

/// The node stands so from now on, if there is such a node.
pub fn set_node(nodes: &mut Vec<Standing>, node: NodeId, standing: Standing)
    ensures held { (count : ℕ) (held : ℕ → StandingOf) → ListsNodes count nodes.old.items held → ListsNodes count nodes.new.items (with_node node standing held) }
    ensures len { length nodes.new.items ≡ length nodes.old.items }
{
    if (node as usize) < nodes.len() {
        nodes[node as usize] = standing;
    }
}

/// A fence is done: the node is off.
pub fn fence(nodes: &mut Vec<Standing>, action: Action)
    ensures held { (count : ℕ) (held : ℕ → StandingOf) → ListsNodes count nodes.old.items held → ListsNodes count nodes.new.items (fenced action held) }
    ensures len { length nodes.new.items ≡ length nodes.old.items }
{
    match action {
        Action::Fence { node } => set_node(nodes, node, Standing::Off),
        Action::Probe { .. }
        | Action::Operation { .. }
        | Action::MigrateTo { .. }
        | Action::MigrateFrom { .. } => {}
    }
}

/// How a node stands that leaves without a word: without fencing it has stopped, as the configuration takes it.
pub fn left_behind(cluster: &Cluster) -> Standing
    ensures { result ≡ (if cluster.now.properties.fencing then standing.Lost else standing.Off) }
{
    if cluster.properties.fencing {
        Standing::Lost
    } else {
        Standing::Off
    }
}

/// What comes of a node that was drawn, by the first number.
pub fn node_turn(nodes: &[Standing], die: u32, node: NodeId) -> Option<Turn>
    ensures turn { (held : ℕ → StandingOf) → ListsNodes (length nodes.now) nodes.now held
        → result ≡ node_turn_from die node (nat_lt node (length nodes.now)) (held node) }
    ensures node { IfSome result IsOfNode }
{
    let Some(standing) = nodes.get(node as usize) else {
        return None;
    };
    match *standing {
        Standing::Up if die == 0 => Some(Turn::Leaves { node }),
        Standing::Off if die == 1 => Some(Turn::Joins { node }),
        _ => None,
    }
}
