//! Which nodes are to be fenced.

ghost use Rattle.std.specs.Prelude.{◌≡◌, ◌≤◌, ◌++◌, ◌∷◌, [], if◌then◌else◌, List, IfOk, OnOk, filter, length};
ghost use Rattle.std.specs.List.{range_with_len};
ghost use Rattle.cluster_types.specs.declared.journal.Event.{Event as EventOf};
ghost use Rattle.cluster_types.specs.declared.journal.Promotion.{Promotion as PromotionOf};
ghost use Rattle.cluster_types.specs.NodeStates.{is_unclean_state};
ghost use Rattle.cluster_types.specs.Rights.{is_to_be_fenced};
ghost use Rattle.cluster_types.specs.UnpackedStates.{states_of};
ghost use Rattle.state_unpack.specs.Inner.Unclean.{unclean_in};

use crate::acting::rights;
use cluster_types::{Cluster, NoMemory, NodeId, NodeState, States};
use std::alloc::{AllocError, Global};

/// Adds the node, if it is unclean.
fn push_unclean(state: NodeState, node: NodeId, found: &mut Vec<NodeId>) -> Result<(), AllocError>
    ensures { OnOk result (found.new.items ≡ found.old.items ++ (if is_unclean_state state then node ∷ [] else [])) }
{
    if state == NodeState::Unclean {
        found.push(node)?;
    }
    Ok(())
}

/// The nodes that are unclean, by their states.
fn unclean_in(alloc: Global, nodes: &[NodeState]) -> Result<Vec<NodeId>, AllocError>
    requires { length nodes.now ≤ 256 }
    ensures { IfOk result (λ found. found.items ≡ unclean_in nodes.now) }
{
    let mut found = Vec::new(alloc);
    for node in 0..nodes.len() {
        push_unclean(nodes[node], node as u32, &mut found)?;
    }
    Ok(found)
}

/// The nodes that are to be fenced, by rising number: each unclean one, where the cluster may fence (Pacemaker Explained, "Fencing"; that it may fence
/// all alike is a rule of this project). The states are those that some journal tells of the cluster, of at most 256 nodes.
pub fn to_fence(alloc: Global, cluster: &Cluster, states: &States) -> Result<Vec<NodeId>, NoMemory>
    requires { length states.now.nodes ≤ 256 }
    ensures { IfOk result (λ nodes. (events : List EventOf) (promotions : List PromotionOf)
        → states.now ≡ states_of cluster.now events promotions
        → nodes.items ≡ filter (λ n. is_to_be_fenced cluster.now n events) (range_with_len 0 (length cluster.now.nodes))) }
{
    if !rights(cluster, states).may_fence {
        return Ok(Vec::new(alloc));
    }
    Ok(unclean_in(alloc, states.nodes.as_slice())?)
}
