//! Where a decision is permitted.

ghost use Rattle.std.specs.Prelude.{◌≡◌, ◌&&◌, ◌||◌, ◌<◌, ℕ, length};
ghost use Rattle.cluster_types.specs.Choice as choice;
ghost use Rattle.cluster_types.specs.Tables.{targets_of};
ghost use Rattle.score.specs.NodeSet.{has};
ghost use Rattle.placement.specs.Reads as spec;
ghost use Rattle.placement.specs.Inner.Reads as inner;
ghost use Rattle.placement.specs.UsableNodes.{is_usable_by};

use crate::choice::cells::{active_count, is_kept};
use crate::choice::inputs::Known;
use cluster_types::{Decision, LeafId, NodeId, Role, Table};
use score::NodeSet;

/// Whether what runs of the leaf may stay, as far as the cluster and its copies are asked: it runs in no more cells than it has copies (rule of this
/// project).
pub fn may_stay(known: &Known, leaf: LeafId) -> bool
    ensures { result ≡ spec.may_stay_in known.now.cluster.now known.now.states.now known.now.rights leaf }
{
    known.rights.may_keep
        && active_count(known.cluster, known.states, leaf) <= known.cluster.copies(leaf)
}

/// Whether the leaf has the target on the node that the decision asks for: a leaf is promoted only where it is placed.
pub fn is_placed(table: &Table, decision: Decision, node: NodeId) -> bool
    ensures { result ≡ choice.is_placed_for (targets_of table.now) decision node }
{
    match decision {
        Decision::Place(_) => true,
        Decision::Promote(leaf) => table.holds_role(leaf, Role::Started, node),
    }
}

/// Whether a node that is there is usable, and the decision permitted there. Whether what runs of the leaf may stay is handed in.
fn is_open(known: &Known, table: &Table, decision: Decision, may_stay: bool, node: NodeId) -> bool
    requires { node < length known.now.cluster.now.nodes }
    ensures { result ≡ (is_usable_by known.now.cluster.now known.now.states.now node
        && (known.now.rights.may_start || may_stay && spec.is_kept_in known.now.cluster.now known.now.states.now decision node)
        && choice.is_placed_for (targets_of table.now) decision node) }
{
    known.usable.has(node)
        && (known.rights.may_start
            || may_stay && is_kept(known.cluster, known.states, decision, node))
        && is_placed(table, decision, node)
}

/// The usable nodes on which the decision is permitted: where the cluster may start the leaf, or what runs there may stay (Pacemaker Explained,
/// "no-quorum-policy").
pub(crate) fn open_nodes(known: &Known, table: &Table, decision: Decision) -> NodeSet
    ensures { (n : ℕ) → has result n ≡ inner.is_open_in known.now.cluster.now known.now.states.now known.now.rights (targets_of table.now) decision n }
{
    let stays = may_stay(known, decision.leaf());
    NodeSet::of(known.cluster.nodes.len() as u32, |node| {
        is_open(known, table, decision, stays, node)
    })
}
