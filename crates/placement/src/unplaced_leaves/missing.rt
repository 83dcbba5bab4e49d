//! Why leaves have no target.

ghost use Rattle.std.specs.Prelude.{◌≡◌, ◌*◌, ℕ, List, Option, Some, IfOk, length, map, slice_get};
ghost use Rattle.std.specs.List.{range_with_len};
ghost use Rattle.cluster_types.specs.declared.journal.Event.{Event as EventOf};
ghost use Rattle.cluster_types.specs.declared.journal.Promotion.{Promotion as PromotionOf};
ghost use Rattle.cluster_types.specs.declared.placement.NoReason.{NoReason as NoReasonOf};
ghost use Rattle.cluster_types.specs.Held.{AreTargets};
ghost use Rattle.cluster_types.specs.Pins.{pin_of};
ghost use Rattle.cluster_types.specs.Reasons.{HasReason};
ghost use Rattle.cluster_types.specs.Tables.{targets_of};
ghost use Rattle.cluster_types.specs.UnpackedStates.{states_of};
ghost use Rattle.cluster_types.specs.Valid.{KeepsLimits};
ghost use Rattle.placement.specs.Inner.Reasoning as spec;

use crate::choice::caps::is_fail_stopped;
use crate::unplaced_leaves::holders::holder_id;
use crate::unplaced_leaves::plain::plain_reason;
use cluster_types::{
    Cluster, LeafId, NoMemory, NoReason, NodeId, Pin, Role, States, Table, is_pinned,
};
use crm_lex::Name;
use listed::Listed;
use state_unpack::rights;
use std::alloc::Global;

/// The earliest node on which the leaf has a target.
fn first_node(table: &Table, leaf: LeafId) -> Option<NodeId>
    ensures { result ≡ spec.first_target_node table.now.nodes (targets_of table.now) leaf }
{
    (0..table.nodes).find(|node| table.holds_role(leaf, Role::Started, *node))
}

fn has_target(table: &Table, leaf: LeafId) -> bool
    ensures { result ≡ spec.has_target table.now.nodes (targets_of table.now) leaf }
{
    (0..table.nodes).any(|node| table.holds_role(leaf, Role::Started, node))
}

/// The reason of a rule that holds the leaf back on the node.
fn held_reason(
    alloc: Global,
    cluster: &Cluster,
    targets: &Table,
    leaf: LeafId,
    node: Option<NodeId>,
) -> Result<Option<NoReason>, NoMemory>
    ensures { IfOk result (λ reason. reason ≡ spec.held_by cluster.now targets.now.nodes (targets_of targets.now) leaf node) }
{
    let Some(node) = node else {
        return Ok(None);
    };
    let Some(id) = holder_id(cluster, targets, leaf, node) else {
        return Ok(None);
    };
    let id = Name::from_bytes(alloc, id)?;
    Ok(Some(NoReason::Held(id)))
}

/// The reason of a leaf that isn't left as it is and has no target.
fn reason_of(
    alloc: Global,
    cluster: &Cluster,
    states: &States,
    may_start: bool,
    chosen: &Table,
    targets: &Table,
    leaf: LeafId,
) -> Result<Option<NoReason>, NoMemory>
    requires { chosen.now.nodes ≡ targets.now.nodes }
    ensures { IfOk result (λ reason. reason
        ≡ spec.reason_by cluster.now states.now may_start targets.now.nodes (targets_of chosen.now) (targets_of targets.now) leaf) }
{
    let node = first_node(chosen, leaf);
    let stopped = is_fail_stopped(states, leaf);
    if let Some(reason) = plain_reason(cluster, leaf, stopped, may_start, node.is_none()) {
        return Ok(Some(reason));
    }
    held_reason(alloc, cluster, targets, leaf, node)
}

/// Whether the leaf needs a reason: it isn't left as it is, and has no target.
fn needs_reason(pins: &[Option<Pin>], targets: &Table, leaf: LeafId) -> bool
    ensures { result ≡ spec.needs_reason pins.now targets.now.nodes (targets_of targets.now) leaf }
{
    !is_pinned(pins, leaf) && !has_target(targets, leaf)
}

/// The reason of the leaf, if it needs one.
fn needed_reason(
    alloc: Global,
    cluster: &Cluster,
    states: &States,
    may_start: bool,
    pins: &[Option<Pin>],
    chosen: &Table,
    targets: &Table,
    leaf: LeafId,
) -> Result<Option<NoReason>, NoMemory>
    requires { chosen.now.nodes ≡ targets.now.nodes }
    ensures { IfOk result (λ reason. reason
        ≡ spec.reason_in cluster.now states.now may_start targets.now.nodes (targets_of chosen.now) (targets_of targets.now) pins.now leaf) }
{
    if needs_reason(pins, targets, leaf) {
        reason_of(alloc, cluster, states, may_start, chosen, targets, leaf)
    } else {
        Ok(None)
    }
}

/// Of each leaf its reason, if it needs one.
fn all_reasons(
    alloc: Global,
    cluster: &Cluster,
    states: &States,
    may_start: bool,
    pins: &[Option<Pin>],
    chosen: &Table,
    targets: &Table,
) -> Result<Vec<Option<NoReason>>, NoMemory>
    requires limits { KeepsLimits cluster.now }
    requires nodes { chosen.now.nodes ≡ targets.now.nodes }
    ensures { IfOk result (λ none. none.items
        ≡ map (spec.reason_in cluster.now states.now may_start targets.now.nodes (targets_of chosen.now) (targets_of targets.now) pins.now)
        (range_with_len 0 (length cluster.now.leaves))) }
{
    let mut none = Vec::with_capacity(alloc, cluster.leaves.len())?;
    for leaf in 0..cluster.leaves.len() {
        let reason = needed_reason(
            alloc,
            cluster,
            states,
            may_start,
            pins,
            chosen,
            targets,
            leaf as u32,
        )?;
        none.push_reserved(reason);
    }
    Ok(none)
}

/// Why each leaf has no target (rule of this project). A leaf that is left as it is, or has a target, needs no reason. Of the others the first
/// of these counts: it may have no copy, it is to be stopped, a failure stops it, all resources are stopped, the cluster may start nothing, no
/// node was chosen for it, or it is held back by a rule: on the earliest node that was chosen for it, by the first mandatory colocation of which
/// it is the dependent there, or the first order where there is no such colocation, whose other side has no target left.
///
/// The states are those that some journal tells of the cluster, the pins say of each leaf why it is left as it is, if it is, the first table is
/// that after all decisions, and the second has the targets in the end; of others nothing is said. Out of memory is the only other answer. The
/// time is that of the tables, and for each leaf that is held back that of the rules.
pub fn reasons(
    alloc: Global,
    cluster: &Cluster,
    states: &States,
    pins: &[Option<Pin>],
    chosen: &Table,
    targets: &Table,
) -> Result<Listed<Option<NoReason>>, NoMemory>
    requires limits { KeepsLimits cluster.now }
    requires nodes { chosen.now.nodes ≡ length cluster.now.nodes }
    requires same_nodes { targets.now.nodes ≡ length cluster.now.nodes }
    requires size { length chosen.now.targets ≡ length cluster.now.leaves * length cluster.now.nodes }
    requires same_size { length targets.now.targets ≡ length cluster.now.leaves * length cluster.now.nodes }
    ensures leaves { IfOk result (λ none. length none ≡ length cluster.now.leaves) }
    ensures reasons { IfOk result (λ none. (events : List EventOf) (promotions : List PromotionOf)
        → states.now ≡ states_of cluster.now events promotions
        → pins.now ≡ map (pin_of cluster.now events) (range_with_len 0 (length cluster.now.leaves))
        → AreTargets cluster.now events (targets_of chosen.now) (targets_of targets.now)
        → (r : ℕ) (reason : Option NoReasonOf) → slice_get none r ≡ Some reason
        → HasReason cluster.now events (targets_of chosen.now) (targets_of targets.now) r reason) }
{
    let may_start = rights(cluster, states).may_start;
    let none = all_reasons(alloc, cluster, states, may_start, pins, chosen, targets)?;
    Ok(Listed::from(none))
}
