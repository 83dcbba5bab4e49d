//! The lines of what was chosen and is held back.

ghost use Rattle.std.specs.Prelude.{◌≡◌, ◌++◌, ◌<◌, length, OnOk};
ghost use Rattle.std.specs.List.{flat_map, range_with_len};
ghost use Rattle.std.specs.Option.{option_copied};
ghost use Rattle.cluster_types.specs.Tables.{targets_of};
ghost use Rattle.cluster_types.specs.Valid.{KeepsLimits};
ghost use Rattle.decision_account.specs.Accounts as accounts;
ghost use Rattle.decision_account.specs.Holders as holders;
ghost use Rattle.decision_account.specs.Verdicts.{missed_colocation};
ghost use Rattle.account_text.specs.Inner.HeldTexts as spec;

use cluster_types::{Cluster, Colocation, Decision, LeafId, NodeId, Order, Role, Table};
use faults::NoMemory;
use placement::has_primary;
use trace_text::push_leaf_on;

/// Whether the leaf was chosen for the role on the node, and has it no more.
fn is_held(chosen: &Table, targets: &Table, leaf: LeafId, role: Role, node: NodeId) -> bool
    ensures { result ≡ holders.is_held_role (targets_of chosen.now) (targets_of targets.now) leaf role node }
{
    chosen.holds_role(leaf, role, node) && !targets.holds_role(leaf, role, node)
}

/// Which decision of the leaf is held back on the node, if one is: that of its place goes first.
fn held_decision(chosen: &Table, targets: &Table, leaf: LeafId, node: NodeId) -> Option<Decision>
    ensures { result ≡ holders.held_decision (targets_of chosen.now) (targets_of targets.now) leaf node }
{
    if is_held(chosen, targets, leaf, Role::Started, node) {
        Some(Decision::Place(leaf))
    } else if is_held(chosen, targets, leaf, Role::Promoted, node) {
        Some(Decision::Promote(leaf))
    } else {
        None
    }
}

/// The first mandatory colocation of the decision whose primary has no target left on the node.
fn missing_colocation<'c>(
    cluster: &'c Cluster,
    targets: &Table,
    decision: Decision,
    node: NodeId,
) -> Option<&'c Colocation>
    ensures { option_copied result ≡ missed_colocation cluster.now (targets_of targets.now) decision node }
{
    cluster
        .colocations
        .iter()
        .find(|rule| !has_primary(*rule, targets, decision, node))
}

/// Whether the first of the order has a target left, in its role and where it counts for the node.
fn has_first(cluster: &Cluster, targets: &Table, order: &Order, node: NodeId) -> bool
    requires { KeepsLimits cluster.now }
    ensures { result ≡ holders.has_first_left cluster.now (targets_of targets.now) order.now node }
{
    let role = order.first_op.role_given();
    (0..cluster.nodes.len() as u32).any(|other| {
        (!order.local || node == other) && targets.holds_role(order.first, role, other)
    })
}

/// Whether the order holds the decision back on the node: it is mandatory, both its words give a role, and its first has no target left.
fn misses_first(
    cluster: &Cluster,
    targets: &Table,
    decision: Decision,
    node: NodeId,
    order: &Order,
) -> bool
    requires { KeepsLimits cluster.now }
    ensures { result ≡ holders.misses_first cluster.now (targets_of targets.now) decision node order.now }
{
    order.is_mandatory()
        && order.first_op.is_giving()
        && order.then_op.is_giving()
        && decision == Decision::of_role(order.then_leaf, order.then_op.role_given())
        && !has_first(cluster, targets, order, node)
}

/// The first order that holds the decision back on the node.
fn missing_order<'c>(
    cluster: &'c Cluster,
    targets: &Table,
    decision: Decision,
    node: NodeId,
) -> Option<&'c Order>
    requires { KeepsLimits cluster.now }
    ensures { option_copied result ≡ holders.missed_order cluster.now (targets_of targets.now) decision node }
{
    cluster.orders.iter().find(|order| misses_first(cluster, targets, decision, node, *order))
}

/// The id of the rule that holds the decision back on the node: of the first such colocation, or of the first such order where there is no such
/// colocation.
fn holder_of<'c>(
    cluster: &'c Cluster,
    targets: &Table,
    decision: Decision,
    node: NodeId,
) -> Option<&'c [u8]>
    requires { KeepsLimits cluster.now }
    ensures { option_copied result ≡ holders.holder_of cluster.now (targets_of targets.now) decision node }
{
    if let Some(rule) = missing_colocation(cluster, targets, decision, node) {
        return Some(rule.id.bytes());
    }
    match missing_order(cluster, targets, decision, node) {
        Some(rule) => Some(rule.id.bytes()),
        None => None,
    }
}

/// The line of a decision that is held back on the node by the rule of this id.
fn push_held_by(
    text: &mut Vec<u8>,
    cluster: &Cluster,
    decision: Decision,
    node: NodeId,
    id: &[u8],
) -> Result<(), NoMemory>
    ensures { OnOk result (text.new.items ≡ text.old.items ++ accounts.why_line cluster.now (accounts.held decision node id.now)) }
{
    let word: &[u8] = match decision {
        Decision::Place(_) => b"held ",
        Decision::Promote(_) => b"unpromoted ",
    };
    text.extend_from_slice(word)?;
    push_leaf_on(text, cluster, decision.leaf(), node as usize)?;
    text.extend_from_slice(b" ")?;
    text.extend_from_slice(id)?;
    text.extend_from_slice(b"\n")?;
    Ok(())
}

/// The line of what is held back of the leaf on the node, if something is.
fn push_cell(
    text: &mut Vec<u8>,
    cluster: &Cluster,
    chosen: &Table,
    targets: &Table,
    leaf: LeafId,
    node: NodeId,
) -> Result<(), NoMemory>
    requires { KeepsLimits cluster.now }
    ensures { OnOk result (text.new.items ≡ text.old.items
        ++ spec.cell_text cluster.now (targets_of chosen.now) (targets_of targets.now) leaf node) }
{
    let Some(decision) = held_decision(chosen, targets, leaf, node) else {
        return Ok(());
    };
    match holder_of(cluster, targets, decision, node) {
        Some(id) => push_held_by(text, cluster, decision, node, id),
        None => Ok(()),
    }
}

/// The lines of what is held back of the leaf, node by node.
#[tactic(auto, using(lemmas::proofs::Grown::values_more))]
fn push_held_of(
    text: &mut Vec<u8>,
    cluster: &Cluster,
    chosen: &Table,
    targets: &Table,
    leaf: LeafId,
) -> Result<(), NoMemory>
    requires { KeepsLimits cluster.now }
    ensures { OnOk result (text.new.items ≡ text.old.items
        ++ flat_map (spec.cell_text cluster.now (targets_of chosen.now) (targets_of targets.now) leaf) (range_with_len 0 (length cluster.now.nodes))) }
{
    for node in 0..cluster.nodes.len() as u32 {
        push_cell(text, cluster, chosen, targets, leaf, node)?;
    }
    Ok(())
}

/// The lines of what was chosen and is held back, leaf by leaf and node by node.
#[tactic(auto, using(lemmas::proofs::Grown::values_more))]
pub(crate) fn push_held(
    text: &mut Vec<u8>,
    cluster: &Cluster,
    chosen: &Table,
    targets: &Table,
) -> Result<(), NoMemory>
    requires { KeepsLimits cluster.now }
    ensures { OnOk result (text.new.items ≡ text.old.items
        ++ flat_map (spec.leaf_text cluster.now (targets_of chosen.now) (targets_of targets.now)) (range_with_len 0 (length cluster.now.leaves))) }
{
    for leaf in 0..cluster.leaves.len() as u32 {
        push_held_of(text, cluster, chosen, targets, leaf)?;
    }
    Ok(())
}
