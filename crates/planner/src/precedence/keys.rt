//! By which cell an action stands on a side.

ghost use Rattle.std.specs.Prelude.{◌≡◌};
ghost use Rattle.cluster_types.specs.Precedence as precedence;
ghost use Rattle.planner.specs.Joins as spec;
ghost use Rattle.planner.specs.Inner.Leaves as leaves;

use crate::precedence::sides::Side;
use cluster_types::{Action, Cluster, LeafId, NodeId, Op, Role};
use std::marker::Model;

/// A leaf and a node.
#[derive(Drop)]
pub struct Key {
    pub leaf: LeafId,
    pub node: NodeId,
}

impl Model for Key {
    ghost use Rattle.cluster_types.specs.Precedence.{LeafOnNode};

    ghost Value = { LeafOnNode };

    ghost view = { λ key. record { leaf = key.leaf; node = key.node } };
}

fn is_same_op(one: Op, other: Op) -> bool
    ensures { result ≡ precedence.is_same_op one other }
{
    match (one, other) {
        (Op::Start, Op::Start)
        | (Op::Stop, Op::Stop)
        | (Op::Promote, Op::Promote)
        | (Op::Demote, Op::Demote)
        | (Op::Monitor, Op::Monitor) => true,
        _ => false,
    }
}

fn at(leaf: LeafId, node: NodeId) -> Option<Key>
    ensures { result ≡ precedence.cell_of leaf node }
{
    Some(Key { leaf, node })
}

fn op_key(word: Op, action: Action) -> Option<Key>
    ensures { result ≡ precedence.op_cell word action }
{
    match action {
        Action::Operation { op, leaf, node, .. } => {
            if is_same_op(word, op) {
                at(leaf, node)
            } else {
                None
            }
        }
        _ => None,
    }
}

fn probe_key(action: Action) -> Option<Key>
    ensures { result ≡ precedence.probe_cell action }
{
    match action {
        Action::Probe { leaf, node } => at(leaf, node),
        _ => None,
    }
}

fn start_key(action: Action) -> Option<Key>
    ensures { result ≡ precedence.start_cell action }
{
    match action {
        Action::MigrateTo { leaf, target, .. } => at(leaf, target),
        _ => op_key(Op::Start, action),
    }
}

fn gives_any(action: Action) -> Option<Key>
    ensures { result ≡ precedence.gives_any action }
{
    match action {
        Action::Operation {
            op: Op::Promote,
            leaf,
            node,
            ..
        } => at(leaf, node),
        _ => start_key(action),
    }
}

pub fn change_key(action: Action) -> Option<Key>
    ensures { result ≡ precedence.step_cell action }
{
    match action {
        Action::Operation {
            op: Op::Monitor,
            ..
        } => None,
        Action::Operation { leaf, node, .. } => at(leaf, node),
        _ => None,
    }
}

fn gives_role(role: Role, action: Action) -> Option<Key>
    ensures { result ≡ precedence.gives_role role action }
{
    match role {
        Role::Started => start_key(action),
        Role::Promoted => op_key(Op::Promote, action),
    }
}

fn takes_or_probes(role: Role, action: Action) -> Option<Key>
    ensures { result ≡ precedence.takes_or_probes role action }
{
    match (role, action) {
        (_, Action::Probe { leaf, node }) => at(leaf, node),
        (
            Role::Promoted,
            Action::Operation {
                op: Op::Demote,
                leaf,
                node,
                ..
            },
        ) => at(leaf, node),
        _ => op_key(Op::Stop, action),
    }
}

fn as_earlier(word: Op, action: Action) -> Option<Key>
    ensures { result ≡ precedence.as_earlier word action }
{
    match (word, action) {
        (Op::Start, Action::MigrateFrom { leaf, target, .. }) => at(leaf, target),
        _ => op_key(word, action),
    }
}

/// The action as the later of a pair by a stop. Whether its leaf migrates is given with it.
fn as_later_stop(action: Action, migrates: bool) -> Option<Key>
    ensures { result ≡ leaves.later_stop migrates action }
{
    match action {
        Action::MigrateTo { leaf, source, .. } => at(leaf, source),
        Action::Operation {
            op: Op::Stop,
            leaf,
            node,
            ..
        } => { if migrates { None } else { at(leaf, node) } }
        _ => None,
    }
}

fn as_later(word: Op, action: Action, migrates: bool) -> Option<Key>
    ensures { result ≡ leaves.later_by migrates word action }
{
    match word {
        Op::Start => start_key(action),
        Op::Stop => as_later_stop(action, migrates),
        _ => op_key(word, action),
    }
}

fn take_key(action: Action) -> Option<Key>
    ensures { result ≡ spec.take_cell action }
{
    match action {
        Action::Operation {
            op: Op::Demote,
            leaf,
            node,
            ..
        } => at(leaf, node),
        _ => op_key(Op::Stop, action),
    }
}

fn earlier_taker(word: Op, action: Action) -> Option<Key>
    ensures { result ≡ spec.earlier_taker word action }
{
    match word {
        Op::Start => op_key(Op::Stop, action),
        Op::Promote => take_key(action),
        _ => None,
    }
}

fn later_demote(action: Action, migrates: bool) -> Option<Key>
    ensures { result ≡ leaves.later_demote_by migrates action }
{
    match action {
        Action::Operation {
            op: Op::Demote,
            leaf,
            node,
            ..
        } => at(leaf, node),
        _ => as_later_stop(action, migrates),
    }
}

fn later_taker(word: Op, action: Action, migrates: bool) -> Option<Key>
    ensures { result ≡ leaves.later_taker_by migrates word action }
{
    match word {
        Op::Start => as_later_stop(action, migrates),
        Op::Promote => later_demote(action, migrates),
        _ => None,
    }
}

fn fence_key(action: Action) -> Option<Key>
    ensures { result ≡ spec.fence_cell action }
{
    match action {
        Action::Fence { .. } => at(0, 0),
        _ => None,
    }
}

fn before_stop(action: Action) -> Option<Key>
    ensures { result ≡ spec.before_stop action }
{
    match action {
        Action::MigrateFrom { leaf, source, .. } => at(leaf, source),
        _ => op_key(Op::Demote, action),
    }
}

fn before_monitor(action: Action) -> Option<Key>
    ensures { result ≡ spec.before_monitor action }
{
    match action {
        Action::MigrateFrom { leaf, target, .. } => at(leaf, target),
        _ => change_key(action),
    }
}

fn send_key(action: Action) -> Option<Key>
    ensures { result ≡ spec.send_cell action }
{
    match action {
        Action::MigrateTo { leaf, .. } => at(leaf, 0),
        _ => None,
    }
}

fn take_in_key(action: Action) -> Option<Key>
    ensures { result ≡ spec.take_in_cell action }
{
    match action {
        Action::MigrateFrom { leaf, .. } => at(leaf, 0),
        _ => None,
    }
}

fn by_leaf(key: Option<Key>) -> Option<Key>
    ensures { result ≡ spec.by_leaf key }
{
    match key {
        Some(key) => at(key.leaf, 0),
        None => None,
    }
}

fn together(key: Option<Key>) -> Option<Key>
    ensures { result ≡ spec.same_join_cell key }
{
    match key {
        Some(_) => at(0, 0),
        None => None,
    }
}

fn alone(cluster: &Cluster, key: Option<Key>) -> Option<Key>
    ensures { result ≡ spec.alone cluster.now key }
{
    match key {
        Some(key) => {
            if (cluster.copies(key.leaf) as usize) < cluster.nodes.len() {
                at(key.leaf, 0)
            } else {
                at(key.leaf, key.node)
            }
        }
        None => None,
    }
}

pub fn in_leaf(leaf: LeafId, by_node: bool, key: Option<Key>) -> Option<Key>
    ensures { result ≡ spec.in_leaf leaf by_node key }
{
    match key {
        Some(key) => {
            if key.leaf != leaf {
                return None;
            }
            if by_node { at(0, key.node) } else { at(0, 0) }
        }
        None => None,
    }
}

/// By which cell the action stands on the side, if it does. Whether its leaf migrates is given with it.
pub fn key_of(cluster: &Cluster, side: Side, action: Action, migrates: bool) -> Option<Key>
    ensures { result ≡ leaves.key_by cluster.now migrates side action }
{
    match side {
        Side::Probes => by_leaf(probe_key(action)),
        Side::Gives => by_leaf(gives_any(action)),
        Side::StopsAlone => alone(cluster, op_key(Op::Stop, action)),
        Side::StartsAlone => alone(cluster, op_key(Op::Start, action)),
        Side::Fences => fence_key(action),
        Side::GivesAnything => together(gives_any(action)),
        Side::BeforeStops => before_stop(action),
        Side::Stops => op_key(Op::Stop, action),
        Side::Starts => op_key(Op::Start, action),
        Side::Promotes => op_key(Op::Promote, action),
        Side::BeforeMonitors => before_monitor(action),
        Side::Monitors => op_key(Op::Monitor, action),
        Side::Takes => by_leaf(take_key(action)),
        Side::PromotesOf => by_leaf(op_key(Op::Promote, action)),
        Side::Sends => send_key(action),
        Side::TakesIn => take_in_key(action),
        Side::Parts { leaf, role } => in_leaf(leaf, true, takes_or_probes(role, action)),
        Side::GivesRole { leaf, role } => in_leaf(leaf, true, gives_role(role, action)),
        Side::Earlier { leaf, word, local } => in_leaf(leaf, local, as_earlier(word, action)),
        Side::EarlierTakers { leaf, word, local } => {
            in_leaf(leaf, local, earlier_taker(word, action))
        }
        Side::Later { leaf, word, local } => {
            in_leaf(leaf, local, as_later(word, action, migrates))
        }
        Side::LaterTakers { leaf, word, local } => {
            in_leaf(leaf, local, later_taker(word, action, migrates))
        }
    }
}
