//! Actions in few words.

use cluster_types::{Action, LeafId, NodeId, Op, Role};

/// An action of which leaf on which node: a probe, a step, a monitor of this interval, and the two halves of a migration from the first node to the
/// second. A fence is of no leaf.
#[derive(Clone, Copy)]
pub enum Todo {
    Fence(NodeId),
    Probe(LeafId, NodeId),
    Step(Op, LeafId, NodeId),
    Watch(LeafId, NodeId, u32, Role),
    Send(LeafId, NodeId, NodeId),
    TakeIn(LeafId, NodeId, NodeId),
}

/// The action.
pub fn action(todo: Todo) -> Action {
    match todo {
        Todo::Fence(node) => Action::Fence { node },
        Todo::Probe(leaf, node) => Action::Probe { leaf, node },
        Todo::Step(op, leaf, node) => Action::Operation {
            op,
            leaf,
            node,
            interval_ms: 0,
            role: Role::Started,
        },
        Todo::Watch(leaf, node, interval_ms, role) => Action::Operation {
            op: Op::Monitor,
            leaf,
            node,
            interval_ms,
            role,
        },
        Todo::Send(leaf, source, target) => Action::MigrateTo {
            leaf,
            source,
            target,
        },
        Todo::TakeIn(leaf, source, target) => Action::MigrateFrom {
            leaf,
            source,
            target,
        },
    }
}
