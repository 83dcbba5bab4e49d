//! What the calls of `cluster_types` answer.

ghost use Rattle.std.specs.Prelude.{◌≡◌};

use cluster_types::{
    Action, Cell, CellState, Edge, Edges, Graph, NodeState, Role, States, Table, Target,
};
use listed::Listed;
use std::alloc::{AllocError, Global};

/// Whether the table has the two targets that it was given, and none beside them.
fn has_targets(table: &Table) -> bool {
    table.target(1, 2) == Target::Promoted
        && table.target(0, 1) == Target::Started
        && table.target(1, 1) == Target::Nowhere
        && table.target(0, 2) == Target::Nowhere
}

#[test]
fn a_table_keeps_each_target(rt: HostRuntime) {
    let table = Table::nowhere(rt.alloc(), 2, 3).expect(&rt, "memory");
    assert!(rt; table.targets.len() == 6);
    let table = table
        .with_target(1, 2, Target::Promoted)
        .with_target(0, 1, Target::Started);
    assert!(rt; has_targets(&table));
}

fn probe(node: u32) -> Action
    ensures { result ≡ Action.Probe 0 node }
{
    Action::Probe { leaf: 0, node }
}

fn edge(before: u32, after: u32) -> Edge
    ensures { result ≡ record { before = before; after = after } }
{
    Edge { before, after }
}

/// Four probes and two gates: the first two come before the third through both gates, and the third before the fourth.
fn joined(alloc: Global) -> Result<Graph, AllocError> {
    let actions = [probe(0), probe(1), probe(2), probe(3)].to_vec(alloc)?;
    let list = [edge(0, 4), edge(1, 4), edge(4, 5), edge(5, 2), edge(2, 3)].to_vec(alloc)?;
    let edges = Edges {
        positions: 6,
        list: Listed::from(list),
    };
    Ok(Graph::new(actions, edges))
}

/// Two numbers, and whether the first comes before the second.
const BEFORE: &[(u32, u32, bool)] = &[
    (1, 3, true),
    (2, 3, true),
    (3, 4, true),
    (1, 2, false),
    (1, 4, false),
    (3, 1, false),
    (4, 4, false),
];

#[test]
fn an_action_comes_before_others_through_gates_alone(rt: HostRuntime) {
    let graph = joined(rt.alloc()).expect(&rt, "memory");
    assert!(rt; graph.count() == 4);
    assert!(rt; graph.edges().positions == 6);
    assert!(rt; graph.action(2) == Action::Probe { leaf: 0, node: 1 });
    for (x, y, before) in BEFORE {
        assert!(rt; graph.is_before(*x, *y) == *before);
    }
}

#[test]
fn the_numbers_before_one(rt: HostRuntime) {
    let graph = joined(rt.alloc()).expect(&rt, "memory");
    assert!(rt; graph.count() == 4);
    let before_the_third = graph.befores(rt.alloc(), 3).expect(&rt, "memory");
    assert!(rt; before_the_third.as_slice() == [1, 2].as_slice());
    let before_the_last = graph.befores(rt.alloc(), 4).expect(&rt, "memory");
    assert!(rt; before_the_last.as_slice() == [3].as_slice());
}

/// Whether the roles are those of a table in which one leaf is promoted.
fn has_roles(table: &Table) -> bool {
    table.holds_role(1, Role::Started, 2)
        && table.holds_role(1, Role::Promoted, 2)
        && !table.holds_role(0, Role::Started, 2)
        && table.target(7, 9) == Target::Nowhere
}

#[test]
fn a_leaf_holds_the_roles_of_its_target(rt: HostRuntime) {
    let table = Table::nowhere(rt.alloc(), 2, 3).expect(&rt, "memory");
    assert!(rt; table.targets.len() == 6);
    let table = table.with_target(1, 2, Target::Promoted);
    assert!(rt; has_roles(&table));
}
