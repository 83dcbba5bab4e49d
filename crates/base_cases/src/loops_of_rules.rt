//! Which rule closes a loop.

use crate::resolved_texts::{cluster, name};
use cluster_types::{Cluster, Colocation, LeafId, Op, Order, OrderKind, Role};
use listed::Listed;
use loops::{colocation_loop, joins_leaves, order_loop, orders_steps};
use score::Score;
use std::alloc::Global;
use std::process::Abort;

const LEAVES: &str = "node n|primitive a ocf:pacemaker:Dummy|primitive b ocf:pacemaker:Dummy|\
    primitive c ocf:pacemaker:Stateful|clone cs c meta promotable=true";

/// Three leaves, of which the last is promotable, with these rules among them.
fn cluster_with(
    rt: &impl Abort,
    alloc: Global,
    colocations: Listed<Colocation>,
    orders: Listed<Order>,
) -> Cluster {
    let mut cluster = cluster(rt, alloc, LEAVES);
    cluster.colocations = colocations;
    cluster.orders = orders;
    cluster
}

fn closing_colocation(rt: &impl Abort, alloc: Global, cluster: &Cluster) -> Option<usize> {
    assert!(rt; cluster.leaves.len() <= 1_000);
    assert!(rt; joins_leaves(cluster));
    colocation_loop(alloc, cluster).expect(rt, "memory")
}

fn closing_order(rt: &impl Abort, alloc: Global, cluster: &Cluster) -> Option<usize> {
    assert!(rt; cluster.leaves.len() <= 1_000);
    assert!(rt; orders_steps(cluster));
    order_loop(alloc, cluster).expect(rt, "memory")
}

/// The leaf and the role of the dependent, and of the primary.
type Pair = (LeafId, Role, LeafId, Role);

fn colocation(rt: &impl Abort, alloc: Global, pair: &Pair) -> Colocation {
    let (dependent, dependent_role, primary, primary_role) = *pair;
    Colocation {
        id: name(rt, alloc, "x"),
        dependent,
        dependent_role,
        primary,
        primary_role,
        score: Score { points: 5 },
    }
}

/// Which colocation closes a loop, of those of finite scores between these leaves and roles.
fn colocated(rt: &impl Abort, alloc: Global, pairs: &[Pair]) -> Option<usize> {
    let mut colocations = Listed::new(alloc);
    for pair in pairs {
        colocations
            .push(colocation(rt, alloc, pair))
            .expect(rt, "memory");
    }
    let cluster = cluster_with(rt, alloc, colocations, Listed::new(alloc));
    closing_colocation(rt, alloc, &cluster)
}

const S: Role = Role::Started;

const P: Role = Role::Promoted;

/// Colocations, and which of them closes a loop.
const COLOCATED: &[(&[Pair], Option<usize>)] = &[
    (&[], None),
    (&[(0, S, 1, S), (1, S, 0, S)], Some(1)),
    (&[(0, S, 1, S), (0, S, 2, P), (1, S, 1, S)], Some(2)),
    (&[(2, P, 2, S), (2, S, 0, S)], None),
    (&[(2, P, 0, S), (2, S, 2, P), (0, S, 0, S)], Some(1)),
];

#[test]
fn colocations_that_need_each_other(rt: HostRuntime) {
    for (pairs, want) in COLOCATED {
        assert!(rt; colocated(&rt, rt.alloc(), pairs) == *want);
    }
}

/// A step, and the one that comes behind it.
type Steps = (Op, LeafId, Op, LeafId);

fn order(
    rt: &impl Abort,
    alloc: Global,
    kind: OrderKind,
    symmetrical: bool,
    steps: &Steps,
) -> Order {
    let (first_op, first, then_op, then_leaf) = *steps;
    Order {
        id: name(rt, alloc, "x"),
        kind,
        first,
        first_op,
        then_leaf,
        then_op,
        symmetrical,
        local: false,
    }
}

/// The kind of the orders, whether they are symmetrical, their steps, and which of them closes a loop.
type Orders = (OrderKind, bool, &'static [Steps], Option<usize>);

/// Which order closes a loop.
fn ordered(
    rt: &impl Abort,
    alloc: Global,
    (kind, symmetrical, pairs, _): &Orders,
) -> Option<usize> {
    let mut orders = Listed::new(alloc);
    for steps in *pairs {
        orders
            .push(order(rt, alloc, *kind, *symmetrical, steps))
            .expect(rt, "memory");
    }
    let cluster = cluster_with(rt, alloc, Listed::new(alloc), orders);
    closing_order(rt, alloc, &cluster)
}

const STARTS: [Steps; 2] = [(Op::Start, 0, Op::Start, 1), (Op::Start, 1, Op::Start, 0)];

const STARTS_AND_STOPS: [Steps; 2] = [(Op::Start, 0, Op::Start, 1), (Op::Stop, 0, Op::Stop, 1)];

const ACROSS: [Steps; 2] = [(Op::Stop, 0, Op::Start, 1), (Op::Stop, 1, Op::Start, 0)];

const PROMOTES: [Steps; 2] = [(Op::Promote, 2, Op::Start, 0), (Op::Start, 0, Op::Start, 2)];

/// The second leaf can't be promoted.
const NOT_THERE: [Steps; 2] = [
    (Op::Promote, 1, Op::Start, 0),
    (Op::Start, 0, Op::Promote, 1),
];

const ORDERED: &[Orders] = &[
    (OrderKind::Mandatory, true, &[], None),
    (OrderKind::Mandatory, true, &STARTS, Some(1)),
    (OrderKind::Optional, false, &STARTS, Some(1)),
    (OrderKind::Serialize, true, &STARTS, None),
    (OrderKind::Mandatory, true, &STARTS_AND_STOPS, Some(1)),
    (OrderKind::Mandatory, false, &STARTS_AND_STOPS, None),
    (OrderKind::Mandatory, true, &ACROSS, None),
    (OrderKind::Mandatory, false, &PROMOTES, Some(1)),
    (OrderKind::Mandatory, false, &NOT_THERE, None),
];

#[test]
fn orders_that_come_before_each_other(rt: HostRuntime) {
    for row in ORDERED {
        assert!(rt; ordered(&rt, rt.alloc(), row) == row.3);
    }
}
