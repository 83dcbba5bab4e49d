ghost use Rattle.std.specs.Prelude.{◌≡◌, ◌<◌, ◌++◌, OnOk, map};
ghost use Rattle.std.specs.List.{flat_map};
ghost use Rattle.cluster_types.specs.Numbers.{inverse_links, leaf_links, link, order_links};
ghost use Rattle.cluster_types.specs.Precedence.{takers};
ghost use Rattle.loops.specs.Inner.Edges.{edges_of};

use crate::links::{Step, push_link};
use cluster_types::{Cluster, LeafId, Op, Order, OrderKind};
use edges::Edge;
use std::alloc::AllocError;

/// A step of the leaf.
fn step(what: Op, leaf: LeafId) -> Step
    ensures what { result.what ≡ what }
    ensures leaf { result.leaf ≡ leaf }
{
    Step { what, leaf }
}

/// On one cell the demote comes before the stop, and the start before the promote.
pub fn push_leaf(edges: &mut Vec<Edge>, cluster: &Cluster, leaf: LeafId) -> Result<(), AllocError>
    requires { leaf < 1000000000 }
    ensures { OnOk result (edges.new.items ≡ edges.old.items ++ edges_of cluster.now (leaf_links leaf)) }
{
    push_link(edges, cluster, step(Op::Demote, leaf), step(Op::Stop, leaf))?;
    push_link(
        edges,
        cluster,
        step(Op::Start, leaf),
        step(Op::Promote, leaf),
    )
}

/// The step that takes a role from the then comes before those that take from the first what its word gives.
fn push_takers(
    edges: &mut Vec<Edge>,
    cluster: &Cluster,
    taker: Op,
    order: &Order,
) -> Result<(), AllocError>
    requires first { order.now.first < 1000000000 }
    requires later { order.now.then_leaf < 1000000000 }
    ensures { OnOk result (edges.new.items
        ≡ edges.old.items
        ++ edges_of cluster.now (map (λ q. link taker order.now.then_leaf q order.now.first) (takers order.now.first_op))) }
{
    let before = step(taker, order.then_leaf);
    match order.first_op {
        Op::Start => push_link(edges, cluster, before, step(Op::Stop, order.first)),
        Op::Promote => {
            push_link(edges, cluster, before, step(Op::Demote, order.first))?;
            push_link(edges, cluster, before, step(Op::Stop, order.first))
        }
        _ => Ok(()),
    }
}

/// Whatever takes a role from the then comes before whatever takes from the first what its word gives.
fn push_all_takers(
    edges: &mut Vec<Edge>,
    cluster: &Cluster,
    order: &Order,
) -> Result<(), AllocError>
    requires first { order.now.first < 1000000000 }
    requires later { order.now.then_leaf < 1000000000 }
    ensures { OnOk result (edges.new.items ≡ edges.old.items ++ edges_of cluster.now
        (flat_map (λ p. map (λ q. link p order.now.then_leaf q order.now.first) (takers order.now.first_op)) (takers order.now.then_op))) }
{
    match order.then_op {
        Op::Start => push_takers(edges, cluster, Op::Stop, order),
        Op::Promote => {
            push_takers(edges, cluster, Op::Demote, order)?;
            push_takers(edges, cluster, Op::Stop, order)
        }
        _ => Ok(()),
    }
}

/// The inverse steps come in the inverse order.
fn push_inverse(edges: &mut Vec<Edge>, cluster: &Cluster, order: &Order) -> Result<(), AllocError>
    requires first { order.now.first < 1000000000 }
    requires later { order.now.then_leaf < 1000000000 }
    ensures { OnOk result (edges.new.items ≡ edges.old.items ++ edges_of cluster.now (inverse_links order.now)) }
{
    if order.first_op.is_giving() && order.then_op.is_giving() {
        return push_all_takers(edges, cluster, order);
    }
    let before = step(order.then_op.inverse(), order.then_leaf);
    push_link(
        edges,
        cluster,
        before,
        step(order.first_op.inverse(), order.first),
    )
}

/// The first's step comes before the then's, and where the order is symmetrical so do their inverses, the other way round.
/// An order of kind Serialize says nothing of which comes first.
pub fn push_order(edges: &mut Vec<Edge>, cluster: &Cluster, order: &Order) -> Result<(), AllocError>
    requires first { order.now.first < 1000000000 }
    requires later { order.now.then_leaf < 1000000000 }
    ensures { OnOk result (edges.new.items ≡ edges.old.items ++ edges_of cluster.now (order_links order.now)) }
{
    if order.kind == OrderKind::Serialize {
        return Ok(());
    }
    let before = step(order.first_op, order.first);
    push_link(edges, cluster, before, step(order.then_op, order.then_leaf))?;
    if order.symmetrical {
        push_inverse(edges, cluster, order)
    } else {
        Ok(())
    }
}
