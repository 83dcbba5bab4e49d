ghost use Rattle.std.specs.Prelude.{◌≡◌, ◌↔◌, ◌≤◌, ◌<◌, ◌++◌, ◌∷◌, [], IfOk, IsTrue, OnOk, length, nat_lt, position};
ghost use Rattle.std.specs.List.{flat_map, range_with_len};
ghost use Rattle.cluster_types.specs.declared.cluster.Cluster.{Cluster};
ghost use Rattle.cluster_types.specs.Numbers.{leaf_links, order_links};
ghost use Rattle.loops.specs.Inner.Edges.{edges_of, order_ends, step_edges};
ghost use Rattle.loops.specs.FirstLoops.{AllOrder, IsFirstOrder, OrdersSteps};

use crate::pushing::{push_leaf, push_order};
use cluster_types::{Cluster, NoMemory, Op, Order};
use edges::{Edge, first_loop};
use faults::done;
use std::alloc::{AllocError, Global};

/// Whether an order is of steps of these leaves.
fn is_of_steps(leaves: usize, order: &Order) -> bool
    ensures { (c : Cluster) → leaves ≡ length c.leaves → IsTrue result ↔ OrdersSteps c order.now }
{
    let are_there = (order.first as usize) < leaves && (order.then_leaf as usize) < leaves;
    are_there && order.first_op != Op::Monitor && order.then_op != Op::Monitor
}

/// Whether both leaves of each order are there, and none of its words is Monitor.
pub fn orders_steps(cluster: &Cluster) -> bool
    ensures { IsTrue result ↔ AllOrder cluster.now }
{
    let leaves = cluster.leaves.len();
    for order in cluster.orders.as_slice() {
        if !is_of_steps(leaves, order) {
            return false;
        }
    }
    true
}

/// The edges of links, and how many there are once each order has given its own.
#[derive(Drop)]
struct StepEdges {
    edges: Vec<Edge>,
    ends: Vec<usize>,
}

/// The edges within each leaf.
fn leaf_edges(alloc: Global, cluster: &Cluster) -> Result<Vec<Edge>, AllocError>
    requires { length cluster.now.leaves ≤ 1000000000 }
    ensures { IfOk result (λ edges. edges.items
        ≡ edges_of cluster.now (flat_map leaf_links (range_with_len 0 (length cluster.now.leaves)))) }
{
    let mut edges = Vec::new(alloc);
    for leaf in 0..cluster.leaves.len() as u32 {
        push_leaf(&mut edges, cluster, leaf)?;
    }
    Ok(edges)
}

impl StepEdges {
    /// Adds the edges of an order.
    fn add_order(&mut self, cluster: &Cluster, order: &Order) -> Result<(), AllocError>
        requires first { order.now.first < 1000000000 }
        requires later { order.now.then_leaf < 1000000000 }
        ensures edges { OnOk result (self.new.edges.items ≡ self.old.edges.items ++ edges_of cluster.now (order_links order.now)) }
        ensures ends { OnOk result (self.new.ends.items ≡ self.old.ends.items ++ length self.new.edges.items ∷ []) }
    {
        push_order(&mut self.edges, cluster, order)?;
        self.ends.push(self.edges.len())?;
        Ok(())
    }

    /// Adds the edges of each order, where those within each leaf are there.
    fn add_orders(&mut self, cluster: &Cluster) -> Result<(), AllocError>
        requires leaves { length cluster.now.leaves ≤ 1000000000 }
        requires ordered { AllOrder cluster.now }
        requires edges { self.old.edges.items ≡ edges_of cluster.now (flat_map leaf_links (range_with_len 0 (length cluster.now.leaves))) }
        requires ends { self.old.ends.items ≡ [] }
        ensures edges { OnOk result (self.new.edges.items ≡ step_edges cluster.now) }
        ensures ends { OnOk result (self.new.ends.items ≡ order_ends cluster.now) }
    {
        for order in cluster.orders.as_slice() {
            self.add_order(cluster, order)?;
        }
        Ok(())
    }
}

/// The edges within each leaf, and then those of each order.
fn edges_of_links(alloc: Global, cluster: &Cluster) -> Result<StepEdges, AllocError>
    requires leaves { length cluster.now.leaves ≤ 1000000000 }
    requires ordered { AllOrder cluster.now }
    ensures edges { IfOk result (λ made. made.edges.items ≡ step_edges cluster.now) }
    ensures ends { IfOk result (λ made. made.ends.items ≡ order_ends cluster.now) }
{
    let edges = leaf_edges(alloc, cluster)?;
    let mut made = StepEdges {
        edges,
        ends: Vec::new(alloc),
    };
    let added = made.add_orders(cluster);
    done(made, added)
}

/// The edges of all links, between the positions of their steps. A leaf has four positions: of its demote, which is 4 * leaf, and behind it
/// of its stop, its start and its promote.
///
/// The leaves of each order are there, and none of its words is Monitor. The time is linear in the leaves and the orders.
pub fn link_edges(alloc: Global, cluster: &Cluster) -> Result<Vec<Edge>, AllocError>
    requires leaves { length cluster.now.leaves ≤ 1000000000 }
    requires ordered { AllOrder cluster.now }
    ensures { IfOk result (λ edges. edges.items ≡ step_edges cluster.now) }
{
    let StepEdges { edges, .. } = edges_of_links(alloc, cluster)?;
    Ok(edges)
}

/// The first rule whose edges end behind the place.
fn rule_at(ends: &[usize], place: usize) -> Option<usize>
    ensures { result ≡ position (λ end. nat_lt place end) ends.now }
{
    ends.iter().position(|end| place < *end)
}

/// The place of the first order whose edges close a loop, and None where none does.
fn closing_order(
    alloc: Global,
    cluster: &Cluster,
    made: &StepEdges,
) -> Result<Option<usize>, NoMemory>
    requires leaves { length cluster.now.leaves ≤ 1000000000 }
    requires ordered { AllOrder cluster.now }
    requires edges { made.now.edges.items ≡ step_edges cluster.now }
    requires ends { made.now.ends.items ≡ order_ends cluster.now }
    ensures { IfOk result (λ place. IsFirstOrder cluster.now place) }
{
    let positions = 4 * cluster.leaves.len() as u32;
    let first = first_loop(alloc, positions, made.edges.as_slice())?;
    match first {
        None => Ok(None),
        Some(place) => Ok(rule_at(made.ends.as_slice(), place)),
    }
}

/// The place, in the cluster's list, of the first order with which a step must come before itself, and None where none must.
///
/// Stops and demotes are looked at apart from starts and promotes. The leaves of each order are there, and none of its words is Monitor.
/// The time is linear in the leaves and the orders, times the logarithm of their number.
pub fn order_loop(alloc: Global, cluster: &Cluster) -> Result<Option<usize>, NoMemory>
    requires leaves { length cluster.now.leaves ≤ 1000000000 }
    requires ordered { AllOrder cluster.now }
    ensures { IfOk result (λ place. IsFirstOrder cluster.now place) }
{
    let made = edges_of_links(alloc, cluster)?;
    closing_order(alloc, cluster, &made)
}
