//! Which leaves get a step anywhere, and which of them no rule keeps from migrating.

ghost use Rattle.std.specs.Prelude.{◌≡◌, ◌<◌, ◌==◌, ◌&&◌, ℕ, not, IfOk, length, map};
ghost use Rattle.std.specs.List.{range_with_len};
ghost use Rattle.listed.specs.Flags.{is_marked};
ghost use Rattle.cluster_types.specs.Valid.{KeepsLimits};
ghost use Rattle.planner.specs.Inner.Actions as actions;
ghost use Rattle.planner.specs.Inner.Works.{marks_of, needs_of};

use crate::needed_actions::work::CellWork;
use cluster_types::{Cluster, Colocation, LeafId, Op, Order, OrderKind};
use listed::flag_at;
use std::alloc::{AllocError, Global};

/// Whether the leaf gets a step on any node.
fn is_touched(cluster: &Cluster, work: &CellWork, leaf: LeafId) -> bool
    requires { KeepsLimits cluster.now }
    ensures { result ≡ actions.is_touched cluster.now (needs_of work.now) (marks_of work.now) leaf }
{
    let nodes = cluster.nodes.len() as u32;
    (0..nodes).any(|node| work.has_steps(leaf, node))
}

/// Which leaves get a step on any node.
#[tactic(auto, using(lemmas::proofs::Grown::value_more))]
pub fn touched(alloc: Global, cluster: &Cluster, work: &CellWork) -> Result<Vec<bool>, AllocError>
    requires { KeepsLimits cluster.now }
    ensures { IfOk result (λ flags. flags.items
        ≡ map (actions.is_touched cluster.now (needs_of work.now) (marks_of work.now)) (range_with_len 0 (length cluster.now.leaves))) }
{
    let mut flags = Vec::new(alloc);
    for leaf in 0..cluster.leaves.len() as u32 {
        flags.push(is_touched(cluster, work, leaf))?;
    }
    Ok(flags)
}

/// Takes the flag of the leaf away, where this holds.
fn clear_if(flags: &mut Vec<bool>, leaf: LeafId, clears: bool)
    ensures size { length flags.new.items ≡ length flags.old.items }
    ensures flags { (r : ℕ) → is_marked flags.new.items r ≡ (is_marked flags.old.items r && not (r == leaf && clears)) }
{
    if clears && (leaf as usize) < flags.len() {
        flags[leaf as usize] = false;
    }
}

/// Whether the order keeps its first from migrating: the then gets a step, and the order says more than that it waits for a start.
fn keeps_first(touched: &[bool], order: &Order) -> bool
    ensures { result ≡ actions.keeps_first (is_marked touched.now) order.now }
{
    (order.kind == OrderKind::Serialize || order.first_op != Op::Start)
        && flag_at(touched, order.then_leaf)
}

/// Whether it keeps its then from migrating: the first, which is another leaf, gets a step.
fn keeps_then(touched: &[bool], order: &Order) -> bool
    ensures { result ≡ actions.keeps_then (is_marked touched.now) order.now }
{
    order.first != order.then_leaf && flag_at(touched, order.first)
}

/// Takes the flags away of the leaves that the order keeps from migrating.
fn clear_by_order(flags: &mut Vec<bool>, touched: &[bool], order: &Order)
    ensures size { length flags.new.items ≡ length flags.old.items }
    ensures flags { (r : ℕ) → is_marked flags.new.items r
        ≡ (is_marked flags.old.items r && actions.is_harmless_order (is_marked touched.now) r order.now) }
{
    clear_if(flags, order.first, keeps_first(touched, order));
    clear_if(flags, order.then_leaf, keeps_then(touched, order));
}

/// Takes the flags away of the leaves that the colocation keeps from migrating: the one side of a separation, where the other gets a
/// step.
fn clear_by_colocation(flags: &mut Vec<bool>, touched: &[bool], colocation: &Colocation)
    ensures size { length flags.new.items ≡ length flags.old.items }
    ensures flags { (r : ℕ) → is_marked flags.new.items r
        ≡ (is_marked flags.old.items r && actions.is_harmless_colocation (is_marked touched.now) r colocation.now) }
{
    let apart = colocation.is_separation();
    clear_if(
        flags,
        colocation.dependent,
        apart && flag_at(touched, colocation.primary),
    );
    clear_if(
        flags,
        colocation.primary,
        apart && flag_at(touched, colocation.dependent),
    );
}

/// Takes the flags away of the leaves that orders keep from migrating.
fn clear_by_orders(flags: &mut Vec<bool>, touched: &[bool], cluster: &Cluster)
    ensures size { length flags.new.items ≡ length flags.old.items }
    ensures flags { (r : ℕ) → is_marked flags.new.items r
        ≡ (is_marked flags.old.items r && actions.is_left_by_orders cluster.now (is_marked touched.now) r) }
{
    for order in cluster.orders.as_slice() {
        clear_by_order(flags, touched, order);
    }
}

/// Takes the flags away of the leaves that colocations keep from migrating.
fn clear_by_colocations(flags: &mut Vec<bool>, touched: &[bool], cluster: &Cluster)
    ensures size { length flags.new.items ≡ length flags.old.items }
    ensures flags { (r : ℕ) → is_marked flags.new.items r
        ≡ (is_marked flags.old.items r && actions.is_left_by_colocations cluster.now (is_marked touched.now) r) }
{
    for colocation in cluster.colocations.as_slice() {
        clear_by_colocation(flags, touched, colocation);
    }
}

/// Which leaves no rule keeps from migrating, given which leaves get a step anywhere.
pub fn free(alloc: Global, cluster: &Cluster, touched: &[bool]) -> Result<Vec<bool>, AllocError>
    ensures { IfOk result (λ flags. (r : ℕ) → r < length cluster.now.leaves
        → is_marked flags.items r ≡ actions.is_undisturbed cluster.now (is_marked touched.now) r) }
{
    let mut flags = vec![in alloc; true; cluster.leaves.len()]?;
    clear_by_orders(&mut flags, touched, cluster);
    clear_by_colocations(&mut flags, touched, cluster);
    Ok(flags)
}
