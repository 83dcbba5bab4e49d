//! What mandatory rules ask of the chosen targets: that a leaf holds a role only where another leaf holds its own.

ghost use Rattle.std.specs.Prelude.{◌≡◌, ◌++◌, IfOk, OnOk};
ghost use Rattle.std.specs.List.{list_any, range_with_len};
ghost use Rattle.cluster_types.specs.Tables.{holds_role, targets_of};
ghost use Rattle.placement.specs.Inner.Dependencies as spec;
ghost use Rattle.placement.specs.Inner.Taking as taking;

use cluster_types::{Cluster, Colocation, LeafId, NodeId, Order, Pin, Role, Table, is_pinned};
use std::alloc::{AllocError, Global};

/// The dependent may hold its role only where the primary holds its own.
#[derive(Clone, Copy)]
pub struct Dependency {
    pub dependent: LeafId,
    pub dependent_role: Role,
    pub primary: LeafId,
    pub primary_role: Role,
    /// Whether the primary must hold it on the same node; else any node serves.
    pub local: bool,
}

/// Whether the order may hold its then back: it is mandatory, and both its words give a role.
fn may_hold(order: &Order) -> bool
    ensures { result ≡ spec.may_hold_back order.now }
{
    order.is_mandatory() && order.first_op.is_giving() && order.then_op.is_giving()
}

/// Whether the leaf holds the role on some node.
pub fn is_anywhere(table: &Table, leaf: LeafId, role: Role) -> bool
    ensures { result ≡ taking.is_anywhere table.now.nodes (targets_of table.now) leaf role }
{
    (0..table.nodes).any(|node| table.holds_role(leaf, role, node))
}

impl Dependency {
    /// The then of a mandatory order of starts and promotes depends on its first.
    pub fn of_order(order: &Order) -> Option<Dependency>
        ensures { result ≡ spec.of_order order.now }
    {
        if may_hold(order) {
            Some(Dependency {
                dependent: order.then_leaf,
                dependent_role: order.then_op.role_given(),
                primary: order.first,
                primary_role: order.first_op.role_given(),
                local: order.local,
            })
        } else {
            None
        }
    }

    /// The dependent of a mandatory colocation depends on its primary, node by node.
    pub fn of_colocation(colocation: &Colocation) -> Option<Dependency>
        ensures { result ≡ spec.of_colocation colocation.now }
    {
        if colocation.is_mandatory() {
            Some(Dependency {
                dependent: colocation.dependent,
                dependent_role: colocation.dependent_role,
                primary: colocation.primary,
                primary_role: colocation.primary_role,
                local: true,
            })
        } else {
            None
        }
    }

    /// Whether the primary holds its role where it counts for the node, if it is known whether it does so on any node.
    pub fn has_primary_where(self, table: &Table, anywhere: bool, node: NodeId) -> bool
        ensures { result ≡ taking.has_primary_where (targets_of table.now) self anywhere node }
    {
        if self.local {
            table.holds_role(self.primary, self.primary_role, node)
        } else {
            anywhere
        }
    }

    /// Whether the primary holds its role where it counts for the node.
    pub fn has_primary(self, table: &Table, node: NodeId) -> bool
        ensures { result ≡ taking.has_its_primary table.now.nodes (targets_of table.now) self node }
    {
        if self.local {
            table.holds_role(self.primary, self.primary_role, node)
        } else {
            is_anywhere(table, self.primary, self.primary_role)
        }
    }
}

/// Adds the dependency, unless its dependent is left as it is.
fn push_free(
    list: &mut Vec<Dependency>,
    pins: &[Option<Pin>],
    dependency: Option<Dependency>,
) -> Result<(), AllocError>
    ensures { OnOk result (list.new.items ≡ list.old.items ++ spec.free_of pins.now dependency) }
{
    let Some(dependency) = dependency else {
        return Ok(());
    };
    if is_pinned(pins, dependency.dependent) {
        return Ok(());
    }
    list.push(dependency)?;
    Ok(())
}

/// Adds those of all colocations.
#[tactic(auto, using(lemmas::proofs::Grown::elements_more))]
fn push_colocations(
    list: &mut Vec<Dependency>,
    cluster: &Cluster,
    pins: &[Option<Pin>],
) -> Result<(), AllocError>
    ensures { OnOk result (list.new.items ≡ list.old.items ++ spec.by_colocations cluster.now pins.now cluster.now.colocations) }
{
    for colocation in cluster.colocations.as_slice() {
        push_free(list, pins, Dependency::of_colocation(colocation))?;
    }
    Ok(())
}

/// Adds those of all orders.
#[tactic(auto, using(lemmas::proofs::Grown::elements_more))]
fn push_orders(
    list: &mut Vec<Dependency>,
    cluster: &Cluster,
    pins: &[Option<Pin>],
) -> Result<(), AllocError>
    ensures { OnOk result (list.new.items ≡ list.old.items ++ spec.by_orders cluster.now pins.now cluster.now.orders) }
{
    for order in cluster.orders.as_slice() {
        push_free(list, pins, Dependency::of_order(order))?;
    }
    Ok(())
}

/// All dependencies of leaves that may be held back.
pub fn dependencies(
    alloc: Global,
    cluster: &Cluster,
    pins: &[Option<Pin>],
) -> Result<Vec<Dependency>, AllocError>
    ensures { IfOk result (λ list. list.items ≡ spec.dependencies_by cluster.now pins.now) }
{
    let mut list = Vec::new(alloc);
    push_colocations(&mut list, cluster, pins)?;
    push_orders(&mut list, cluster, pins)?;
    Ok(list)
}
