//! Rules that need each other in a circle.

ghost use Rattle.std.specs.Prelude.{◌≡◌, ◌≤◌, [], List, length, IfOk, Contains};
ghost use Rattle.cluster_types.specs.declared.leaf.Leaf.{Leaf};
ghost use Rattle.cluster_types.specs.declared.rules.Colocation.{Colocation};
ghost use Rattle.cluster_types.specs.declared.rules.Order.{Order};
ghost use Rattle.loops.specs.FirstLoops.{JoinsLeaves, OrdersSteps, is_closed_by};
ghost use Rattle.cluster_model.specs.declared.resolution.directory.Directory.{Directory};
ghost use Rattle.cluster_model.specs.FirstFaults.{first_fault};
ghost use Rattle.cluster_model.specs.Inner.Resolution.{cluster_of, loop_cause};
ghost use Rattle.cluster_model.specs.Inner.Search.{closed_by, closing_cause};

use crate::resolution::counts::{colocation_count, order_count};
use crate::{ModelCause, ModelFault};
use cluster_types::{Cluster, NoMemory};
use crm_parse::Statement;
use loops::{colocation_loop, order_loop};
use std::alloc::Global;

/// Whether the place is one of the first so many.
fn is_among(place: Option<usize>, count: u128) -> bool
    ensures { result ≡ is_closed_by place count }
{
    match place {
        Some(place) => (place as u128) < count,
        None => false,
    }
}

/// The cause, where the first loops are closed by the colocation at one place and the order at the other, and so many rules were added.
fn closed_by(
    colocation: Option<usize>,
    order: Option<usize>,
    colocations: u128,
    orders: u128,
) -> Option<ModelCause>
    ensures { result ≡ closed_by colocation order colocations orders }
{
    if is_among(colocation, colocations) {
        Some(ModelCause::ColocationLoop)
    } else if is_among(order, orders) {
        Some(ModelCause::OrderLoop)
    } else {
        None
    }
}

/// The fault of the statement with the colocation at one place or the order at the other, whichever comes first.
fn fault_at(
    colocation: Option<usize>,
    order: Option<usize>,
    statements: &[Statement],
) -> Option<ModelFault>
    ensures { result ≡ first_fault (closing_cause colocation order) [] statements.now }
{
    let mut colocations: u128 = 0;
    let mut orders: u128 = 0;
    for statement in statements {
        colocations += colocation_count(&statement.form) as u128;
        orders += order_count(&statement.form) as u128;
        if let Some(cause) = closed_by(colocation, order, colocations, orders) {
            let line = statement.line;
            return Some(ModelFault::At { line, cause });
        }
    }
    None
}

/// The fault of the first statement with which the needs or the steps of a cluster, which some statements say, have a loop.
pub fn loop_fault(
    alloc: Global,
    cluster: &Cluster,
    statements: &[Statement],
) -> Result<Option<ModelFault>, NoMemory>
    requires few { length cluster.now.leaves ≤ 1000000000 }
    requires joined { (col : Colocation) → Contains cluster.now.colocations col → JoinsLeaves cluster.now col }
    requires ordered { (o : Order) → Contains cluster.now.orders o → OrdersSteps cluster.now o }
    ensures { IfOk result (λ fault. (d : Directory) (leaves : List Leaf) → cluster.now ≡ cluster_of d leaves statements.now
        → fault ≡ first_fault (loop_cause d leaves) [] statements.now) }
{
    let colocation = colocation_loop(alloc, cluster)?;
    let order = order_loop(alloc, cluster)?;
    Ok(fault_at(colocation, order, statements))
}
