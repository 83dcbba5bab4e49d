ghost use Rattle.std.specs.Prelude.{◌≡◌, ◌≤◌, [], List, length, Contains, IfOk};
ghost use Rattle.std.specs.Option.{option_or};
ghost use Rattle.faults.specs.Reading.{Gives, unless};
ghost use Rattle.cluster_types.specs.declared.leaf.Leaf.{Leaf as LeafOf};
ghost use Rattle.cluster_types.specs.declared.rules.Colocation.{Colocation as ColocationOf};
ghost use Rattle.cluster_types.specs.declared.rules.Order.{Order as OrderOf};
ghost use Rattle.loops.specs.FirstLoops.{JoinsLeaves, OrdersSteps};
ghost use Rattle.cluster_model.specs.declared.resolution.directory.Directory.{Directory as DirectoryOf};
ghost use Rattle.cluster_model.specs.Inner.Colocations.{colocations_of};
ghost use Rattle.cluster_model.specs.Inner.Directories.{directory_of};
ghost use Rattle.cluster_model.specs.FirstFaults.{first_fault};
ghost use Rattle.cluster_model.specs.Inner.Locations.{locations_of, rule_locations_of};
ghost use Rattle.cluster_model.specs.Nodes.{nodes_by};
ghost use Rattle.cluster_model.specs.Inner.Orders.{orders_of};
ghost use Rattle.cluster_model.specs.Inner.Resolution.{cluster_of, loop_cause};
ghost use Rattle.cluster_model.specs.Resolution.{resolution_of};

use crate::resolution::checks::first_fault;
use crate::resolution::colocations::colocations_of;
use crate::resolution::copies::copy_leaves;
use crate::resolution::directory::{Directory, directory_of};
use crate::resolution::locations::{locations_of, rule_locations_of};
use crate::resolution::loop_faults::loop_fault;
use crate::resolution::nodes::nodes_by;
use crate::resolution::options::properties_of;
use crate::resolution::orders::orders_of;
use crate::{Leaves, ModelFault};
use cluster_types::{Cluster, Colocation, Leaf, Location, NoMemory, Node, Order, RuleLocation};
use crm_parse::{Crm, Statement};
use faults::{done, with};
use listed::Listed;
use std::alloc::Global;

/// The nodes and the leaves.
fn members_of(
    alloc: Global,
    leaves: &[Leaf],
    statements: &[Statement],
) -> Result<(Listed<Node>, Listed<Leaf>), NoMemory>
    ensures nodes { IfOk result (λ members. members.0 ≡ nodes_by statements.now) }
    ensures leaves { IfOk result (λ members. members.1 ≡ leaves.now) }
{
    let nodes = nodes_by(alloc, statements)?;
    with(nodes, copy_leaves(alloc, leaves))
}

/// The locations and the rules of locations.
fn places_of(
    alloc: Global,
    directory: &Directory<'_>,
    statements: &[Statement],
) -> Result<(Listed<Location>, Listed<RuleLocation>), NoMemory>
    ensures locations { IfOk result (λ places. places.0 ≡ locations_of directory.now statements.now) }
    ensures rules { IfOk result (λ places. places.1 ≡ rule_locations_of directory.now statements.now) }
{
    let locations = locations_of(alloc, directory, statements)?;
    with(locations, rule_locations_of(alloc, directory, statements))
}

/// The colocations and the orders.
fn joins_of(
    alloc: Global,
    directory: &Directory<'_>,
    statements: &[Statement],
) -> Result<(Listed<Colocation>, Listed<Order>), NoMemory>
    ensures colocations { IfOk result (λ joins. joins.0 ≡ colocations_of directory.now statements.now) }
    ensures orders { IfOk result (λ joins. joins.1 ≡ orders_of directory.now statements.now) }
{
    let colocations = colocations_of(alloc, directory, statements)?;
    with(colocations, orders_of(alloc, directory, statements))
}

/// The cluster of some statements.
#[tactic(auto, unfolding(crate::specs::Inner::Resolution::cluster_of))]
fn cluster_of(
    alloc: Global,
    directory: &Directory<'_>,
    leaves: &[Leaf],
    statements: &[Statement],
) -> Result<Cluster, NoMemory>
    ensures cluster { IfOk result (λ cluster. cluster ≡ cluster_of directory.now leaves.now statements.now) }
    ensures leaves { IfOk result (λ cluster. cluster.leaves ≡ leaves.now) }
{
    let (nodes, leaves) = members_of(alloc, leaves, statements)?;
    let (locations, rule_locations) = places_of(alloc, directory, statements)?;
    let (colocations, orders) = joins_of(alloc, directory, statements)?;
    Ok(Cluster {
        nodes,
        leaves,
        locations,
        rule_locations,
        colocations,
        orders,
        properties: properties_of(statements),
    })
}

/// Fails where the rules of the cluster, which some statements say, have a loop, and else with another fault, if there is one.
fn pass(
    alloc: Global,
    cluster: &Cluster,
    statements: &[Statement],
    other: Option<ModelFault>,
) -> Result<(), ModelFault>
    requires few { length cluster.now.leaves ≤ 1000000000 }
    requires joined { (col : ColocationOf) → Contains cluster.now.colocations col → JoinsLeaves cluster.now col }
    requires ordered { (o : OrderOf) → Contains cluster.now.orders o → OrdersSteps cluster.now o }
    ensures { (d : DirectoryOf) (leaves : List LeafOf) → cluster.now ≡ cluster_of d leaves statements.now
        → Gives (λ passed. passed) result (unless (option_or (first_fault (loop_cause d leaves) [] statements.now) other) tt) }
{
    match loop_fault(alloc, cluster, statements)?.or(other) {
        Some(fault) => Err(fault),
        None => Ok(()),
    }
}

/// The cluster of the statements, or the fault of the first that is at fault, by who is who in them.
fn resolve_by(
    alloc: Global,
    directory: &Directory<'_>,
    leaves: &Leaves,
    statements: &[Statement],
) -> Result<Cluster, ModelFault>
    requires directory { directory.now ≡ directory_of leaves.now statements.now }
    requires few { length leaves.now.leaves ≤ 1000000000 }
    ensures { Gives (λ cluster. cluster) result (resolution_of leaves.now statements.now) }
{
    let checked = first_fault(directory, statements);
    let sound = &statements[..checked.sound];
    let cluster = cluster_of(alloc, directory, leaves.leaves.as_slice(), sound)?;
    let passed = pass(alloc, &cluster, sound, checked.fault);
    done(cluster, passed)
}

/// Makes the cluster of a configuration that `parse` gives, with the leaves that `expand` gives for it (crmsh manual, `location`, `colocation`,
/// `order` and `group`). Each list is in the order of the text, and a group's rules stand at its statement: each member after the first must
/// be where the member before it is, and starts after it. A rule on a clone names its child. On a group, the first of an order and the primary
/// of a colocation name the last member, and the then, the dependent and a location name the first; with the action stop or demote the first
/// names the first member and the then the last. There are at most 10^9 statements and as many leaves; a text of 16 MiB has fewer.
///
/// A fault is that of the first statement that is at fault: `UnknownName` where a rule names a resource or a node that isn't there;
/// `NotPromotable` where it promotes or demotes a leaf that isn't promotable; `UnsupportedOrder` where a stop or a demote waits for a start or
/// a promote; `TooManyNodes` at the 257th node; `TooManyLeaves` at the 1,001st primitive; `TooManyRules` where the rules pass 2,000;
/// `ColocationLoop` and `OrderLoop` where the rules so far need or await each other in a circle. Where a statement has several causes, the
/// first in this order counts. `NoMemory` comes when memory runs out.
pub fn resolve(alloc: Global, crm: &Crm, leaves: &Leaves) -> Result<Cluster, ModelFault>
    requires statements { length crm.now.statements ≤ 1000000000 }
    requires leaves { length leaves.now.leaves ≤ 1000000000 }
    ensures { Gives (λ cluster. cluster) result (resolution_of leaves.now crm.now.statements) }
{
    let statements = crm.statements.as_slice();
    let directory = directory_of(alloc, leaves, statements)?;
    resolve_by(alloc, &directory, leaves, statements)
}
