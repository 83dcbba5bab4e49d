//! The targets in the end.

ghost use Rattle.std.specs.Prelude.{◌≡◌, ◌*◌, List, Contains, IfOk, length, map};
ghost use Rattle.std.specs.List.{range_with_len};
ghost use Rattle.cluster_types.specs.declared.journal.Event.{Event as EventOf};
ghost use Rattle.cluster_types.specs.Held.{AreTargets};
ghost use Rattle.cluster_types.specs.Pins.{pin_of};
ghost use Rattle.cluster_types.specs.Tables.{targets_of};
ghost use Rattle.placement.specs.declared.held_targets.dependencies.Dependency.{Dependency as DependencyOf};
ghost use Rattle.placement.specs.Inner.Taking.{IsRuleSettled, TakenAway};

use crate::held_targets::dependencies::{Dependency, dependencies};
use crate::held_targets::passes::settled;
use crate::held_targets::spreading::{sort_by_primary, spread};
use cluster_types::{Cluster, NoMemory, Pin, Table};
use listed::Listed;
use std::alloc::{AllocError, Global};

fn copy_of(alloc: Global, table: &Table) -> Result<Table, AllocError>
    ensures { IfOk result (λ copy. copy ≡ table.now) }
{
    let targets = Vec::from_slice(alloc, table.targets.as_slice())?;
    Ok(Table {
        nodes: table.nodes,
        targets: Listed::from(targets),
    })
}

/// What is left of the table when no dependency takes more away, and what takes something away is among these.
fn rest_of(alloc: Global, table: Table, rules: Vec<Dependency>) -> Result<Table, AllocError>
    ensures nodes { IfOk result (λ left. left.nodes ≡ table.nodes) }
    ensures size { IfOk result (λ left. length left.targets ≡ length table.targets) }
    ensures taken { IfOk result (λ left. TakenAway rules.items table.nodes (targets_of table) (targets_of left)) }
    ensures settled { IfOk result (λ left. (rule : DependencyOf) → Contains rules.items rule
        → IsRuleSettled table.nodes (targets_of left) rule) }
{
    let mut rules = rules;
    sort_by_primary(&mut rules)?;
    let left = spread(alloc, table, rules.as_slice())?;
    Ok(settled(left, rules.as_slice()))
}

/// The targets in the end: those that were chosen and aren't held back. A mandatory order of starts and promotes holds
/// its then back wherever its first has no target left in scope, a mandatory colocation its dependent on each node
/// where its primary has none left, and what isn't started isn't promoted (Pacemaker Explained, "Specifying the Order
/// in which Resources Should Start/Stop", "Placing Resources Relative to other Resources"; that they are found after
/// the choice is a rule of this project). A leaf that is left as it is isn't held back.
///
/// The table is that after all decisions, and the pins say of each leaf why it is left as it is, if it is; of other
/// pins nothing is said. Out of memory is the only other answer. The time is that of the table and of a sort of the
/// rules, and for each rule twice that of the nodes, and again as often as its first or its primary loses a target.
pub fn targets(
    alloc: Global,
    cluster: &Cluster,
    pins: &[Option<Pin>],
    chosen: &Table,
) -> Result<Table, NoMemory>
    requires { chosen.now.nodes ≡ length cluster.now.nodes }
    ensures nodes { IfOk result (λ table. table.nodes ≡ chosen.now.nodes) }
    ensures size { IfOk result (λ table. length table.targets ≡ length chosen.now.targets) }
    ensures targets { IfOk result (λ table. (events : List EventOf)
        → pins.now ≡ map (pin_of cluster.now events) (range_with_len 0 (length cluster.now.leaves))
        → AreTargets cluster.now events (targets_of chosen.now) (targets_of table)) }
{
    let rules = dependencies(alloc, cluster, pins)?;
    let table = copy_of(alloc, chosen)?;
    let left = rest_of(alloc, table, rules)?;
    Ok(left)
}
