//! What follows from each role that is taken away, leaf by leaf along the dependencies.

ghost use Rattle.std.specs.Prelude.{◌≡◌, ◌≤◌, ◌+◌, List, IfOk, OnOk, length, Contains};
ghost use Rattle.std.specs.List.Sorted.{IsNonDecreasingBy, IsPermutation};
ghost use Rattle.cluster_types.specs.Tables.{targets_of};
ghost use Rattle.placement.specs.declared.held_targets.dependencies.Dependency.{Dependency as DependencyOf};
ghost use Rattle.placement.specs.Inner.Taking as spec;

use crate::held_targets::dependencies::Dependency;
use crate::held_targets::passes::after;
use crate::held_targets::targets_left::Left;
use cluster_types::{LeafId, Table};
use std::alloc::{AllocError, Global};

/// Puts dependencies into the order of their primaries, so that those of one primary stand side by side.
pub fn sort_by_primary(rules: &mut Vec<Dependency>) -> Result<(), AllocError>
    ensures same { OnOk result (IsPermutation rules.old.items rules.new.items) }
    ensures sorted { OnOk result (IsNonDecreasingBy (λ rule. rule.primary) rules.new.items) }
{
    rules.sort_by_key(|rule| rule.primary)?;
    Ok(())
}

/// The dependencies of a primary, where they stand side by side in the order of primaries; else some of the list.
fn rules_of(rules: &[Dependency], primary: LeafId) -> &[Dependency]
    ensures { (rule : DependencyOf) → Contains result.now rule → Contains rules.now rule }
{
    let rest = &rules[rules.partition_point(|rule| rule.primary < primary)..];
    &rest[..rest.partition_point(|rule| rule.primary == primary)]
}

/// Takes the dependent's role away from each node where the dependency lacks its primary. A dependent that lost it is
/// noted as lost.
fn follow(table: Table, rule: Dependency, lost: &mut Vec<LeafId>) -> Result<Table, AllocError>
    ensures nodes { IfOk result (λ left. left.nodes ≡ table.nodes) }
    ensures size { IfOk result (λ left. length left.targets ≡ length table.targets) }
    ensures taken { IfOk result (λ left. (rules : List DependencyOf) → Contains rules rule
        → spec.TakenAway rules table.nodes (targets_of table) (targets_of left)) }
    ensures fewer { IfOk result (λ left. spec.roles_in left.targets + length lost.new.items
        ≤ spec.roles_in table.targets + length lost.old.items) }
{
    let left = after(
        Left {
            table,
            changed: false,
        },
        rule,
    );
    if !left.changed {
        return Ok(left.table);
    }
    lost.push(rule.dependent)?;
    Ok(left.table)
}

/// The same for each of some dependencies, one after the other.
fn follow_all(
    table: Table,
    rules: &[Dependency],
    lost: &mut Vec<LeafId>,
) -> Result<Table, AllocError>
    ensures nodes { IfOk result (λ left. left.nodes ≡ table.nodes) }
    ensures size { IfOk result (λ left. length left.targets ≡ length table.targets) }
    ensures taken { IfOk result (λ left. (all : List DependencyOf)
        → ((rule : DependencyOf) → Contains rules.now rule → Contains all rule)
        → spec.TakenAway all table.nodes (targets_of table) (targets_of left)) }
    ensures fewer { IfOk result (λ left. spec.roles_in left.targets + length lost.new.items
        ≤ spec.roles_in table.targets + length lost.old.items) }
{
    let mut left = table;
    for rule in rules {
        left = follow(left, *rule, lost)?;
    }
    Ok(left)
}

/// What is left of the table after each dependency was looked at once, and then again those of each leaf that lost a
/// role by it. Dependencies of one primary stand side by side in the order of primaries: so each is looked at as often
/// as its primary loses roles. Whether any would take more away is for the caller to see.
pub fn spread(alloc: Global, table: Table, rules: &[Dependency]) -> Result<Table, AllocError>
    ensures nodes { IfOk result (λ left. left.nodes ≡ table.nodes) }
    ensures size { IfOk result (λ left. length left.targets ≡ length table.targets) }
    ensures taken { IfOk result (λ left. spec.TakenAway rules.now table.nodes (targets_of table) (targets_of left)) }
{
    let mut lost = Vec::new(alloc);
    let mut left = follow_all(table, rules, &mut lost)?;
    let mut looked = 0;
    while looked < lost.len() {
        left = follow_all(left, rules_of(rules, lost[looked]), &mut lost)?;
        looked += 1;
    }
    Ok(left)
}
