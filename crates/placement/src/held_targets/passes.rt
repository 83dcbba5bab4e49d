//! Passes over the dependencies, until one takes nothing away.

ghost use Rattle.std.specs.Prelude.{◌≡◌, ◌≤◌, ◌+◌, ◌&&◌, ℕ, List, not, cond, true, false, length, Contains};
ghost use Rattle.cluster_types.specs.Tables.{holds_role, targets_of};
ghost use Rattle.placement.specs.declared.held_targets.dependencies.Dependency.{Dependency as DependencyOf};
ghost use Rattle.placement.specs.Inner.Taking as spec;

use crate::held_targets::dependencies::{Dependency, is_anywhere};
use crate::held_targets::targets_left::Left;
use cluster_types::{NodeId, Table};

/// Whether the dependency takes its dependent's role away from the node, if it is known whether its primary holds its own on any node.
fn is_taken(table: &Table, rule: Dependency, anywhere: bool, node: NodeId) -> bool
    ensures { result ≡ (holds_role (targets_of table.now) rule.dependent rule.dependent_role node
        && not (spec.has_primary_where (targets_of table.now) rule anywhere node)) }
{
    table.holds_role(rule.dependent, rule.dependent_role, node)
        && !rule.has_primary_where(table, anywhere, node)
}

/// Whether a dependency that isn't local has its primary anywhere. Of a local one that isn't looked for.
fn has_some(table: &Table, rule: Dependency) -> bool
    ensures { result ≡ (not rule.local && spec.is_anywhere table.now.nodes (targets_of table.now) rule.primary rule.primary_role) }
{
    !rule.local && is_anywhere(table, rule.primary, rule.primary_role)
}

/// Takes the dependent's role away from each node where the dependency lacks its primary.
pub fn after(left: Left, rule: Dependency) -> Left
    ensures nodes { result.table.nodes ≡ left.table.nodes }
    ensures size { length result.table.targets ≡ length left.table.targets }
    ensures taken { (rules : List DependencyOf) → Contains rules rule
        → spec.TakenAway rules left.table.nodes (targets_of left.table) (targets_of result.table) }
    ensures fewer { spec.roles_in result.table.targets + cond result.changed 1 0 ≤ spec.roles_in left.table.targets + cond left.changed 1 0 }
    ensures unchanged { result.changed ≡ false → left.changed ≡ false }
    ensures same { result.changed ≡ false → result.table ≡ left.table }
    ensures settled { result.changed ≡ false → spec.IsRuleSettled left.table.nodes (targets_of left.table) rule }
{
    let anywhere = has_some(&left.table, rule);
    let mut left = left;
    for node in 0..left.table.nodes {
        if !is_taken(&left.table, rule, anywhere, node) {
            continue;
        }
        left = left.without(rule.dependent, rule.dependent_role, node);
    }
    left
}

/// One pass over all dependencies.
fn pass(table: Table, rules: &[Dependency]) -> Left
    ensures nodes { result.table.nodes ≡ table.nodes }
    ensures size { length result.table.targets ≡ length table.targets }
    ensures taken { spec.TakenAway rules.now table.nodes (targets_of table) (targets_of result.table) }
    ensures fewer { spec.roles_in result.table.targets + cond result.changed 1 0 ≤ spec.roles_in table.targets }
    ensures same { result.changed ≡ false → result.table ≡ table }
    ensures settled { result.changed ≡ false → (rule : DependencyOf) → Contains rules.now rule
        → spec.IsRuleSettled table.nodes (targets_of table) rule }
{
    let mut left = Left {
        table,
        changed: false,
    };
    for rule in rules {
        left = after(left, *rule);
    }
    left
}

/// What is left of the table when no dependency takes more away. Each pass that isn't the last takes something away, and costs the nodes for each
/// dependency.
pub fn settled(table: Table, rules: &[Dependency]) -> Table
    ensures nodes { result.nodes ≡ table.nodes }
    ensures size { length result.targets ≡ length table.targets }
    ensures taken { spec.TakenAway rules.now table.nodes (targets_of table) (targets_of result) }
    ensures settled { (rule : DependencyOf) → Contains rules.now rule → spec.IsRuleSettled table.nodes (targets_of result) rule }
{
    let mut left = pass(table, rules);
    while left.changed {
        left = pass(left.table, rules);
    }
    left.table
}
