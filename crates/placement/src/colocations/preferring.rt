//! How much colocations prefer a decision on each node.

ghost use Rattle.std.specs.Prelude.{◌≡◌, ◌≢◌, ◌<◌, ◌≤◌, ◌==◌, ◌&&◌, ℕ, ℤ, List, [], length, map, IfOk};
ghost use Rattle.std.specs.List.{range_with_len};
ghost use Rattle.cluster_types.specs.Choice as choice;
ghost use Rattle.cluster_types.specs.Tables.{targets_of};
ghost use Rattle.cluster_types.specs.Valid.{KeepsLimits};
ghost use Rattle.placement.specs.Tests.{counts};
ghost use Rattle.score.specs.Row.{finite_at};
ghost use Rattle.placement.specs.Inner.CountedScores.{counted_scores};
ghost use Rattle.score.specs.Total.{total_of};
ghost use Rattle.placement.specs.Rows.{IsRow, IsRoomy, more_where};

use crate::{counts, put_if, totals_of};
use cluster_types::{Cluster, Colocation, Decision, NoMemory, NodeId, Table};
use score::{Row, Score};
use std::alloc::Global;

/// Adds the score of the colocation on each node where it counts for the decision.
fn put_where_counted(
    row: &mut Row,
    nodes: u32,
    rule: &Colocation,
    table: &Table,
    decision: Decision,
)
    requires nodes { nodes ≡ length row.old }
    requires room { (n : ℕ) → IsRoomy (finite_at row.old n) }
    ensures terms { (terms : ℕ → List ℤ) → IsRow nodes terms row.old
        → IsRow nodes (more_where (λ n. counts (targets_of table.now) decision n rule.now) rule.now.score terms) row.new }
    ensures nodes { length row.new ≡ length row.old }
{
    for node in 0..nodes {
        let wanted = counts(rule, table, decision, node);
        put_if(row, node, rule.score, wanted);
    }
}

/// The same, going over the nodes only where the decision gives its dependent the role.
fn put_rule(row: &mut Row, nodes: u32, rule: &Colocation, table: &Table, decision: Decision)
    requires nodes { nodes ≡ length row.old }
    requires room { (n : ℕ) → IsRoomy (finite_at row.old n) }
    ensures { (terms : ℕ → List ℤ) → IsRow nodes terms row.old
        → IsRow nodes (more_where (λ n. counts (targets_of table.now) decision n rule.now) rule.now.score terms) row.new }
{
    if !decision.is_dependent_in(rule) {
        return;
    }
    put_where_counted(row, nodes, rule, table, decision);
}

/// A row of nodes without terms.
fn empty_row(alloc: Global, nodes: u32) -> Result<Row, NoMemory>
    requires { nodes ≤ 256 }
    ensures { IfOk result (IsRow nodes (λ n. [])) }
{
    let row = Row::zeros(alloc, nodes)?;
    Ok(row)
}

/// The row of what the colocations that count give the decision on each node.
fn preference_row(
    alloc: Global,
    cluster: &Cluster,
    table: &Table,
    decision: Decision,
) -> Result<Row, NoMemory>
    requires { KeepsLimits cluster.now }
    ensures { IfOk result (IsRow (length cluster.now.nodes) (counted_scores (targets_of table.now) decision cluster.now.colocations)) }
{
    let nodes = cluster.nodes.len() as u32;
    let mut row = empty_row(alloc, nodes)?;
    for rule in cluster.colocations.as_slice() {
        put_rule(&mut row, nodes, rule, table, decision);
    }
    Ok(row)
}

/// How much the colocations prefer the decision on each node, with the table so far: the total of the finite ones of which it gives the dependent
/// its role and whose primary holds its role there (Pacemaker Explained, "Placing Resources Relative to other Resources").
pub(crate) fn preferences(
    alloc: Global,
    cluster: &Cluster,
    table: &Table,
    decision: Decision,
) -> Result<Vec<Score>, NoMemory>
    requires { KeepsLimits cluster.now }
    ensures { IfOk result (λ all. all.items
        ≡ map (choice.preference cluster.now (targets_of table.now) decision) (range_with_len 0 (length cluster.now.nodes))) }
{
    let row = preference_row(alloc, cluster, table, decision)?;
    let all = totals_of(alloc, &row, cluster.nodes.len() as u32)?;
    Ok(all)
}
