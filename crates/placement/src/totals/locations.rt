//! What locations give a leaf.

ghost use Rattle.std.specs.Prelude.{◌≡◌, ◌&&◌, ◌||◌, ◌==◌, ◌<◌, ◌≤◌, ℕ, ℤ, List, length, true, IfOk};
ghost use Rattle.cluster_types.specs.Valid.{IsValid};
ghost use Rattle.score.specs.NodeSet.{has};
ghost use Rattle.score.specs.Row.{finite_at};
ghost use Rattle.placement.specs.Locations as spec;
ghost use Rattle.placement.specs.Inner.Locations as inner;
ghost use Rattle.placement.specs.Rows.{IsRow, IsRoomy, more_where};

use crate::totals::putting::{put_each, put_if};
use cluster_types::{Cluster, LeafId, Location, NodeId, Role, RuleLocation};
use date_rules::holds;
use score::{NoMemory, NodeSet, Row};
use std::alloc::Global;

fn rule_holds(cluster: &Cluster, rule: &RuleLocation, node: NodeId, moment: u64) -> bool
    ensures { result ≡ spec.rule_holds_by cluster.now moment rule.now node }
{
    match cluster.node(node) {
        Some(found) => holds(
            &rule.rule,
            found.name.bytes(),
            found.attributes.as_slice(),
            moment,
        ),
        None => false,
    }
}

/// The nodes at which the rule holds at the moment.
pub fn nodes_of(cluster: &Cluster, rule: &RuleLocation, moment: u64) -> NodeSet
    requires { length cluster.now.nodes ≤ 256 }
    ensures { (n : ℕ) → n < length cluster.now.nodes → has result n ≡ spec.rule_holds_by cluster.now moment rule.now n }
{
    NodeSet::of(cluster.nodes.len() as u32, |node| {
        rule_holds(cluster, rule, node, moment)
    })
}

/// Whether what has this leaf and this role is of the leaf, in the role.
fn is_of(its_leaf: LeafId, its_role: Role, leaf: LeafId, role: Role) -> bool
    ensures { result ≡ (its_leaf == leaf && inner.is_role role its_role) }
{
    its_leaf == leaf && its_role == role
}

/// Adds the score of the location, if it is of the leaf in the role.
fn put_location(row: &mut Row, rule: &Location, leaf: LeafId, role: Role)
    requires node { rule.now.node < length row.old }
    requires room { IsRoomy (finite_at row.old rule.now.node) }
    ensures terms { (nodes : ℕ) (terms : ℕ → List ℤ) → nodes ≡ length row.old → IsRow nodes terms row.old
        → IsRow nodes (more_where (λ n. (rule.now.leaf == leaf && inner.is_role role rule.now.role) && rule.now.node == n) rule.now.score terms)
        row.new }
    ensures nodes { length row.new ≡ length row.old }
{
    let wanted = is_of(rule.leaf, rule.role, leaf, role);
    put_if(row, rule.node, rule.score, wanted);
}

/// The row of what the locations without rules give the leaf in the role.
fn located_row(alloc: Global, cluster: &Cluster, leaf: LeafId, role: Role) -> Result<Row, NoMemory>
    requires { IsValid cluster.now }
    ensures { IfOk result (λ row. IsRow (length cluster.now.nodes) (spec.located (inner.is_role role) leaf cluster.now.locations) row) }
{
    let mut row = Row::zeros(alloc, cluster.nodes.len() as u32)?;
    for rule in cluster.locations.as_slice() {
        put_location(&mut row, rule, leaf, role);
    }
    Ok(row)
}

/// Adds the score of the location on each node at which its rule holds, if it is of the leaf in the role.
fn put_rule(
    cluster: &Cluster,
    row: &mut Row,
    rule: &RuleLocation,
    leaf: LeafId,
    role: Role,
    moment: u64,
)
    requires few { length cluster.now.nodes ≤ 256 }
    requires nodes { length cluster.now.nodes ≡ length row.old }
    requires room { (n : ℕ) → IsRoomy (finite_at row.old n) }
    ensures { (terms : ℕ → List ℤ) → IsRow (length cluster.now.nodes) terms row.old
        → IsRow (length cluster.now.nodes)
        (more_where (λ n. (rule.now.leaf == leaf && inner.is_role role rule.now.role) && spec.rule_holds_by cluster.now moment rule.now n)
        rule.now.score terms) row.new }
{
    if is_of(rule.leaf, rule.role, leaf, role) {
        let set = nodes_of(cluster, rule, moment);
        put_each(row, cluster.nodes.len() as u32, rule.score, &set);
    }
}

/// The row of what locations give the leaf in the role, at the moment.
pub(crate) fn given_row(
    alloc: Global,
    cluster: &Cluster,
    leaf: LeafId,
    role: Role,
    moment: u64,
) -> Result<Row, NoMemory>
    requires { IsValid cluster.now }
    ensures { IfOk result (λ row. IsRow (length cluster.now.nodes)
        (spec.scores_given cluster.now moment (inner.is_role role) leaf cluster.now.locations cluster.now.rule_locations) row) }
{
    let mut row = located_row(alloc, cluster, leaf, role)?;
    for rule in cluster.rule_locations.as_slice() {
        put_rule(cluster, &mut row, rule, leaf, role, moment);
    }
    Ok(row)
}

/// Adds the nodes that a location without a rule names for the leaf.
fn name_located(cluster: &Cluster, leaf: LeafId, named: &mut NodeSet)
    requires { IsValid cluster.now }
    ensures { (n : ℕ) → has named.new n ≡ (has named.old n || spec.is_named leaf cluster.now.locations n) }
{
    for rule in cluster.locations.as_slice() {
        named.put_if(rule.node, rule.leaf == leaf);
    }
}

/// These nodes, and those at which the rule of the location holds, if it is of the leaf.
fn with_rule(
    cluster: &Cluster,
    rule: &RuleLocation,
    leaf: LeafId,
    moment: u64,
    named: NodeSet,
) -> NodeSet
    requires { length cluster.now.nodes ≤ 256 }
    ensures { (n : ℕ) → n < length cluster.now.nodes
        → has result n ≡ (has named n || (rule.now.leaf == leaf && spec.rule_holds_by cluster.now moment rule.now n)) }
{
    if rule.leaf != leaf {
        return named;
    }
    NodeSet::of(cluster.nodes.len() as u32, |node| {
        named.has(node) || rule_holds(cluster, rule, node, moment)
    })
}

/// The nodes that some location names for the leaf, at the moment.
fn named_nodes(cluster: &Cluster, leaf: LeafId, moment: u64) -> NodeSet
    requires { IsValid cluster.now }
    ensures { (n : ℕ) → n < length cluster.now.nodes → has result n ≡ spec.is_located_by cluster.now moment leaf n }
{
    let mut named = NodeSet::none();
    name_located(cluster, leaf, &mut named);
    for rule in cluster.rule_locations.as_slice() {
        named = with_rule(cluster, rule, leaf, moment, named);
    }
    named
}

/// The nodes that a location must name for the leaf, and none does, at the moment.
pub fn unnamed_nodes(cluster: &Cluster, leaf: LeafId, moment: u64) -> NodeSet
    requires { IsValid cluster.now }
    ensures { (n : ℕ) → n < length cluster.now.nodes → has result n ≡ spec.is_unnamed cluster.now moment leaf n }
{
    if cluster.properties.symmetric || cluster.is_follower(leaf) {
        return NodeSet::none();
    }
    let named = named_nodes(cluster, leaf, moment);
    NodeSet::of(cluster.nodes.len() as u32, |node| !named.has(node))
}
