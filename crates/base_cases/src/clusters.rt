//! What `cluster_model` resolves, and which statement is at fault.

use crate::checked::assert_row;
use crate::resolved_texts::{cluster, crm, shown};
use cluster_model::{ModelCause, ModelFault, expand, resolve};
use cluster_types::{Cluster, Colocation, LeafId, Location, Node, Order, Role, RuleLocation};
use std::alloc::{AllocError, Global};
use std::process::Abort;
use std::str;

fn shown_text(bytes: &[u8]) -> &str {
    str::from_utf8(bytes).unwrap_or("?")
}

/// Its name, whether it is standby, and its attributes.
fn tell_node(told: &mut String, node: &Node) -> Result<(), AllocError> {
    let (name, standby) = (shown(&node.name), node.standby);
    write!(told, "{name} {standby}")?;
    for pair in node.attributes.iter() {
        let name = shown_text(pair.name.bytes());
        let value = shown_text(pair.value.bytes());
        write!(told, " {name}={value}")?;
    }
    write!(told, ";")
}

fn all_nodes(rt: &impl Abort, alloc: Global, cluster: &Cluster) -> String {
    let mut told = String::new(alloc);
    for node in cluster.nodes.iter() {
        tell_node(&mut told, node).expect(rt, "memory");
    }
    told
}

/// A part of a cluster that is told.
#[derive(Clone, Copy)]
enum Part {
    Nodes,
    Options,
    Locations,
    Colocations,
    Orders,
}

fn told(rt: &impl Abort, alloc: Global, part: Part, cluster: &Cluster) -> String {
    match part {
        Part::Nodes => all_nodes(rt, alloc, cluster),
        Part::Options => options(rt, alloc, cluster),
        Part::Locations => all_locations(rt, alloc, cluster),
        Part::Colocations => all_colocations(rt, alloc, cluster),
        Part::Orders => all_orders(rt, alloc, cluster),
    }
}

/// A configuration in a line, and what is told of it.
type Row = (&'static str, &'static str);

/// Whether this is told of a part of the cluster.
fn is_told(rt: &impl Abort, alloc: Global, part: Part, text: &str, want: &str) -> bool {
    let cluster = cluster(rt, alloc, text);
    told(rt, alloc, part, &cluster).as_str() == want
}

fn assert_told(rt: &impl Abort, alloc: Global, part: Part, rows: &[Row]) {
    for (text, want) in rows {
        assert_row(rt, is_told(rt, alloc, part, text, want), text);
    }
}

const NODES: &[Row] = &[
    ("primitive a Dummy", ""),
    (
        "node n1|node 2: n2 attributes standby=off rack=7 room=x utilization cpu=4|node n3 attributes standby=ON",
        "n1 false;n2 false standby=off rack=7 room=x;n3 true standby=ON;",
    ),
];

#[test]
fn nodes_of_clusters(rt: HostRuntime) {
    assert_told(&rt, rt.alloc(), Part::Nodes, NODES);
}

fn options(rt: &impl Abort, alloc: Global, cluster: &Cluster) -> String {
    let p = &cluster.properties;
    let (symmetric, fencing, startup) = (p.symmetric, p.fencing, p.startup_fencing);
    let (policy, fatal) = (p.policy, p.start_fatal);
    let (stop_all, batch_limit) = (p.stop_all, p.batch_limit);
    format!(in alloc;
        "{symmetric} {fencing} {startup} {policy:?} {fatal} {stop_all} {batch_limit}"
    ).expect(rt, "memory")
}

const OPTIONS: &[Row] = &[
    ("node n1", "true true true Stop true false 0"),
    (
        "property symmetric-cluster=no no-quorum-policy=freeze|property x: batch-limit=12 stop-all-resources=1",
        "false true true Freeze true true 12",
    ),
    (
        "property no-quorum-policy=ignore stonith-enabled=off startup-fencing=n start-failure-is-fatal=false",
        "true false false Ignore false false 0",
    ),
    (
        "rsc_defaults symmetric-cluster=false|property other=1 no-quorum-policy=stop",
        "true true true Stop true false 0",
    ),
];

#[test]
fn options_of_clusters(rt: HostRuntime) {
    assert_told(&rt, rt.alloc(), Part::Options, OPTIONS);
}

fn shown_role(role: Role) -> &'static str {
    match role {
        Role::Started => "s",
        Role::Promoted => "p",
    }
}

/// A leaf and a role, behind a space.
fn tell_side(told: &mut String, leaf: LeafId, role: Role) -> Result<(), AllocError> {
    let role = shown_role(role);
    write!(told, " {leaf}{role}")
}

fn tell_location(told: &mut String, rule: &Location) -> Result<(), AllocError> {
    told.push_str(shown(&rule.id))?;
    tell_side(told, rule.leaf, rule.role)?;
    let (points, node) = (rule.score.points, rule.node);
    write!(told, " {points} {node};")
}

/// The rule itself is told by how many tests it has.
fn tell_rule_location(told: &mut String, rule: &RuleLocation) -> Result<(), AllocError> {
    told.push_str(shown(&rule.id))?;
    tell_side(told, rule.leaf, rule.role)?;
    let (points, all, tests) = (rule.score.points, rule.rule.all, rule.rule.tests.len());
    write!(told, " {points} {all} {tests};")
}

fn all_locations(rt: &impl Abort, alloc: Global, cluster: &Cluster) -> String {
    let mut told = String::new(alloc);
    for rule in cluster.locations.iter() {
        tell_location(&mut told, rule).expect(rt, "memory");
    }
    told.push('+').expect(rt, "memory");
    for rule in cluster.rule_locations.iter() {
        tell_rule_location(&mut told, rule).expect(rt, "memory");
    }
    told
}

const LOCATIONS: &[Row] = &[
    (
        "location l g -inf: n2|node n1|node n2|primitive x Dummy|primitive a Dummy|primitive b Dummy|group g b a",
        "l 2s -1000000 1;+",
    ),
    (
        "node n1|primitive a Dummy|ms m a|location l m role=Master 5: n1|location k a 7: n1",
        "l 0p 5 0;k 0s 7 0;+",
    ),
    (
        "primitive a Dummy|ms m a|location l m role=Promoted rule 5: defined x and rack lt 4 rule $role=Started -inf: not_defined x",
        "+l 0p 5 true 2;l 0s -1000000 true 1;",
    ),
    (
        "primitive a Dummy|location l a role=Promoted rule $role=Started 5: defined x or defined y",
        "+l 0s 5 false 2;",
    ),
];

#[test]
fn locations_of_clusters(rt: HostRuntime) {
    assert_told(&rt, rt.alloc(), Part::Locations, LOCATIONS);
}

fn tell_colocation(told: &mut String, rule: &Colocation) -> Result<(), AllocError> {
    told.push_str(shown(&rule.id))?;
    tell_side(told, rule.dependent, rule.dependent_role)?;
    tell_side(told, rule.primary, rule.primary_role)?;
    let points = rule.score.points;
    write!(told, " {points};")
}

fn all_colocations(rt: &impl Abort, alloc: Global, cluster: &Cluster) -> String {
    let mut told = String::new(alloc);
    for rule in cluster.colocations.iter() {
        tell_colocation(&mut told, rule).expect(rt, "memory");
    }
    told
}

const COLOCATIONS: &[Row] = &[
    (
        "primitive a Dummy|primitive b Dummy|primitive c Dummy|group g c a b|primitive x Dummy|primitive y Dummy|colocation k 5: g x|colocation l -inf: y g",
        "g 0s 2s 1000000;g 1s 0s 1000000;k 2s 3s 5;l 4s 1s -1000000;",
    ),
    (
        "primitive a Dummy|ms m a|primitive v Dummy|colocation c inf: v m:Master",
        "c 1s 0p 1000000;",
    ),
];

#[test]
fn colocations_of_clusters(rt: HostRuntime) {
    assert_told(&rt, rt.alloc(), Part::Colocations, COLOCATIONS);
}

fn tell_order(told: &mut String, rule: &Order) -> Result<(), AllocError> {
    let (id, kind) = (shown(&rule.id), rule.kind);
    let (first, first_op) = (rule.first, rule.first_op);
    let (later, later_op) = (rule.then_leaf, rule.then_op);
    let symmetrical = if rule.symmetrical { "s" } else { "" };
    let local = if rule.local { "l" } else { "" };
    write!(
        told,
        "{id} {kind:?} {first_op:?} {first} {later_op:?} {later} {symmetrical}{local};"
    )
}

fn all_orders(rt: &impl Abort, alloc: Global, cluster: &Cluster) -> String {
    let mut told = String::new(alloc);
    for rule in cluster.orders.iter() {
        tell_order(&mut told, rule).expect(rt, "memory");
    }
    told
}

const ORDERS: &[Row] = &[
    (
        "primitive a Dummy|primitive b Dummy|primitive c Dummy|order o 0: a b c symmetrical=no",
        "o Optional Start 0 Start 1 ;o Optional Start 1 Start 2 ;",
    ),
    (
        "primitive a Dummy|primitive b Dummy|primitive x Dummy|primitive y Dummy|group g a b|order o g x|order p y g",
        "g Mandatory Start 0 Start 1 s;o Mandatory Start 1 Start 2 s;p Mandatory Start 3 Start 0 s;",
    ),
    (
        "primitive a Dummy|primitive b Dummy|primitive x Dummy|group g a b|order o g:stop x:stop|order p Serialize: x:stop g:stop",
        "g Mandatory Start 0 Start 1 s;o Mandatory Stop 0 Stop 2 s;p Serialize Stop 2 Stop 1 ;",
    ),
    (
        "primitive a Dummy|primitive b Dummy|group g a b|clone c g|primitive p Dummy|primitive q Dummy|clone cp p|clone cq q meta interleave=true|primitive r Dummy|clone cr r|order o cp cq|order i cq cr|order k a q|order l p b",
        "g Mandatory Start 0 Start 1 sl;o Mandatory Start 2 Start 3 sl;i Mandatory Start 3 Start 4 s;k Mandatory Start 0 Start 3 sl;l Mandatory Start 2 Start 1 s;",
    ),
    (
        "primitive a Dummy|primitive b Dummy|group g a b|clone c g|order o Optional: a b:start",
        "g Mandatory Start 0 Start 1 sl;o Optional Start 0 Start 1 sl;",
    ),
    (
        "primitive d Dummy|primitive v Dummy|ms m d|order o m:promote v:start",
        "o Mandatory Promote 0 Start 1 s;",
    ),
];

#[test]
fn orders_of_clusters(rt: HostRuntime) {
    assert_told(&rt, rt.alloc(), Part::Orders, ORDERS);
}

/// The line and the cause of the fault, where there is one.
fn fault(rt: &impl Abort, alloc: Global, text: &str) -> Option<(u32, ModelCause)> {
    let crm = crm(rt, alloc, text);
    let leaves = expand(alloc, &crm).expect(rt, "the leaves are made");
    match resolve(alloc, &crm, &leaves) {
        Ok(_) => None,
        Err(ModelFault::At { line, cause }) => Some((line, cause)),
        Err(ModelFault::NoMemory) => panic!(rt; "memory"),
    }
}

/// A configuration in a line, and the line and cause of its fault.
const FAULTS: &[(&str, Option<(u32, ModelCause)>)] = &[
    (
        "node n1|primitive vip IPaddr2|location l vip 5: n9",
        Some((3, ModelCause::UnknownName)),
    ),
    (
        "location l b rule 5: defined x|primitive a Dummy",
        Some((1, ModelCause::UnknownName)),
    ),
    (
        "primitive a Dummy|order o a:promote b",
        Some((2, ModelCause::UnknownName)),
    ),
    (
        "node n|primitive a Dummy|location l a role=Promoted 5: n",
        Some((3, ModelCause::NotPromotable)),
    ),
    (
        "primitive a Dummy|primitive b Dummy|ms m a|colocation c 5: b:Master m",
        Some((4, ModelCause::NotPromotable)),
    ),
    (
        "primitive a Dummy|primitive b Dummy|order o a b:promote a:stop",
        Some((3, ModelCause::NotPromotable)),
    ),
    (
        "primitive a Dummy|primitive b Dummy|order o a:stop b:start a:stop",
        Some((3, ModelCause::UnsupportedOrder)),
    ),
    (
        "node n1|primitive a Dummy|primitive b Dummy|order o a b|order p b a",
        Some((5, ModelCause::OrderLoop)),
    ),
    (
        "primitive a Dummy|primitive b Dummy|colocation c inf: a b|colocation d 5: b a",
        Some((4, ModelCause::ColocationLoop)),
    ),
    (
        "primitive a Dummy|primitive b Dummy|colocation c inf: a b|order o b a|group g a b",
        Some((5, ModelCause::ColocationLoop)),
    ),
    (
        "primitive a Dummy|primitive b Dummy|order o b a|group g a b|colocation c inf: a b",
        Some((4, ModelCause::OrderLoop)),
    ),
    (
        "primitive a Dummy|order o a a|location l x 5: n",
        Some((2, ModelCause::OrderLoop)),
    ),
    (
        "primitive a Dummy|location l x 5: n|order o a a",
        Some((2, ModelCause::UnknownName)),
    ),
    ("primitive a Dummy|order o Serialize: a a", None),
];

#[test]
fn faults_by_statement(rt: HostRuntime) {
    for (text, want) in FAULTS {
        assert_row(&rt, fault(&rt, rt.alloc(), text) == *want, text);
    }
}

/// How a text begins, and then lines that are alike but for a number: how each begins and ends.
type Alike = (&'static str, &'static str, &'static str);

const NODES_ALIKE: Alike = ("node n", "|node n", "");

const RULES_ALIKE: Alike = (
    "node n|primitive a Dummy|primitive b Dummy|group g a b",
    "|location l",
    " a 1: n",
);

/// The text, and then so many lines, of which the last has the number `count`.
fn with_lines(rt: &impl Abort, alloc: Global, alike: Alike, count: u32) -> String {
    let (text, begin, end) = alike;
    let mut whole = String::from_str(alloc, text).expect(rt, "memory");
    for number in 1..=count {
        write!(whole, "{begin}{number}{end}").expect(rt, "memory");
    }
    whole
}

/// The fault of such a text.
fn fault_of(rt: &impl Abort, alloc: Global, alike: Alike, count: u32) -> Option<(u32, ModelCause)> {
    let text = with_lines(rt, alloc, alike, count);
    fault(rt, alloc, text.as_str())
}

#[test]
fn limits_of_nodes(rt: HostRuntime) {
    let alloc = rt.alloc();
    assert!(rt; fault_of(&rt, alloc, NODES_ALIKE, 255).is_none());
    let found = fault_of(&rt, alloc, NODES_ALIKE, 256);
    assert!(rt; found == Some((257, ModelCause::TooManyNodes)));
}

#[test]
fn limits_of_rules(rt: HostRuntime) {
    let alloc = rt.alloc();
    assert!(rt; fault_of(&rt, alloc, RULES_ALIKE, 1_998).is_none());
    let found = fault_of(&rt, alloc, RULES_ALIKE, 1_999);
    assert!(rt; found == Some((2_003, ModelCause::TooManyRules)));
}
