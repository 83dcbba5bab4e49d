//! What `expand` makes of primitives, groups and clones, and which statement is at fault.

use crate::checked::assert_row;
use crate::resolved_texts::{crm, shown};
use cluster_model::{ExpandCause, ExpandFault, Leaves, expand};
use cluster_types::Leaf;
use std::alloc::{AllocError, Global};
use std::process::Abort;
use std::str;

fn leaves(rt: &impl Abort, alloc: Global, text: &str) -> Leaves {
    expand(alloc, &crm(rt, alloc, text)).expect(rt, "the leaves are made")
}

/// Its copies and promoted copies, and which of cloned, interleave, promotable and follower it is.
fn tell_copies(told: &mut String, leaf: &Leaf) -> Result<(), AllocError> {
    let name = shown(&leaf.name);
    let cloned = if leaf.cloned { "c" } else { "" };
    let interleave = if leaf.interleave { "i" } else { "" };
    let promotable = if leaf.promotable { "p" } else { "" };
    let follower = if leaf.follower { "f" } else { "" };
    let (most, promoted) = (leaf.copies, leaf.promoted_copies);
    write!(
        told,
        "{name} {most} {promoted} {cloned}{interleave}{promotable}{follower};"
    )
}

/// What is told of a leaf.
#[derive(Clone, Copy)]
enum Part {
    Copies,
    Meta,
    Operations,
}

fn tell(told: &mut String, part: Part, leaf: &Leaf) -> Result<(), AllocError> {
    match part {
        Part::Copies => tell_copies(told, leaf),
        Part::Meta => tell_meta(told, leaf),
        Part::Operations => tell_operations(told, leaf),
    }
}

/// A configuration in a line, and what is told of its leaves.
type Row = (&'static str, &'static str);

/// Whether this is told of the leaves.
fn is_told(rt: &impl Abort, alloc: Global, part: Part, text: &str, want: &str) -> bool {
    let leaves = leaves(rt, alloc, text);
    let mut told = String::new(alloc);
    for leaf in leaves.leaves.iter() {
        tell(&mut told, part, leaf).expect(rt, "memory");
    }
    told.as_str() == want
}

fn assert_told(rt: &impl Abort, alloc: Global, part: Part, rows: &[Row]) {
    for (text, want) in rows {
        assert_row(rt, is_told(rt, alloc, part, text, want), text);
    }
}

const COPIES: &[Row] = &[
    (
        "node n1|primitive a Dummy|primitive b Dummy",
        "a 1 1 ;b 1 1 ;",
    ),
    (
        "node n1|node n2|node n3|primitive a Dummy|primitive b Dummy|group g a b|clone c g",
        "a 3 1 c;b 3 1 cf;",
    ),
    (
        "clone c g meta clone-max=2 interleave=true|group g b a|primitive a Dummy|primitive b Dummy|node n1|node n2|node n3",
        "a 2 1 cif;b 2 1 ci;",
    ),
    (
        "node n1|node n2|primitive a Dummy|ms m a meta clone-max=5 promoted-max=2",
        "a 2 2 cp;",
    ),
    (
        "node n1|primitive a Dummy|clone m a meta promotable=yes master-max=3 clone-max=0",
        "a 0 3 cp;",
    ),
    (
        "node n1|primitive a Dummy|primitive b Dummy meta clone-max=0|group g a b meta interleave=true|rsc_defaults clone-max=0",
        "a 1 1 ;b 1 1 f;",
    ),
];

#[test]
fn copies_of_leaves(rt: HostRuntime) {
    assert_told(&rt, rt.alloc(), Part::Copies, COPIES);
}

/// Its priority, stickiness, threshold, failure timeout and target role, and which of managed and migrates it is.
fn tell_meta(told: &mut String, leaf: &Leaf) -> Result<(), AllocError> {
    let name = shown(&leaf.name);
    let priority = leaf.priority.points;
    let stickiness = leaf.stickiness.points;
    let threshold = leaf.threshold.points;
    let (timeout, role) = (leaf.timeout_ms, leaf.target_role);
    let managed = if leaf.managed { "m" } else { "" };
    let migrates = if leaf.migrates { "g" } else { "" };
    write!(
        told,
        "{name} {priority} {stickiness} {threshold} {timeout} {role:?} {managed}{migrates};"
    )
}

const META: &[Row] = &[
    ("primitive a Dummy", "a 0 0 1000000 0 Started m;"),
    ("primitive a Dummy|clone c a", "a 0 1 1000000 0 Started m;"),
    (
        "primitive a x meta priority=1|group g a b meta priority=2|primitive b x|clone c g meta priority=3 migration-threshold=4",
        "a 1 1 4 0 Started m;b 2 1 4 0 Started m;",
    ),
    (
        "primitive a Dummy|clone c a meta priority=3 resource-stickiness=0|rsc_defaults priority=4 resource-stickiness=7",
        "a 3 0 1000000 0 Started m;",
    ),
    (
        "primitive a x meta is-managed=no allow-migrate=true|rsc_defaults priority=-inf allow-migrate=off|primitive b x",
        "a -1000000 0 1000000 0 Started g;b -1000000 0 1000000 0 Started m;",
    ),
    (
        "primitive a x meta target-role=Master|rsc_defaults failure-timeout=10|rsc_defaults target-role=stopped|primitive b x",
        "a 0 0 1000000 10000 Promoted m;b 0 0 1000000 10000 Stopped m;",
    ),
    (
        "property maintenance-mode=true|primitive a Dummy meta is-managed=true",
        "a 0 0 1000000 0 Started ;",
    ),
];

#[test]
fn meta_attributes_of_leaves(rt: HostRuntime) {
    assert_told(&rt, rt.alloc(), Part::Meta, META);
}

/// What follows a failed start, stop, promote and demote, and the monitors with what follows their failure.
fn tell_operations(told: &mut String, leaf: &Leaf) -> Result<(), AllocError> {
    let (start, stop) = (leaf.start_fail, leaf.stop_fail);
    let (promote, demote) = (leaf.promote_fail, leaf.demote_fail);
    write!(told, "{start:?} {stop:?} {promote:?} {demote:?}")?;
    for monitor in leaf.monitors.iter() {
        let (interval, role, on_fail) = (monitor.interval_ms, monitor.role, monitor.on_fail);
        write!(told, " {interval} {role:?} {on_fail:?}")?;
    }
    write!(told, ";")
}

const OPERATIONS: &[Row] = &[
    ("primitive a Dummy", "Restart Fence Restart Restart;"),
    (
        "primitive a Dummy op monitor interval=0 op monitor interval=10 enabled=no|property stonith-enabled=off",
        "Restart Block Restart Restart;",
    ),
    (
        "primitive a Dummy op start on-fail=stop op stop on-fail=block op promote on-fail=fence op demote on-fail=block",
        "Stop Block Fence Block;",
    ),
    (
        "primitive a x op monitor interval=10 role=Master on-fail=ignore op monitor interval=7ms on-fail=fence role=Slave",
        "Restart Fence Restart Restart 10000 Promoted Ignore 7 Started Fence;",
    ),
];

#[test]
fn operations_of_leaves(rt: HostRuntime) {
    assert_told(&rt, rt.alloc(), Part::Operations, OPERATIONS);
}

/// Whether these spans are told.
fn has_spans(rt: &impl Abort, alloc: Global, text: &str, want: &str) -> bool {
    let leaves = leaves(rt, alloc, text);
    let mut told = String::new(alloc);
    for span in leaves.spans.iter() {
        let (name, first, last) = (shown(&span.name), span.first, span.last);
        write!(told, "{name} {first} {last};").expect(rt, "memory");
    }
    told.as_str() == want
}

const SPANS: &[Row] = &[
    ("node n1", ""),
    (
        "clone c g|group g b x a|primitive a Dummy|primitive b Dummy|primitive x Dummy|primitive y Dummy|ms m y",
        "c 1 0;g 1 0;a 0 0;b 1 1;x 2 2;y 3 3;m 3 3;",
    ),
];

#[test]
fn spans_of_resources(rt: HostRuntime) {
    for (text, want) in SPANS {
        assert_row(&rt, has_spans(&rt, rt.alloc(), text, want), text);
    }
}

/// The line and the cause of the fault, where there is one.
fn fault(rt: &impl Abort, alloc: Global, text: &str) -> Option<(u32, ExpandCause)> {
    match expand(alloc, &crm(rt, alloc, text)) {
        Ok(_) => None,
        Err(ExpandFault::At { line, cause }) => Some((line, cause)),
        Err(ExpandFault::NoMemory) => panic!(rt; "memory"),
    }
}

/// A configuration in a line, and the line and cause of its fault.
const FAULTS: &[(&str, Option<(u32, ExpandCause)>)] = &[
    ("node a|primitive a Dummy", None),
    (
        "node a|node b|node a",
        Some((3, ExpandCause::DuplicateName)),
    ),
    (
        "primitive a Dummy|location a a 5: n",
        Some((2, ExpandCause::DuplicateName)),
    ),
    (
        "location x a 5: n|order x a b|group g",
        Some((2, ExpandCause::DuplicateName)),
    ),
    ("group g a", Some((1, ExpandCause::UnknownName))),
    (
        "node a|location b g 5: a|clone c b",
        Some((3, ExpandCause::UnknownName)),
    ),
    (
        "group g h|group h a|primitive a Dummy",
        Some((1, ExpandCause::NestedTwice)),
    ),
    (
        "primitive a Dummy|clone c a|clone d c",
        Some((3, ExpandCause::NestedTwice)),
    ),
    (
        "primitive a Dummy|group g",
        Some((2, ExpandCause::EmptyGroup)),
    ),
    (
        "primitive a Dummy|group g a a",
        Some((2, ExpandCause::MemberTwice)),
    ),
    (
        "primitive a Dummy|group g a|clone c a",
        Some((3, ExpandCause::MemberTwice)),
    ),
    (
        "primitive a Dummy|group g a|ms m g",
        Some((3, ExpandCause::UnsupportedMeta)),
    ),
    (
        "primitive a Dummy|group g a|clone m g meta promotable=1",
        Some((3, ExpandCause::UnsupportedMeta)),
    ),
    (
        "primitive a Dummy|group g a|clone m g|ms k g",
        Some((4, ExpandCause::MemberTwice)),
    ),
    ("group g h x|group h", Some((1, ExpandCause::UnknownName))),
    (
        "primitive g Dummy|group g",
        Some((2, ExpandCause::DuplicateName)),
    ),
];

#[test]
fn faults_by_statement(rt: HostRuntime) {
    for (text, want) in FAULTS {
        assert_row(&rt, fault(&rt, rt.alloc(), text) == *want, text);
    }
}
