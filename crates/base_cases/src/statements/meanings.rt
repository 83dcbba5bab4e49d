use crate::checked::assert_row;
use crate::reading::crm;
use std::alloc::Global;
use std::process::Abort;

/// Two texts.
type Row = (&'static str, &'static str);

/// Texts that say the same.
const ALIKE: &[Row] = &[
    ("primitive p Dummy", "primitive p ocf:heartbeat:Dummy"),
    (
        "primitive p a:b meta x=1 op monitor interval=5 params y=2 meta z=3",
        "primitive p a:b params y='2' meta x=1 z=3 op monitor interval=5",
    ),
    ("master m p meta a=b", "ms m p \\\n meta \"a=b\""),
    (
        "location l a role=master 2000000: n1",
        "location l a role=Promoted inf: n1",
    ),
    ("collocation c 5: a:Started b", "colocation c +5: a b"),
    (
        "order o 0: a:stop b c",
        "order o Optional: a:stop b:stop c:stop symmetrical=yes",
    ),
    (
        "ms m a\norder o m:promote x a",
        "ms m a\norder o inf: m:promote x:start a:start symmetrical=true",
    ),
];

/// Texts of locations whose rules mean different things, though they differ in few words.
const DIFFERENT: &[Row] = &[
    (
        "location l a rule 5: x eq 1 and y eq 2",
        "location l a rule 5: x eq 1 or y eq 2",
    ),
    (
        "location l a rule 5: x eq 1",
        "location l a rule 5: x number:eq 1",
    ),
    (
        "location l a rule 5: defined x",
        "location l a rule 5: not_defined x",
    ),
    (
        "location l a rule 5: date lt 2020-01-01",
        "location l a rule 5: date gt 2020-01-01",
    ),
];

/// Whether two texts say the same.
fn are_alike(rt: &impl Abort, alloc: Global, one: &str, other: &str) -> bool {
    crm(rt, alloc, one) == crm(rt, alloc, other)
}

#[test]
fn texts_that_say_the_same(rt: HostRuntime) {
    for (one, other) in ALIKE {
        assert_row(&rt, are_alike(&rt, rt.alloc(), one, other), one);
    }
}

#[test]
fn meanings_of_rules(rt: HostRuntime) {
    for (one, other) in DIFFERENT {
        assert_row(&rt, !are_alike(&rt, rt.alloc(), one, other), one);
    }
}
