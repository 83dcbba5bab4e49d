use crate::checked::assert_row;
use crate::reading::lines;
use crm_parse::{ParseCause, ParseFault, parse};
use std::alloc::Global;
use std::process::Abort;

/// The line of a fault, and the text.
type Row = (u32, &'static str);

/// Whether the text is refused for this cause, at this line.
fn is_refused(rt: &impl Abort, alloc: Global, text: &str, line: u32, cause: ParseCause) -> bool {
    let lines = lines(rt, alloc, text);
    match parse(alloc, lines.as_slice()) {
        Err(fault) => fault == ParseFault::At { line, cause },
        Ok(_) => false,
    }
}

fn assert_refused(rt: &impl Abort, alloc: Global, cause: ParseCause, table: &[Row]) {
    for (line, text) in table {
        assert_row(rt, is_refused(rt, alloc, text, *line, cause), text);
    }
}

const UNKNOWN_STATEMENT: &[Row] = &[(1, "frobnicate"), (2, "node n1\nfrobnicate\nnode !")];

#[test]
fn unknown_statement(rt: HostRuntime) {
    assert_refused(
        &rt,
        rt.alloc(),
        ParseCause::UnknownStatement,
        UNKNOWN_STATEMENT,
    );
}

const UNSUPPORTED: &[Row] = &[
    (1, "xml a"),
    (1, "monitor a 10s"),
    (1, "node n1 attributes maintenance=true"),
    (1, "primitive p @t"),
    (1, "primitive p Dummy params rule"),
    (1, "primitive p Dummy op_params x=1"),
    (1, "primitive p Dummy params op_meta x=1"),
    (1, "primitive p Dummy meta critical=false"),
    (1, "primitive p Dummy meta requires=nothing"),
    (1, "primitive p Dummy op rule x=1"),
    (1, "primitive p Dummy op monitor role=Stopped"),
    (1, "primitive p Dummy op start on-fail=ignore"),
    (
        1,
        "primitive p Dummy op monitor interval=1 op monitor interval=2 op monitor interval=3 \
        op monitor interval=4 op monitor interval=5 op monitor interval=6 \
        op monitor interval=7 op monitor interval=8 op monitor interval=9",
    ),
    (1, "clone c a meta globally-unique=true"),
    (1, "clone c a meta clone-node-max=2"),
    (1, "location l /a/ 5: n1"),
    (1, "location l a role=Slave 5: n1"),
    (1, "location l a resource-discovery=never 5: n1"),
    (1, "location l a rule 5: x eq 1 and y eq 2 or z eq 3"),
    (1, "location l a rule 5: date spec hours=1"),
    (1, "location l a rule 5: date in start=2020-01-01 hours=5"),
    (1, "location l a rule $id-ref=r"),
    (1, "location l a rule 5: x version:lt 1"),
    (1, "colocation c inf: a b c"),
    (1, "colocation c inf: a:Stopped b"),
    (1, "colocation c node-attribute=x inf: a b"),
    (1, "order o Serialize: a b symmetrical=true"),
    (1, "order o ( a b ) c"),
    (1, "property no-quorum-policy=suicide"),
    (1, "property placement-strategy=utilization"),
    (1, "op_defaults on-fail=block"),
    (1, "primitive p Dummy meta multiple-active=block"),
    (1, "primitive p Dummy meta maintenance=on"),
    (1, "primitive p Dummy op start on-fail=standby"),
    (1, "primitive p Dummy op monitor x=1 op_params y=1"),
    (1, "clone c a meta ordered=1"),
    (1, "bundle b"),
    (1, "rsc_template t"),
    (1, "tag t"),
    (1, "rsc_ticket t"),
    (1, "colocation c inf: a ( b )"),
];

#[test]
fn unsupported(rt: HostRuntime) {
    assert_refused(&rt, rt.alloc(), ParseCause::Unsupported, UNSUPPORTED);
}

const BAD_SCORE: &[Row] = &[
    (2, "node n1\nprimitive a Dummy meta priority=x"),
    (1, "location l a 5 n1"),
    (1, "location l a rule x: a eq b"),
    (1, "order o -5: a b"),
    (1, "primitive p Dummy meta resource-stickiness=1x"),
    (1, "colocation c x: a b"),
    (3, "rsc_defaults priority=1\n\nrsc_defaults priority=x"),
];

#[test]
fn bad_score(rt: HostRuntime) {
    assert_refused(&rt, rt.alloc(), ParseCause::BadScore, BAD_SCORE);
}

const BAD_TIME: &[Row] = &[
    (1, "primitive p Dummy meta failure-timeout=x"),
    (1, "primitive p Dummy op monitor interval=x"),
];

#[test]
fn bad_time(rt: HostRuntime) {
    assert_refused(&rt, rt.alloc(), ParseCause::BadTime, BAD_TIME);
}

const BAD_VALUE: &[Row] = &[
    (1, "node n!"),
    (1, "node n1 attributes standby=maybe"),
    (1, "primitive p a:b:c:d"),
    (1, "primitive p a::b"),
    (1, "primitive p Dummy meta migration-threshold=-1"),
    (1, "primitive p Dummy op stop on-fail=restart"),
    (1, "group g a=b"),
    (1, "ms m a meta promotable=false"),
    (1, "location l a role=x 5: n1"),
    (1, "location l a rule 5: date lt 2023-02-30"),
    (1, "location l a rule 5: x number:version:lt 1"),
    (1, "location l a rule 5: x number:lt y"),
    (1, "order o foo: a b"),
    (1, "order o a symmetrical=true"),
    (1, "order o a:run b"),
    (1, "property stonith-enabled=maybe"),
    (1, "node n1 attributes maintenance=x"),
    (1, "node 1!: n1"),
    (1, "primitive p Dummy meta target-role=up"),
    (1, "primitive p Dummy meta is-managed=maybe"),
    (1, "primitive p Dummy op monitor interval=1h enabled=2"),
    (1, "primitive p Dummy op start on-fail=x"),
    (1, "clone c a meta promotable=2"),
    (1, "colocation c inf: a:x b"),
    (1, "order o a b symmetrical=2"),
    (1, "order o a b c=d"),
    (1, "property s!: a=1"),
    (1, "property no-quorum-policy=x"),
    (1, "property batch-limit=1000001"),
    (1, "location l a rule 5: x foo 1"),
];

#[test]
fn bad_value(rt: HostRuntime) {
    assert_refused(&rt, rt.alloc(), ParseCause::BadValue, BAD_VALUE);
}

const MISSING_WORD: &[Row] = &[
    (1, "node"),
    (1, "node n1 attributes"),
    (1, "primitive p"),
    (1, "primitive p Dummy params meta a=1"),
    (1, "primitive p Dummy op"),
    (1, "primitive p Dummy op monitor"),
    (1, "group g a meta"),
    (1, "clone c"),
    (1, "location l a 5:"),
    (1, "location l a rule 5: x eq"),
    (1, "colocation c inf: a"),
    (1, "order o a"),
    (1, "property"),
    (1, "node n1 attributes a=1 utilization"),
    (1, "order o"),
    (1, "order o Serialize: a"),
    (1, "property s:"),
    (1, "location l"),
    (1, "location l a rule"),
    (1, "location l a rule 5: x lt"),
    (1, "location l a rule 5: x eq 1 and"),
    (1, "location l a rule 5: date in start=2020-01-01"),
];

#[test]
fn missing_word(rt: HostRuntime) {
    assert_refused(&rt, rt.alloc(), ParseCause::MissingWord, MISSING_WORD);
}

const EXTRA_WORD: &[Row] = &[
    (1, "node n1 utilization a=1 attributes b=2"),
    (1, "primitive p Dummy a=b"),
    (1, "primitive p Dummy params a"),
    (1, "primitive p Dummy params =a"),
    (1, "primitive p Dummy params x=1 rule"),
    (1, "location l a 5: n1 n2"),
    (1, "location l a rule 5: x eq 1 y"),
    (1, "colocation c inf: a b ="),
    (1, "order o a b symmetrical=yes c"),
    (1, "property a=1 rule"),
    (1, "node n1 params a=1"),
    (1, "node n1 attributes a=1 attributes b=1"),
    (1, "primitive p Dummy description=d description=e"),
    (1, "property =1"),
];

#[test]
fn extra_word(rt: HostRuntime) {
    assert_refused(&rt, rt.alloc(), ParseCause::ExtraWord, EXTRA_WORD);
}

const REPEATED_KEY: &[Row] = &[
    (1, "node n1 attributes a=1 a=2"),
    (1, "primitive p Dummy params a=1 meta x=1 params a=2"),
    (1, "primitive p Dummy op start timeout=1 op start timeout=2"),
    (
        1,
        "primitive p Dummy op monitor interval=10s op monitor interval=10",
    ),
    (1, "primitive p Dummy op monitor interval=10s interval=5s"),
    (1, "clone c a meta promoted-max=1 master-max=1"),
    (3, "property a=1\nrsc_defaults a=1\nproperty b=1 a=2"),
    (1, "ms m a meta promoted-max=1 x=1 master-max=2"),
    (1, "property a=1 a=2"),
    (3, "op_defaults a=1\nproperty a=1\nop_defaults a=2"),
];

#[test]
fn repeated_key(rt: HostRuntime) {
    assert_refused(&rt, rt.alloc(), ParseCause::RepeatedKey, REPEATED_KEY);
}
