//! Which rules of locations hold.

use date_rules::{Compare, Kind, Pair, Rule, Test, holds};
use listed::{Listed, Name};
use std::alloc::Global;
use std::process::Abort;

const MOMENT: u64 = 1000;

fn name_of(rt: &impl Abort, alloc: Global, bytes: &[u8]) -> Name {
    Name::from_bytes(alloc, bytes).expect(rt, "memory")
}

/// The attributes of the node.
const ATTRIBUTES: &[(&[u8], &[u8])] = &[
    (b"rack", b"b"),
    (b"rack", b"c"),
    (b"level", b"10"),
    (b"signed", b"+7"),
    (b"low", b"-3"),
    (b"note", b"abc"),
    (b"empty", b""),
    (b"big", b"9223372036854775807"),
    (b"huge", b"9223372036854775808"),
    (b"#uname", b"zz"),
];

/// The written attributes of the node.
fn attributes(rt: &impl Abort, alloc: Global) -> Vec<Pair> {
    let mut pairs = Vec::new(alloc);
    for (name, value) in ATTRIBUTES {
        pairs
            .push(Pair {
                name: name_of(rt, alloc, name),
                value: name_of(rt, alloc, value),
            })
            .expect(rt, "memory");
    }
    pairs
}

/// Whether the rule of these tests holds at the node n1.
fn rule_holds(rt: &impl Abort, alloc: Global, all: bool, tests: Vec<Test>, moment: u64) -> bool {
    let rule = Rule {
        all,
        tests: Listed::from(tests),
    };
    let attributes = attributes(rt, alloc);
    holds(&rule, b"n1", attributes.as_slice(), moment)
}

/// Whether the one test passes, at a moment of 1000.
fn test_passes(rt: &impl Abort, alloc: Global, test: Test) -> bool {
    let mut tests = Vec::new(alloc);
    tests.push(test).expect(rt, "memory");
    rule_holds(rt, alloc, true, tests, MOMENT)
}

/// An attribute, how and as what it is compared with a value, and whether the test passes.
type Comparison = (&'static [u8], Compare, Kind, &'static [u8], bool);

const COMPARISONS: &[Comparison] = &[
    (b"rack", Compare::Eq, Kind::Auto, b"b", true),
    (b"rack", Compare::Eq, Kind::Auto, b"c", false),
    (b"rack", Compare::Ne, Kind::Word, b"c", true),
    (b"level", Compare::Gt, Kind::Number, b"9", true),
    (b"level", Compare::Gt, Kind::Word, b"9", false),
    (b"level", Compare::Gt, Kind::Auto, b"9", true),
    (b"level", Compare::Gt, Kind::Auto, b"9a", false),
    (b"level", Compare::Lt, Kind::Auto, b"9a", true),
    (b"level", Compare::Lte, Kind::Number, b"10", true),
    (b"level", Compare::Gte, Kind::Number, b"11", false),
    (b"signed", Compare::Eq, Kind::Number, b"7", true),
    (b"signed", Compare::Eq, Kind::Word, b"7", false),
    (b"low", Compare::Lt, Kind::Number, b"-2", true),
    (b"low", Compare::Lt, Kind::Word, b"-2", false),
    (b"note", Compare::Eq, Kind::Number, b"abc", false),
    (b"note", Compare::Ne, Kind::Number, b"5", false),
    (b"level", Compare::Ne, Kind::Number, b"x", false),
    (b"note", Compare::Lt, Kind::Word, b"abd", true),
    (b"note", Compare::Gt, Kind::Word, b"ab", true),
    (b"missing", Compare::Ne, Kind::Word, b"x", false),
    (b"missing", Compare::Eq, Kind::Word, b"", false),
    (b"empty", Compare::Eq, Kind::Word, b"", true),
    (b"empty", Compare::Lt, Kind::Number, b"1", false),
    (
        b"big",
        Compare::Gte,
        Kind::Number,
        b"9223372036854775807",
        true,
    ),
    (b"huge", Compare::Gt, Kind::Number, b"5", false),
    (
        b"huge",
        Compare::Gt,
        Kind::Auto,
        b"9223372036854775807",
        true,
    ),
    (b"#uname", Compare::Eq, Kind::Auto, b"n1", true),
    (b"#uname", Compare::Eq, Kind::Auto, b"zz", false),
];

/// Whether the test of such a row passes.
fn compares(rt: &impl Abort, alloc: Global, (name, compare, kind, value, _): &Comparison) -> bool {
    let test = Test::Attribute {
        name: name_of(rt, alloc, name),
        compare: *compare,
        kind: *kind,
        value: name_of(rt, alloc, value),
    };
    test_passes(rt, alloc, test)
}

#[test]
fn comparisons(rt: HostRuntime) {
    for row in COMPARISONS {
        assert!(rt; compares(&rt, rt.alloc(), row) == row.4);
    }
}

/// Names, and whether the node has such an attribute.
const NAMES: &[(&[u8], bool)] = &[(b"rack", true), (b"missing", false), (b"#uname", true)];

fn is_defined(rt: &impl Abort, alloc: Global, name: &[u8]) -> bool {
    let name = name_of(rt, alloc, name);
    test_passes(rt, alloc, Test::Defined { name })
}

fn is_not_defined(rt: &impl Abort, alloc: Global, name: &[u8]) -> bool {
    let name = name_of(rt, alloc, name);
    test_passes(rt, alloc, Test::NotDefined { name })
}

#[test]
fn presence(rt: HostRuntime) {
    for (name, expected) in NAMES {
        assert!(rt; is_defined(&rt, rt.alloc(), name) == *expected);
        assert!(rt; is_not_defined(&rt, rt.alloc(), name) != *expected);
    }
}

/// Bounds, and whether the moment of 1000 is before and after each.
const BOUNDS: &[(i64, bool, bool)] = &[
    (999, false, true),
    (1000, false, false),
    (1001, true, false),
    (-5, false, true),
];

/// Starts and ends, and whether the moment of 1000 is within.
const SPANS: &[(i64, i64, bool)] = &[
    (1000, 1000, true),
    (1001, 2000, false),
    (-10, 999, false),
    (-10, 5000, true),
    (2000, 500, false),
];

#[test]
fn moments(rt: HostRuntime) {
    let alloc = rt.alloc();
    for (at, before, after) in BOUNDS {
        let is_before = test_passes(&rt, alloc, Test::Before { at: *at });
        let is_after = test_passes(&rt, alloc, Test::After { at: *at });
        assert!(rt; is_before == *before && is_after == *after);
    }
}

#[test]
fn spans(rt: HostRuntime) {
    let alloc = rt.alloc();
    for (start, end, expected) in SPANS {
        let within = Test::Within {
            start: *start,
            end: *end,
        };
        assert!(rt; test_passes(&rt, alloc, within) == *expected);
    }
}

/// The test for a moment before this one, and that for one after it.
fn before_and_after(rt: &impl Abort, alloc: Global, at: i64) -> Vec<Test> {
    let mut tests = Vec::new(alloc);
    tests.push(Test::Before { at }).expect(rt, "memory");
    tests.push(Test::After { at }).expect(rt, "memory");
    tests
}

#[test]
fn joined_tests(rt: HostRuntime) {
    let alloc = rt.alloc();
    assert!(rt; rule_holds(&rt, alloc, true, Vec::new(alloc), MOMENT));
    assert!(rt; !rule_holds(&rt, alloc, false, Vec::new(alloc), MOMENT));
    let all = before_and_after(&rt, alloc, 999);
    assert!(rt; !rule_holds(&rt, alloc, true, all, MOMENT));
    let some = before_and_after(&rt, alloc, 999);
    assert!(rt; rule_holds(&rt, alloc, false, some, MOMENT));
}

#[test]
fn the_last_moment(rt: HostRuntime) {
    let mut tests = Vec::new(rt.alloc());
    tests
        .push(Test::After { at: i64::MAX })
        .expect(&rt, "memory");
    assert!(rt; rule_holds(&rt, rt.alloc(), false, tests, u64::MAX));
}
