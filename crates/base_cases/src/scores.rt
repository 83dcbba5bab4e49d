//! Totals of scores, and their texts.

use crate::checked::assert_row;
use score::{Score, total};
use std::process::Abort;

const LARGE: Score = Score { points: 600_000 };

const SMALL: Score = Score { points: -300_000 };

/// Compares the total of three terms at most.
fn compare(rt: &impl Abort, terms: &[Score], want: i32) {
    assert!(rt; terms.len() <= 3);
    assert!(rt; total(terms).points == want);
}

#[test]
fn totals(rt: HostRuntime) {
    let finite = [
        Score { points: 999_999 },
        Score { points: 5 },
        Score { points: -10 },
    ];
    compare(&rt, &finite, 999_994);
    compare(&rt, &[Score::INFINITY, Score::MINUS_INFINITY], -1_000_000);
    compare(&rt, &[SMALL, Score::INFINITY], 1_000_000);
    compare(&rt, &[LARGE, LARGE], 1_000_000);
    compare(&rt, &[], 0);
    // Cut once.
    compare(&rt, &[LARGE, LARGE, SMALL], 900_000);
}

/// Texts, and the points that each says.
const READ: &[(&str, Option<i32>)] = &[
    ("INFINITY", Some(1_000_000)),
    ("infinity", Some(1_000_000)),
    ("+Infinity", Some(1_000_000)),
    ("-INFINITY", Some(-1_000_000)),
    ("inf", Some(1_000_000)),
    ("-inf", Some(-1_000_000)),
    ("+iNf", Some(1_000_000)),
    ("0", Some(0)),
    ("-0", Some(0)),
    ("+5", Some(5)),
    ("-1", Some(-1)),
    ("007", Some(7)),
    ("999999", Some(999_999)),
    ("-999999", Some(-999_999)),
    ("1000000", Some(1_000_000)),
    ("1000001", Some(1_000_000)),
    ("-1000001", Some(-1_000_000)),
    ("4294967295", Some(1_000_000)),
    ("-4294967295", Some(-1_000_000)),
    ("00000000004294967295", Some(1_000_000)),
    ("4294967296", None),
    ("-4294967296", None),
    ("18446744073709551617", None),
    ("", None),
    ("+", None),
    ("-", None),
    ("--1", None),
    ("+-1", None),
    ("++inf", None),
    ("1 ", None),
    (" 1", None),
    ("infin", None),
    ("infinity1", None),
    ("0x1", None),
    ("1e3", None),
    ("١", None),
];

/// Whether a text says a score of so many points, or none.
fn says(text: &[u8], want: Option<i32>) -> bool {
    match Score::from_text(text) {
        Some(score) => want == Some(score.points),
        None => want.is_none(),
    }
}

#[test]
fn scores_are_read(rt: HostRuntime) {
    for (text, want) in READ {
        assert_row(&rt, says(text.as_bytes(), *want), text);
    }
    assert!(rt; says(b"\xff", None));
}

/// Points and their texts.
const WRITTEN: &[(i32, &str)] = &[
    (0, "0"),
    (-1, "-1"),
    (1000, "1000"),
    (-999_999, "-999999"),
    (999_999, "999999"),
    (1_000_000, "INFINITY"),
    (-1_000_000, "-INFINITY"),
];

/// Whether this text is written of so many points.
fn is_written(rt: &impl Abort, points: i32, want: &str) -> bool {
    assert!(rt; -1_000_000 <= points && points <= 1_000_000);
    let mut buf = [b'.'; 12];
    let length = Score { points }.write_to(&mut buf);
    &buf[..length] == want.as_bytes()
}

#[test]
fn scores_are_written(rt: HostRuntime) {
    for (points, want) in WRITTEN {
        assert_row(&rt, is_written(&rt, *points, want), want);
    }
}
