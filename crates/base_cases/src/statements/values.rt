use crate::checked::assert_row;
use crm_parse::{
    ActionWord, KindWord, RoleName, action_of, bool_of, count_of, kind_of, role_of, time_of,
};

/// Times as they are written, in milliseconds.
const TIMES: &[(&str, Option<u32>)] = &[
    ("0", Some(0)),
    ("10", Some(10_000)),
    ("10s", Some(10_000)),
    ("10sec", Some(10_000)),
    ("007ms", Some(7)),
    ("7msec", Some(7)),
    ("2m", Some(120_000)),
    ("2min", Some(120_000)),
    ("1h", Some(3_600_000)),
    ("1hr", Some(3_600_000)),
    ("4294967295ms", Some(4_294_967_295)),
    ("4294967", Some(4_294_967_000)),
    ("4294968", None),
    ("4294967296ms", None),
    ("", None),
    ("s", None),
    ("10S", None),
    ("10 s", None),
    ("-1", None),
    ("1.5s", None),
    ("10d", None),
];

/// Counts as they are written.
const COUNTS: &[(&str, Option<u32>)] = &[
    ("0", Some(0)),
    ("0012", Some(12)),
    ("1000000", Some(1_000_000)),
    ("1000001", None),
    ("+1", None),
    ("", None),
    ("1x", None),
];

#[test]
fn times(rt: HostRuntime) {
    for (text, want) in TIMES {
        assert_row(&rt, time_of(text.as_bytes()) == *want, text);
    }
}

#[test]
fn counts(rt: HostRuntime) {
    for (text, want) in COUNTS {
        assert_row(&rt, count_of(text.as_bytes()) == *want, text);
    }
}

const YES: &[&str] = &["true", "ON", "Yes", "y", "1"];

const NO: &[&str] = &["false", "Off", "NO", "n", "0"];

#[test]
fn words_of_a_meaning(rt: HostRuntime) {
    for text in YES {
        assert!(rt; bool_of(text.as_bytes()) == Some(true));
    }
    for text in NO {
        assert!(rt; bool_of(text.as_bytes()) == Some(false));
    }
    assert!(rt; bool_of(b"2").is_none());
}

/// Words for a role.
const ROLES: &[(&str, Option<RoleName>)] = &[
    ("Started", Some(RoleName::Started)),
    ("promoted", Some(RoleName::Promoted)),
    ("MASTER", Some(RoleName::Promoted)),
    ("Unpromoted", Some(RoleName::Unpromoted)),
    ("slave", Some(RoleName::Unpromoted)),
    ("stopped", Some(RoleName::Stopped)),
    ("start", None),
];

#[test]
fn words_of_a_role(rt: HostRuntime) {
    for (text, want) in ROLES {
        assert_row(&rt, role_of(text.as_bytes()) == *want, text);
    }
}

#[test]
fn words_of_an_order(rt: HostRuntime) {
    assert!(rt; kind_of(b"mandatory") == Some(KindWord::Mandatory));
    assert!(rt; kind_of(b"OPTIONAL") == Some(KindWord::Optional));
    assert!(rt; kind_of(b"Serialize") == Some(KindWord::Serialize));
    assert!(rt; kind_of(b"Serial").is_none());
    assert!(rt; action_of(b"promote") == Some(ActionWord::Promote));
    assert!(rt; action_of(b"Start").is_none());
}
