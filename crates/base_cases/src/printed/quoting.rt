use super::{Row, assert_printed};

/// A word or a value is quoted where it is empty, begins with `#`, or has a blank, a quote or a backslash, and nowhere else.
const QUOTED: &[Row] = &[
    ("user ''", "user \"\"\n"),
    ("user '#a'", "user \"#a\"\n"),
    ("user a#b", "user a#b\n"),
    ("user 'a b'", "user \"a b\"\n"),
    (
        "primitive p Dummy params x=\"a b\"",
        "primitive p ocf:heartbeat:Dummy params x=\"a b\"\n",
    ),
    ("user \"a\tb\"", "user \"a\tb\"\n"),
    ("user \"it's\"", "user \"it's\"\n"),
    ("user 'a\"b'", "user \"a\\\"b\"\n"),
    ("user a\\b", "user \"a\\\\b\"\n"),
    ("user \"a\\\\b\" \"\\\"\"", "user \"a\\\\b\" \"\\\"\"\n"),
    ("user %a = é", "user %a = é\n"),
    (
        "property 'a b'='c d' e=",
        "property \"a b\"=\"c d\" e=\"\"\n",
    ),
    ("property a=#b \"#c\"=d=e", "property a=\"#b\" \"#c\"=d=e\n"),
    (
        "primitive p Dummy description='a \"b\"'",
        "primitive p ocf:heartbeat:Dummy description=\"a \\\"b\\\"\"\n",
    ),
    ("primitive p 'a b:c#\\'", "primitive p \"a b:c#\\\\\"\n"),
];

#[test]
fn words_are_quoted_where_needed(rt: HostRuntime) {
    assert_printed(&rt, rt.alloc(), QUOTED);
}
