use listed::{Listed, Name};

/// An attribute of a node, as it was written.
#[derive(PartialEq, Eq, Drop)]
pub struct Pair {
    pub name: Name,
    pub value: Name,
}

/// How a node's value has to stand to the value of the test: less, greater, at most, at least, equal, or not equal.
#[derive(Clone, Copy, Debug, PartialEq, Eq)]
pub enum Compare {
    Lt,
    Gt,
    Lte,
    Gte,
    Eq,
    Ne,
}

/// As what two values are compared: as whole numbers where both are and else as words, as whole numbers, or as words.
#[derive(Clone, Copy, Debug, PartialEq, Eq)]
pub enum Kind {
    Auto,
    Number,
    Word,
}

/// One test of a rule. Its moments are seconds since 1970-01-01T00:00:00Z.
#[derive(PartialEq, Eq, Drop)]
pub enum Test {
    /// The node has the attribute, and its value compares so to this one.
    Attribute {
        name: Name,
        compare: Compare,
        kind: Kind,
        value: Name,
    },
    /// The node has the attribute.
    Defined {
        name: Name,
    },
    /// The node doesn't have the attribute.
    NotDefined {
        name: Name,
    },
    /// The moment is earlier.
    Before {
        at: i64,
    },
    /// The moment is later.
    After {
        at: i64,
    },
    /// The moment is neither earlier than the start nor later than the end.
    Within {
        start: i64,
        end: i64,
    },
}

/// Tests that are joined: by "and" where `all` is true, else by "or".
#[derive(PartialEq, Eq, Drop)]
pub struct Rule {
    /// Whether all tests have to pass, and not just one.
    pub all: bool,
    /// The tests, in the order in which they were written.
    pub tests: Listed<Test>,
}
