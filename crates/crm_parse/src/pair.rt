use crm_lex::Name;
use listed::Listed;

/// A key and its value, as `priority=5`. The key isn't empty and has no `=`.
#[derive(PartialEq, Eq, Drop)]
pub struct Kv {
    pub key: Name,
    pub value: Name,
}

/// An operation of a primitive: its name, and its pairs in order (crmsh manual, `op`).
#[derive(PartialEq, Eq, Drop)]
pub struct Operation {
    pub name: Name,
    pub pairs: Listed<Kv>,
}
