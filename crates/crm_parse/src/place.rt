//! Where a pair stands.

ghost use Rattle.std.specs.Prelude.{◌≡◌};
ghost use Rattle.crm_parse.specs.Operations.{op_name};

use crm_lex::is;

/// An operation, as far as its name has effect.
#[derive(Clone, Copy)]
pub enum OpName {
    Start,
    Stop,
    Promote,
    Demote,
    Monitor,
    Other,
}

impl OpName {
    /// The operation of this name; names are in lower case.
    pub(crate) fn from_word(word: &[u8]) -> OpName
        ensures { result ≡ op_name word.now }
    {
        if is(word, b"start") {
            OpName::Start
        } else if is(word, b"stop") {
            OpName::Stop
        } else if is(word, b"promote") {
            OpName::Promote
        } else if is(word, b"demote") {
            OpName::Demote
        } else if is(word, b"monitor") {
            OpName::Monitor
        } else {
            OpName::Other
        }
    }
}

/// The place of a pair, which says which keys have effect there.
#[derive(Clone, Copy)]
pub enum Place {
    /// A section without keys of effect.
    Plain,
    NodeAttributes,
    /// A section of a primitive without keys of effect.
    PrimitivePlain,
    PrimitiveMeta,
    /// The meta attributes of a group, and the defaults of resources.
    LeafMeta,
    CloneMeta,
    MsMeta,
    Property,
    OpDefaults,
    Operation(OpName),
}
