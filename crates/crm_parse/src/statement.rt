use crate::Form;
use listed::Listed;

/// A statement of the configuration.
#[derive(PartialEq, Eq, Drop)]
pub struct Statement {
    /// The physical line, counted from 1, where its logical line begins.
    pub line: u32,
    pub form: Form,
}

/// The statements of a configuration, in the order of the text.
#[derive(PartialEq, Eq, Drop)]
pub struct Crm {
    pub statements: Listed<Statement>,
}
