//! Statements as they were written, before the actions that an order leaves out are known.

use crate::{ActionWord, Form, KindWord};
use crm_lex::Name;
use listed::Listed;

/// One resource of an order, and its action where one was written.
#[derive(Drop)]
pub struct StepDraft {
    pub resource: Name,
    pub action: Option<ActionWord>,
}

/// An order as it was written.
#[derive(Drop)]
pub struct OrderDraft {
    pub id: Name,
    pub kind: KindWord,
    pub steps: Listed<StepDraft>,
    pub symmetrical: bool,
}

/// What a statement says, as far as its own line tells.
#[derive(Drop)]
pub enum Draft {
    Whole(Form),
    Order(OrderDraft),
}

/// A statement, as far as its own line tells.
#[derive(Drop)]
pub struct DraftStatement {
    pub line: u32,
    pub draft: Draft,
}
