//! Why an input is refused.

ghost use Rattle.std.specs.Prelude.{◌≡◌};
ghost use Rattle.input_reading.specs.Causes.{cause_name};

use crate::history_fault::{result_name, status_name};
use crate::words::word_cause::word_name;
use crate::{ResultCause, StatusCause, WordCause};
use cluster_model::{ExpandCause, ModelCause, expand_name, model_name};
use crm_lex::{LexCause, lex_name};
use crm_parse::{ParseCause, parse_name};
use thiserror::Error;

/// Why an input is refused, by the step of reading that finds it.
#[derive(Clone, Copy, Debug, PartialEq, Eq, Error)]
pub enum InputCause {
    /// The words of a line can't be read.
    #[error(transparent)]
    Words(LexCause),
    /// A section line is out of its place, or a line is no statement that can be read.
    #[error(transparent)]
    Statements(ParseCause),
    /// The groups and clones don't stand for leaves.
    #[error(transparent)]
    Leaves(ExpandCause),
    /// The configuration says no cluster.
    #[error(transparent)]
    Cluster(ModelCause),
    /// A line of the status can't be read.
    #[error(transparent)]
    Status(StatusCause),
    /// A result line can't be read.
    #[error(transparent)]
    Results(ResultCause),
    /// A line of a run can't be read.
    #[error(transparent)]
    Run(WordCause),
}

impl InputCause {
    /// The name of the cause, as it stands in a line `refused LINE CAUSE`.
    pub fn name(self) -> &'static str
        ensures { result.now ≡ cause_name self }
    {
        match self {
            InputCause::Words(cause) => lex_name(cause),
            InputCause::Statements(cause) => parse_name(cause),
            InputCause::Leaves(cause) => expand_name(cause),
            InputCause::Cluster(cause) => model_name(cause),
            InputCause::Status(cause) => status_name(cause),
            InputCause::Results(cause) => result_name(cause),
            InputCause::Run(cause) => word_name(cause),
        }
    }
}
