ghost use Rattle.std.specs.Prelude.{◌≡◌};
ghost use Rattle.input_reading.specs.Causes.{result_name, status_name};

use crate::WordCause;
use crate::words::word_cause::word_name;
use faults::Fault;
use thiserror::Error;

/// Why a status isn't read.
#[derive(Clone, Copy, Debug, PartialEq, Eq, Error)]
pub enum StatusCause {
    /// The words of the line have no form of a status.
    #[error(transparent)]
    Form(WordCause),
    /// It was said before. This comes after the causes of the words.
    #[error("A second status line says what may be said once: `now`, `quorum`, a node's state, a promotion score of \
        a resource on a node.")]
    Repeated,
}

/// The name of a cause, as it is printed: that of its variant, or of the cause in the words.
pub(crate) fn status_name(cause: StatusCause) -> &'static str
    ensures { result.now ≡ status_name cause }
{
    match cause {
        StatusCause::Form(cause) => word_name(cause),
        StatusCause::Repeated => "Repeated",
    }
}

/// Why there is no journal: the first faulty line of the status with its cause, or out of memory.
pub type StatusFault = Fault<StatusCause>;

/// Why a result line isn't read.
#[derive(Clone, Copy, Debug, PartialEq, Eq, Error)]
pub enum ResultCause {
    /// The words of the line have no form of a result line.
    #[error(transparent)]
    Form(WordCause),
    /// There are 10,000 result lines before it. This comes before the causes of the words.
    #[error("This is the 10,001st result line.")]
    TooManyResults,
}

/// The name of a cause, as it is printed: that of its variant, or of the cause in the words.
pub(crate) fn result_name(cause: ResultCause) -> &'static str
    ensures { result.now ≡ result_name cause }
{
    match cause {
        ResultCause::Form(cause) => word_name(cause),
        ResultCause::TooManyResults => "TooManyResults",
    }
}

/// Why there are no results: the first faulty result line with its cause, or out of memory.
pub type ResultFault = Fault<ResultCause>;
