//! Why no more answers come of lines.

ghost use Rattle.std.specs.Prelude.{◌≡◌};
ghost use Rattle.live_run.specs.LineCauses.{line_cause_name};

use crm_lex::LexCause;
use input_reading::{InputCause, ResultCause};
use thiserror::Error;

/// Why a line isn't read as an answer.
#[derive(Clone, Copy, Debug, PartialEq, Eq, Error)]
pub enum LineCause {
    /// It can't be cut into words.
    #[error(transparent)]
    Words(LexCause),
    /// Its words are no answer.
    #[error(transparent)]
    Form(ResultCause),
}

/// Why a source of answers that are read from lines has failed.
#[derive(Clone, Copy, Debug, PartialEq, Eq)]
pub enum LineStop {
    /// The source of bytes failed, and has counted it. A later question goes on from there.
    ReadFault,
    /// The next line goes past the limit of bytes. Each later question fails in the same way.
    TooLarge,
    /// A line is refused. Each later question fails in the same way.
    Refused {
        /// The physical line that is at fault, counted from 1.
        line: u32,
        cause: LineCause,
    },
}

impl LineCause {
    /// The name of the cause, as it stands in a line `refused LINE CAUSE`.
    pub fn name(self) -> &'static str
        ensures { result.now ≡ line_cause_name self }
    {
        match self {
            LineCause::Words(cause) => InputCause::Words(cause).name(),
            LineCause::Form(cause) => InputCause::Results(cause).name(),
        }
    }
}
