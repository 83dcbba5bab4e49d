//! What the words share that say something of each input that is read.

ghost use Rattle.std.specs.Prelude.{◌≡◌, ◌≤◌, ◌<◌, ◌^◌, ℕ, List, IfOk, length};
ghost use Rattle.cluster_types.specs.Journals.{moment_of};
ghost use Rattle.cluster_types.specs.Safety.{IsAtRest};
ghost use Rattle.cluster_types.specs.Valid.{IsValid};
ghost use Rattle.input_reading.specs.declared.input.cause.InputCause.{InputCause as CauseOf};
ghost use Rattle.input_reading.specs.declared.input.reading.Input.{Input as InputOf};
ghost use Rattle.input_reading.specs.Causes.{refusal_text};
ghost use Rattle.input_reading.specs.Results.{most_results};
ghost use Rattle.sim_core.specs.Outputs.{IsOutput};

use crate::input_word::InputWord;
use crate::status::Status;
use faults::NoMemory;
use input_reading::{Input, InputCause, InputFault, read_input};
use std::alloc::Global;
use trace_text::push_number;

/// A word that says something of what an input says.
pub(crate) trait TextWord {
    /// An input that says this gets this text.
    ghost says: { Self → InputOf → List ℕ → Type 0 };

    /// The text that an input gets. The only error is out of memory.
    fn text(&self, alloc: Global, input: Input) -> Result<Vec<u8>, NoMemory>
        requires valid { IsValid input.head.cluster }
        requires at_rest { IsAtRest input.head.journal.events }
        requires moment { moment_of input.head.journal.events < 2 ^ 40 }
        requires few { length input.results ≤ most_results }
        ensures { IfOk result (λ text. says self.now input text.items) };
}

/// `refused LINE CAUSE`.
pub(crate) fn refusal_text(alloc: Global, line: u32, cause: InputCause) -> Result<Vec<u8>, NoMemory>
    ensures { IfOk result (λ text. text.items ≡ refusal_text line cause) }
{
    let mut text = Vec::from_slice(alloc, b"refused ")?;
    push_number(&mut text, line)?;
    text.extend_from_slice(b" ")?;
    text.extend_from_slice(cause.name().as_bytes())?;
    text.extend_from_slice(b"\n")?;
    Ok(text)
}

/// The word over inputs as they are: one that can't be read is refused.
#[derive(Drop)]
pub(crate) struct Reading<T>(pub T);

impl<T: TextWord> InputWord for Reading<T> {
    ghost gets = { λ word. IsOutput (T.says word.0) };

    fn answer(&self, alloc: Global, input: Vec<u8>) -> Result<(Status, Vec<u8>), NoMemory> {
        match read_input(alloc, input) {
            Ok(whole) => Ok((Status::Done, self.0.text(alloc, whole)?)),
            Err(InputFault::At { line, cause }) => {
                Ok((Status::Refused, refusal_text(alloc, line, cause)?))
            }
            Err(InputFault::NoMemory) => Err(NoMemory),
        }
    }
}
