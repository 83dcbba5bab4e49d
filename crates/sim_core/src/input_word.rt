//! What the words that read a whole input share: it is read to its end, and then the text is written that the word gives it.

ghost use Rattle.std.specs.Prelude.{◌≡◌, ℕ, ◌+◌, ◌≤◌, ◌<◌, true, false, List, length, IfOk, IfSome};
ghost use Rattle.cluster_io.specs.Streams.{Bears, TakesAtMost, TakesCount};
ghost use Rattle.sim_core.specs.declared.status.Status.{Status as StatusOf};
ghost use Rattle.sim_core.specs.Answers.{IsEarly, MayAnswer, SaysOf};
ghost use Rattle.sim_core.specs.Inner.Outcomes.{IsOutcome};
ghost use Rattle.input_reading.specs.Reading.{most_bytes};
ghost use Rattle.sim_core.specs.Commands.{whole_input};

use crate::status::Status;
use cluster_io::{ReadEnd, Sink, Source, read_all, write_text};
use faults::NoMemory;
use input_reading::MOST_BYTES;
use std::alloc::Global;

/// A word that gives an input a status and a text.
pub(crate) trait InputWord {
    /// An input of this content gets this status and this text.
    ghost gets: { Self → List ℕ → StatusOf → List ℕ → Type 0 };

    /// The status and the text that an input gets. The only error is out of memory.
    fn answer(&self, alloc: Global, input: Vec<u8>) -> Result<(Status, Vec<u8>), NoMemory>
        requires { length input.items ≤ most_bytes }
        ensures output { IfOk result (λ answer. gets self.now input.items answer.0 answer.1.items) }
        ensures status { IfOk result (λ answer. IsOutcome answer.0) };
}

/// Reads the whole input, and writes the text that it gets with this word. It asks for a source that hasn't ended.
pub(crate) fn with_input<I: InputWord, S: Source, W: Sink>(
    alloc: Global,
    word: &I,
    src: &mut S,
    out: &mut W,
) -> Status
    requires { S.ended src.old ≡ false }
    ensures says { IfSome (S.left src.old)
        (λ input. SaysOf whole_input (I.gets word.now) input (S.left src.new) (W.written out.old) (W.written out.new) result) }
    ensures status { MayAnswer true whole_input (I.gets word.now) result }
    ensures early { IsEarly result → out.new ≡ out.old }
    ensures taken { TakesAtMost (most_bytes + 1) (S.left src.old) (S.left src.new) }
    ensures too_large { result ≡ Status.TooLarge
        → TakesCount (most_bytes + 1) (S.left src.old) (S.left src.new) }
    ensures nothing_of_too_large { IfSome (S.left src.old)
        (λ input. most_bytes < length input → out.new ≡ out.old) }

    ensures reads { Bears S.counts_only_failures (result ≡ Status.ReadFault) (S.faults src.old) (S.faults src.new) }
    ensures writes { Bears W.counts_only_failures (result ≡ Status.WriteFault) (W.faults out.old) (W.faults out.new) }
{
    let input = match read_all(alloc, src, MOST_BYTES) {
        Ok(input) => input,
        Err(ReadEnd::Fault) => return Status::ReadFault,
        Err(ReadEnd::TooLarge) => return Status::TooLarge,
        Err(ReadEnd::NoMemory) => return Status::NoMemory,
    };
    let Ok((status, text)) = word.answer(alloc, input) else {
        return Status::NoMemory;
    };
    match write_text(out, &text) {
        Ok(()) => status,
        Err(_) => Status::WriteFault,
    }
}
