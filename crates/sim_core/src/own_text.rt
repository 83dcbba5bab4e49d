//! What the words that write a text of the program's own share.

ghost use Rattle.std.specs.Prelude.{◌≡◌, ℕ, false, Option, List};
ghost use Rattle.cluster_io.specs.Streams.{Bears};
ghost use Rattle.sim_core.specs.Answers.{MayAnswer, SaysOf};
ghost use Rattle.sim_core.specs.OwnText.{IsOwnText};
ghost use Rattle.sim_core.specs.Commands.{nothing};

use crate::status::Status;
use cluster_io::{Sink, write_text};

/// Writes a text of the program's own.
pub(crate) fn tell<W: Sink>(out: &mut W, text: &str) -> Status
    ensures says { (input : List ℕ) (left : Option (List ℕ))
        → SaysOf nothing (λ _. IsOwnText text.now) input left (W.written out.old) (W.written out.new) result }
    ensures status { MayAnswer false nothing (λ _. IsOwnText text.now) result }
    ensures bears { Bears W.counts_only_failures (result ≡ Status.WriteFault) (W.faults out.old) (W.faults out.new) }
{
    match write_text(out, text.as_bytes()) {
        Ok(()) => Status::Done,
        Err(_) => Status::WriteFault,
    }
}
