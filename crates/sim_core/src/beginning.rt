//! The head of the input of `replay`, as it comes.

ghost use Rattle.std.specs.Prelude.{◌≡◌, ◌<◌, ◌^◌, IfErr, IfOk, IfSome, IsErrOf};
ghost use Rattle.cluster_io.specs.LineReaders.{loan_of, reading_of, source_of};
ghost use Rattle.cluster_io.specs.Streams.{Bears};
ghost use Rattle.cluster_types.specs.Journals.{moment_of};
ghost use Rattle.cluster_types.specs.Safety.{IsAtRest};
ghost use Rattle.cluster_types.specs.Valid.{IsValid};
ghost use Rattle.live_run.specs.Heads.{CanGoOn};
ghost use Rattle.sim_core.specs.Inner.LiveSteps.{IsBehind, StopsBy, fresh};

use cluster_io::{LineReader, Source};
use crm_lex::WordBuf;
use input_reading::{Head, InputFault, read_lone_head};
use live_run::{HeadStop, HeadText, read_head};
use std::alloc::Global;

/// The head of an input.
#[derive(Drop)]
pub(crate) struct Beginning {
    pub head: Head,
    /// The number of the line behind it, counted from 1.
    pub next: u64,
}

/// Reads the head of an input from a reader that was just made, and what it says.
pub(crate) fn begin<S: Source>(
    alloc: Global,
    reader: &mut LineReader<'_, S>,
    words: &mut WordBuf,
) -> Result<Beginning, HeadStop>
    requires { reading_of reader.old ≡ fresh }
    ensures begun { IfSome (S.left (source_of reader.old)) (λ input.
        IfOk result (λ begun. IsBehind input begun.head (reading_of reader.new) (S.left (source_of reader.new)))) }
    ensures stopped { IfSome (S.left (source_of reader.old)) (λ input. IfErr result (StopsBy input (S.left (source_of reader.new)))) }
    ensures place { IfOk result (λ begun. (CanGoOn (reading_of reader.new)) × (begun.next ≡ (reading_of reader.new).next)) }
    ensures valid { IfOk result (λ begun. IsValid begun.head.cluster) }
    ensures at_rest { IfOk result (λ begun. IsAtRest begun.head.journal.events) }
    ensures moment { IfOk result (λ begun. moment_of begun.head.journal.events < 2 ^ 40) }

    ensures bears { Bears S.counts_only_failures (IsErrOf result HeadStop.ReadFault) (S.faults (source_of reader.old)) (S.faults (source_of reader.new)) }
    ensures same_source { loan_of reader.new ≡ loan_of reader.old }
{
    let HeadText { text, next } = match read_head(alloc, reader, words) {
        Ok(head) => head,
        Err(stop) => return Err(stop),
    };
    match read_lone_head(alloc, text) {
        Ok(head) => Ok(Beginning { head, next }),
        Err(InputFault::At { line, cause }) => Err(HeadStop::Refused { line, cause }),
        Err(InputFault::NoMemory) => Err(HeadStop::NoMemory),
    }
}
