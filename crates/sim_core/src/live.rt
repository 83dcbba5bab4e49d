//! The word `replay`: the head of the input is read, and then the run is written while its result lines are read.

ghost use Rattle.std.specs.Prelude.{◌≡◌, ◌<◌, ◌^◌, ℕ, List, [], Option, true, false, IfSome};
ghost use Rattle.cluster_io.specs.LineReaders.{loan_of, reading_of, source_of};
ghost use Rattle.cluster_io.specs.Streams.{Bears};
ghost use Rattle.cluster_types.specs.Journals.{moment_of};
ghost use Rattle.cluster_types.specs.Safety.{IsAtRest};
ghost use Rattle.cluster_types.specs.Valid.{IsValid};
ghost use Rattle.live_run.specs.Heads.{CanGoOn};
ghost use Rattle.live_run.specs.RunReached.{ReachesEnd};
ghost use Rattle.sim_core.specs.Answers.{MayAnswer};
ghost use Rattle.sim_core.specs.LiveAnswers.{SaysLive};
ghost use Rattle.sim_core.specs.Inner.LiveSteps.{StopsBy, WritesFault, status_of};
ghost use Rattle.sim_core.specs.Replay.{IsReplayOutput};
ghost use Rattle.sim_core.specs.Commands.{live};

use crate::beginning::{Beginning, begin};
use crate::status::Status;
use crate::text_word::refusal_text;
use cluster_io::{HeldLines, LineReader, Sink, Source, write_text};
use cluster_types::{Journal, moment_of};
use crm_lex::WordBuf;
use input_reading::{Head, InputCause, MOST_BYTES};
use live_run::{HeadStop, LineOutcomes, LiveEnd, run_live};
use names::Names;
use std::alloc::Global;

/// The most bytes that a logical line may have, without its line ends: 1 MiB.
const LONGEST_LINE: usize = 1_048_576;

/// Writes the fault of a head.
fn refuse<W: Sink>(alloc: Global, line: u32, cause: InputCause, out: &mut W) -> Status
    ensures writes { WritesFault line cause (W.written out.old) (W.written out.new) result }
    ensures bears { Bears W.counts_only_failures (result ≡ Status.WriteFault) (W.faults out.old) (W.faults out.new) }
{
    let Ok(text) = refusal_text(alloc, line, cause) else {
        return Status::NoMemory;
    };
    match write_text(out, &text) {
        Ok(()) => Status::Refused,
        Err(_) => Status::WriteFault,
    }
}

/// Ends the word where there is no head that says something.
fn stop<W: Sink>(alloc: Global, end: HeadStop, out: &mut W) -> Status
    ensures says { (input : List ℕ) (left : Option (List ℕ)) → StopsBy input left end → SaysLive input left (W.written out.old) (W.written out.new) result }
    ensures status { MayAnswer true live IsReplayOutput result }
    ensures read_cause { result ≡ Status.ReadFault → end ≡ HeadStop.ReadFault }
    ensures read_fault { end ≡ HeadStop.ReadFault → result ≡ Status.ReadFault }
    ensures bears { Bears W.counts_only_failures (result ≡ Status.WriteFault) (W.faults out.old) (W.faults out.new) }
{
    match end {
        HeadStop::Refused { line, cause } => refuse(alloc, line, cause, out),
        HeadStop::TooLarge => Status::TooLarge,
        HeadStop::ReadFault => Status::ReadFault,
        HeadStop::NoMemory => Status::NoMemory,
    }
}

fn status_of(end: LiveEnd) -> Status
    ensures { result ≡ status_of end }
{
    match end {
        LiveEnd::Done => Status::Done,
        LiveEnd::Unexpected => Status::Unexpected,
        LiveEnd::Refused => Status::Refused,
        LiveEnd::TooLarge => Status::TooLarge,
        LiveEnd::ReadFault => Status::ReadFault,
        LiveEnd::WriteFault => Status::WriteFault,
        LiveEnd::NoMemory => Status::NoMemory,
    }
}

/// Carries out the run that follows from a head, over the result lines that the reader gives next. The source comes back as it is then.
fn run_behind<'s, S: Source, W: Sink>(
    alloc: Global,
    names: &Names<'_>,
    journal: Journal,
    next: u64,
    reader: LineReader<'s, S>,
    words: WordBuf,
    out: &mut W,
) -> (LiveEnd, &'s mut S)
    requires valid { IsValid names.now }
    requires at_rest { IsAtRest journal.events }
    requires moment { moment_of journal.events < 2 ^ 40 }
    requires next { next ≡ (reading_of reader).next }
    requires reader { CanGoOn (reading_of reader) }
    ensures reaches { IfSome (S.left (source_of reader.entry)) (λ left. ReachesEnd names.now journal (reading_of reader.entry) left
        (S.left result.1.now) (W.written out.old) (W.written out.new) result.0) }
    ensures at_end { result.0 ≡ LiveEnd.Done → IfSome (S.left result.1.now) (λ left. left ≡ []) }
    ensures reads { Bears S.counts_only_failures (result.0 ≡ LiveEnd.ReadFault) (S.faults (source_of reader.entry)) (S.faults result.1.now) }
    ensures writes { Bears W.counts_only_failures (result.0 ≡ LiveEnd.WriteFault) (W.faults out.old) (W.faults out.new) }
    ensures same_source { result.1.ghost_name ≡ loan_of reader.entry }
{
    let moment = moment_of(journal.events.as_slice()) as u64;
    let mut answers = LineOutcomes::over(names, moment, next, reader, words);
    let end = run_live(alloc, names.cluster(), journal, &mut answers, out);
    (end, answers.into_source())
}

/// Reads the head of the input, and carries out the run that follows from it, over the result lines behind it. It asks for a
/// source that hasn't ended.
pub(crate) fn replay<S: Source, W: Sink>(alloc: Global, src: &mut S, out: &mut W) -> Status
    requires { S.ended src.old ≡ false }
    ensures says { IfSome (S.left src.old) (λ input. SaysLive input (S.left src.new) (W.written out.old) (W.written out.new) result) }
    ensures status { MayAnswer true live IsReplayOutput result }
    ensures reads { Bears S.counts_only_failures (result ≡ Status.ReadFault) (S.faults src.old) (S.faults src.new) }
    ensures writes { Bears W.counts_only_failures (result ≡ Status.WriteFault) (W.faults out.old) (W.faults out.new) }
{
    let Ok(held) = HeldLines::new(alloc, MOST_BYTES, LONGEST_LINE) else {
        return Status::NoMemory;
    };
    let Ok(mut words) = WordBuf::new(alloc) else {
        return Status::NoMemory;
    };
    let mut reader = LineReader::over(src, held);
    let Beginning { head, next } = match begin(alloc, &mut reader, &mut words) {
        Ok(beginning) => beginning,
        Err(end) => {
            let _src = reader.into_source();
            return stop(alloc, end, out);
        }
    };
    let Head {
        crm: _,
        cluster,
        journal,
    } = head;
    let names = match Names::new(alloc, &cluster) {
        Ok(names) => names,
        Err(_) => {
            let _src = reader.into_source();
            return Status::NoMemory;
        }
    };
    let (end, _src) = run_behind(alloc, &names, journal, next, reader, words, out);
    status_of(end)
}
