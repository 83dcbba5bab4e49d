//! A run over result lines as they come.

ghost use Rattle.std.specs.Prelude.{◌≡◌, ◌≢◌, ◌↔◌, ◌<◌, ◌^◌, [], Some, IfSome, IsErr};
ghost use Rattle.cluster_io.specs.Streams.{Bears, Rose};
ghost use Rattle.cluster_types.specs.Journals.{moment_of};
ghost use Rattle.cluster_types.specs.Safety.{IsAtRest};
ghost use Rattle.cluster_types.specs.Valid.{IsValid};
ghost use Rattle.live_run.specs.Courses.{starting, stop_of};
ghost use Rattle.live_run.specs.LineSources.{outcomes_loan, outcomes_source, state_of};
ghost use Rattle.live_run.specs.declared.live_end.LiveEnd.{LiveEnd as LiveEndOf};
ghost use Rattle.live_run.specs.Ends.{IsDueEnd};
ghost use Rattle.live_run.specs.declared.line_stop.LineStop.TheVariants.{ReadFault};
ghost use Rattle.live_run.specs.LineWriters.{writer_held, writer_cluster, writer_loan, sink_of};
ghost use Rattle.live_run.specs.HeldAndWritten.{IsSameSink};
ghost use Rattle.live_run.specs.RunReached.{ReachesEnd, results_behind};
ghost use Rattle.live_run.specs.Inner.RunEnds.{EndsLines, end_as};

use crate::live_end::LiveEnd;
use crate::{HeldText, LineOutcomes, LineStop, LineWriter};
use cluster_io::{Sink, Source, WriteFault};
use cluster_types::{Cluster, Journal};
use graph_exec::{ReplayStop, replay_watched};
use std::alloc::Global;

/// The most transitions of a run: each but the last takes a result line, and at most 10,000 are read.
const MOST_TRANSITIONS: u32 = 10_001;

/// How a run ends whose last text was written, unless the sink failed.
fn end_as(end: LiveEnd, done: Result<(), WriteFault>) -> LiveEnd
    requires no_fault { (end ≢ LiveEnd.ReadFault) × (end ≢ LiveEnd.WriteFault) }
    ensures end { result ≡ end_as end done }
    ensures whole { result ≡ LiveEnd.Done → end ≡ LiveEnd.Done }
    ensures no_read { result ≢ LiveEnd.ReadFault }
    ensures write { (result ≡ LiveEnd.WriteFault) ↔ IsErr done }
{
    match done {
        Ok(()) => end,
        Err(_) => LiveEnd::WriteFault,
    }
}

/// How a run ends when the line that it needs can't be read: the line is refused, goes past the limit of bytes, or the
/// source failed. Where the source failed, nothing is held back.
fn end_of_lines<S: Source, W: Sink>(
    outcomes: &LineOutcomes<'_, '_, S>,
    writer: &mut LineWriter<'_, '_, W>,
) -> LiveEnd
    ensures text { EndsLines (writer_held writer.old) (stop_of (state_of outcomes.now)) result (W.written (sink_of writer.old)) (W.written (sink_of writer.new)) }
    ensures bears { Bears W.counts_only_failures (result ≡ LiveEnd.WriteFault) (W.faults (sink_of writer.old)) (W.faults (sink_of writer.new)) }
    ensures same_sink { IsSameSink (writer_loan writer.old) (writer_loan writer.new) }
{
    match outcomes.stop() {
        Some(LineStop::Refused { line, cause }) => {
            end_as(LiveEnd::Refused, writer.refused(line, cause))
        }
        Some(LineStop::TooLarge) => end_as(LiveEnd::TooLarge, writer.finish()),
        Some(LineStop::ReadFault) | None => LiveEnd::ReadFault,
    }
}

/// Carries the run out with a writer, and says how it ended.
fn run_to_end<S: Source, W: Sink>(
    alloc: Global,
    cluster: &Cluster,
    journal: Journal,
    outcomes: &mut LineOutcomes<'_, '_, S>,
    writer: &mut LineWriter<'_, '_, W>,
) -> LiveEnd
    requires valid { IsValid cluster.now }
    requires at_rest { IsAtRest journal.events }
    requires moment { moment_of journal.events < 2 ^ 40 }
    requires fresh { state_of outcomes.old
        ≡ starting cluster.now (moment_of journal.events) (state_of outcomes.old).lines.reading }
    requires names { writer_cluster writer.old ≡ cluster.now }
    requires empty { writer_held writer.old ≡ [] }
    ensures reaches { IfSome (S.left (outcomes_source outcomes.old)) (λ left. ReachesEnd cluster.now journal (state_of outcomes.old).lines.reading left
        (S.left (outcomes_source outcomes.new)) (W.written (sink_of writer.old)) (W.written (sink_of writer.new)) result) }
    ensures at_end { result ≡ LiveEnd.Done → IfSome (S.left (outcomes_source outcomes.new)) (λ left. left ≡ []) }
    ensures reads { Bears S.counts_only_failures (result ≡ LiveEnd.ReadFault) (S.faults (outcomes_source outcomes.old)) (S.faults (outcomes_source outcomes.new)) }
    ensures writes { Bears W.counts_only_failures (result ≡ LiveEnd.WriteFault) (W.faults (sink_of writer.old)) (W.faults (sink_of writer.new)) }
    ensures same_source { outcomes_loan outcomes.new ≡ outcomes_loan outcomes.old }
    ensures same_sink { IsSameSink (writer_loan writer.old) (writer_loan writer.new) }
{
    // Each arm drops its journal by name: left to the arm's end, that takes the checker twice as long.
    match replay_watched(alloc, cluster, journal, outcomes, writer, MOST_TRANSITIONS) {
        Ok(journal) => {
            drop(journal);
            end_as(LiveEnd::Done, writer.finish())
        }
        Err(ReplayStop::Unexpected(journal, _)) => {
            drop(journal);
            end_as(LiveEnd::Unexpected, writer.unexpected(outcomes.line()))
        }
        Err(ReplayStop::SourceFault(journal)) => {
            drop(journal);
            end_of_lines(outcomes, writer)
        }
        Err(ReplayStop::Stopped(journal)) => {
            drop(journal);
            LiveEnd::WriteFault
        }
        // Each transition but the last takes a result line: so many are never made.
        Err(ReplayStop::Most(_)) => unreachable!(),
        Err(ReplayStop::NoMemory) => end_as(LiveEnd::NoMemory, writer.finish()),
    }
}

/// Carries out the run of a journal of a cluster over the answers that a source reads from lines, and writes its lines.
/// Where an answer doesn't apply, the last line is `unexpected LINE` with the line of the answer; where the line
/// that is asked for isn't read, it is `refused LINE CAUSE`. After a failed write nothing more is read.
///
/// It asks for a valid cluster, for a journal in order with nothing in flight, as a status gives it, for a moment below 2^40
/// seconds, and for a source of this cluster and this moment that wasn't asked yet. Rule of this project.
pub fn run_live<S: Source, W: Sink>(
    alloc: Global,
    cluster: &Cluster,
    journal: Journal,
    outcomes: &mut LineOutcomes<'_, '_, S>,
    out: &mut W,
) -> LiveEnd
    requires valid { IsValid cluster.now }
    requires at_rest { IsAtRest journal.events }
    requires moment { moment_of journal.events < 2 ^ 40 }
    requires fresh { state_of outcomes.old
        ≡ starting cluster.now (moment_of journal.events) (state_of outcomes.old).lines.reading }

    // Where the source of bytes tells what it has left: what each end says of the text, of what was written and of what was read; and which end it is,
    // unless memory, a read or a write failed.
    ensures reaches { IfSome (S.left (outcomes_source outcomes.old)) (λ left. ReachesEnd cluster.now journal (state_of outcomes.old).lines.reading left
        (S.left (outcomes_source outcomes.new)) (W.written out.old) (W.written out.new) result) }
    ensures complete { IfSome (S.left (outcomes_source outcomes.old)) (λ left. ¬ Rose (S.faults (outcomes_source outcomes.old)) (S.faults (outcomes_source outcomes.new))
        → ¬ Rose (W.faults out.old) (W.faults out.new) → result ≢ LiveEnd.NoMemory
        → (due : LiveEndOf) → (result ≡ due) ↔ IsDueEnd cluster.now journal (results_behind cluster.now journal (state_of outcomes.old).lines.reading left) due) }
    ensures at_end { result ≡ LiveEnd.Done → IfSome (S.left (outcomes_source outcomes.new)) (λ left. left ≡ []) }

    // A fault comes only where its count rose, and the first failure ends the call: of a count that rises with failures alone a fault is one failure more, and any
    // other end none.
    ensures reads { Bears S.counts_only_failures (result ≡ LiveEnd.ReadFault) (S.faults (outcomes_source outcomes.old)) (S.faults (outcomes_source outcomes.new)) }
    ensures writes { Bears W.counts_only_failures (result ≡ LiveEnd.WriteFault) (W.faults out.old) (W.faults out.new) }
    ensures same_source { outcomes_loan outcomes.new ≡ outcomes_loan outcomes.old }
{
    let Ok(mut held) = HeldText::new(alloc) else {
        return LiveEnd::NoMemory;
    };
    let mut writer = LineWriter::new(cluster, out, &mut held);
    run_to_end(alloc, cluster, journal, outcomes, &mut writer)
}
