//! A writer of the lines of a run.

ghost use Rattle.std.specs.Prelude.{◌≡◌, ◌≤◌, [], length, IsErr};
ghost use Rattle.cluster_io.specs.Streams.{Bears};
ghost use Rattle.cluster_types.specs.declared.run.RunLine.TheVariants as told;
ghost use Rattle.cluster_types.specs.Texts as texts;
ghost use Rattle.cluster_types.specs.Valid.{IsValid, KeepsLimits};
ghost use Rattle.graph_exec.specs.WatcherLines.{ReasonsHaveNames, plan_lines};
ghost use Rattle.live_run.specs.LineCauses.{line_refusal_text};
ghost use Rattle.live_run.specs.HeldAndWritten.{IsSameSink, OffersHeld, OffersLast, Puts, PutsLast, most_held};
ghost use Rattle.live_run.specs.Inner.WriteResults.{OffersBehind, PutsBehind, PutsLine, PutsLines};
ghost use Rattle.trace_text.specs.RunLines.{HasNamedRule, HasShortNames, lent_line};

use crate::held_text::HeldText;
use crate::line_stop::LineCause;
use cluster_io::{Sink, WriteFault, write_text};
use cluster_types::{Cluster, Placed};
use trace_text::{
    LineBuf, RunLineRef, TargetLines, valid_clusters_have_short_names, write_line, write_refusal,
};

/// Writes the lines of a run, and stops where the sink fails. Whole lines are held back, and leave by one `write_text`: when
/// the next one doesn't fit, before the source of answers may keep the run waiting, and at the end. It takes no memory.
/// Rule of this project.
#[derive(Drop)]
pub struct LineWriter<'c, 's, W: Sink> {
    cluster: &'c Cluster,
    sink: &'s mut W,
    held: &'s mut HeldText,
    /// The last line that was put.
    buf: LineBuf,
    ghost limits: { KeepsLimits cluster.now },
    ghost names: { HasShortNames cluster.now },
}

/// All that is held back leaves, by one `write_text`.
fn flush<W: Sink>(sink: &mut W, held: &mut HeldText) -> Result<(), WriteFault>
    ensures text { Puts result held.old (W.written sink.old) (W.written sink.new) }
    ensures whole { OffersHeld held.old (W.offered sink.old) (W.offered sink.new) }
    ensures few { length held.old ≤ most_held }
    ensures held { held.new ≡ [] }
    ensures bears { Bears W.counts_only_failures (IsErr result) (W.faults sink.old) (W.faults sink.new) }
{
    let done = write_text(sink, held.as_slice());
    held.clear();
    done
}

/// Holds back a line. Where it doesn't fit, what was held back leaves before.
fn push<W: Sink>(sink: &mut W, held: &mut HeldText, line: &[u8]) -> Result<(), WriteFault>
    requires { length line.now ≤ 1024 }
    ensures text { PutsBehind result line.now held.old held.new (W.written sink.old) (W.written sink.new) }
    ensures whole { OffersBehind result line.now held.old held.new (W.offered sink.old) (W.offered sink.new) }
    ensures none_held { IsErr result → held.new ≡ [] }
    ensures bears { Bears W.counts_only_failures (IsErr result) (W.faults sink.old) (W.faults sink.new) }
{
    if held.has_room(line.len()) {
        held.add(line);
        return Ok(());
    }
    flush(sink, held)?;
    held.add(line);
    Ok(())
}

impl<'c, 's, W: Sink> LineWriter<'c, 's, W> {
    ghost use Rattle.live_run.specs.LineWriters.{writer_held, writer_cluster, writer_loan, writer_view, sink_of};

    /// A writer that writes to the sink, by the names of a valid cluster. It is lent the memory for what
    /// is held back, which is nothing yet.
    pub fn new(
        cluster: &'c Cluster,
        sink: &'s mut W,
        held: &'s mut HeldText,
    ) -> LineWriter<'c, 's, W>
        requires valid { IsValid cluster.now }
        requires empty { held.old ≡ [] }
        ensures cluster { writer_cluster result ≡ cluster.now }
        ensures held { writer_held result ≡ [] }
        ensures sink { sink_of result ≡ sink.old }
        ensures same_sink { writer_loan result ≡ sink.entry.ghost_name }
    {
        valid_clusters_have_short_names();
        LineWriter {
            cluster,
            sink,
            held,
            buf: LineBuf::new(),
        }
    }

    /// Holds back the line of a run.
    pub(crate) fn put(&mut self, line: &RunLineRef<'_>) -> Result<(), WriteFault>
        requires { HasNamedRule line.now }
        ensures cluster { writer_cluster self.new ≡ writer_cluster self.old }
        ensures line { PutsLine W.counts_only_failures (writer_view W.written W.faults self.old) (writer_view W.written W.faults self.new) result (lent_line line.now) }
        ensures whole { OffersBehind result (texts.run_line (writer_cluster self.old) (lent_line line.now)) (writer_held self.old) (writer_held self.new)
            (W.offered (sink_of self.old)) (W.offered (sink_of self.new)) }
        ensures bears { Bears W.counts_only_failures (IsErr result) (W.faults (sink_of self.old)) (W.faults (sink_of self.new)) }
    {
        write_line(self.cluster, line, &mut self.buf);
        push(self.sink, self.held, self.buf.as_slice())
    }

    /// Holds back where everything goes by the plan of the transition of this number, line by line.
    pub(crate) fn put_plan(&mut self, transition: u32, placed: &Placed) -> Result<(), WriteFault>
        requires { ReasonsHaveNames placed.now }
        ensures cluster { writer_cluster self.new ≡ writer_cluster self.old }
        ensures lines { PutsLines W.counts_only_failures (writer_view W.written W.faults self.old) (writer_view W.written W.faults self.new) result
            (plan_lines (writer_cluster self.old) transition placed.now) }
        ensures bears { Bears W.counts_only_failures (IsErr result) (W.faults (sink_of self.old)) (W.faults (sink_of self.new)) }
    {
        let mut lines = TargetLines::new(self.cluster, placed);
        self.put(&RunLineRef::Transition(transition))?;
        while let Some(line) = lines.next() {
            self.put(&line)?;
        }
        Ok(())
    }

    /// All that is held back leaves: the run has no more lines, or may have to wait for an answer.
    pub fn finish(&mut self) -> Result<(), WriteFault>
        ensures cluster { writer_cluster self.new ≡ writer_cluster self.old }
        ensures text { Puts result (writer_held self.old) (W.written (sink_of self.old)) (W.written (sink_of self.new)) }
        ensures whole { OffersHeld (writer_held self.old) (W.offered (sink_of self.old)) (W.offered (sink_of self.new)) }
        ensures few { length (writer_held self.old) ≤ most_held }
        ensures held { writer_held self.new ≡ [] }
        ensures bears { Bears W.counts_only_failures (IsErr result) (W.faults (sink_of self.old)) (W.faults (sink_of self.new)) }
        ensures same_sink { IsSameSink (writer_loan self.old) (writer_loan self.new) }
    {
        flush(self.sink, self.held)
    }

    /// Writes `unexpected LINE` behind all that is held back: the last line of a run that is cut by an answer at this line
    /// which doesn't apply.
    pub fn unexpected(&mut self, line: u32) -> Result<(), WriteFault>
        ensures text { PutsLast result (texts.run_line (writer_cluster self.old) (told.Unexpected line)) (writer_held self.old)
            (W.written (sink_of self.old)) (W.written (sink_of self.new)) }
        ensures whole { OffersLast result (texts.run_line (writer_cluster self.old) (told.Unexpected line)) (writer_held self.old)
            (W.offered (sink_of self.old)) (W.offered (sink_of self.new)) }
        ensures held { writer_held self.new ≡ [] }
        ensures bears { Bears W.counts_only_failures (IsErr result) (W.faults (sink_of self.old)) (W.faults (sink_of self.new)) }
        ensures same_sink { IsSameSink (writer_loan self.old) (writer_loan self.new) }
    {
        write_line(self.cluster, &RunLineRef::Unexpected(line), &mut self.buf);
        push(self.sink, self.held, self.buf.as_slice())?;
        self.finish()
    }

    /// Writes `refused LINE CAUSE` behind all that is held back: the last line of a run that asks for a line which isn't read.
    pub fn refused(&mut self, line: u32, cause: LineCause) -> Result<(), WriteFault>
        ensures text { PutsLast result (line_refusal_text line cause) (writer_held self.old) (W.written (sink_of self.old)) (W.written (sink_of self.new)) }
        ensures whole { OffersLast result (line_refusal_text line cause) (writer_held self.old) (W.offered (sink_of self.old)) (W.offered (sink_of self.new)) }
        ensures held { writer_held self.new ≡ [] }
        ensures bears { Bears W.counts_only_failures (IsErr result) (W.faults (sink_of self.old)) (W.faults (sink_of self.new)) }
        ensures same_sink { IsSameSink (writer_loan self.old) (writer_loan self.new) }
    {
        write_refusal(line, cause.name(), &mut self.buf);
        push(self.sink, self.held, self.buf.as_slice())?;
        self.finish()
    }
}
