//! The writer as a watcher.

ghost use Rattle.std.specs.Prelude.{◌≡◌};
ghost use Rattle.live_run.specs.Inner.WriteResults.{heard_of};

use crate::line_writer::LineWriter;
use cluster_io::{Sink, WriteFault};
use cluster_types::{Action, Answer, Placed};
use graph_exec::{Heard, Watcher};
use trace_text::RunLineRef;

/// Whoever writes goes on until a write fails.
fn heard_of(done: Result<(), WriteFault>) -> Heard
    ensures { result ≡ heard_of done }
{
    match done {
        Ok(()) => Heard::Go,
        Err(WriteFault) => Heard::Stop,
    }
}

impl<'c, 's, W: Sink> Watcher for LineWriter<'c, 's, W> {
    ghost use Rattle.std.specs.Prelude.{◌≡◌, []};
    ghost use Rattle.live_run.specs.LineWriters.{writer_held, writer_cluster, sink_of, writer_view};
    ghost use Rattle.live_run.specs.HeldAndWritten.{HasFailedBehind, HasWrittenLines};
    ghost use Rattle.live_run.specs.Inner.SourceFollowedLaws.{lines_itself, lines_later, lines_then};

    ghost is_of = { λ w c. writer_cluster w ≡ c };

    ghost follows = { λ old new lines. HasWrittenLines W.counts_only_failures (writer_view W.written W.faults old) (writer_view W.written W.faults new) lines };

    ghost stopped = { λ old new lines at. HasFailedBehind W.counts_only_failures (writer_view W.written W.faults old) (writer_view W.written W.faults new) lines at };

    ghost quiet = { λ w. writer_held w ≡ [] };

    ghost shown = { λ _ _ _. Unit {0} };

    ghost stops = { λ w. W.faults (sink_of w) };

    fn planned(&mut self, transition: u32, placed: &Placed) -> Heard {
        heard_of(self.put_plan(transition, placed))
    }

    fn begun(&mut self, number: u32, action: Action) -> Heard {
        heard_of(self.put(&RunLineRef::Begin(number, action)))
    }

    fn taken(&mut self, answer: Answer) -> Heard {
        heard_of(self.put(&RunLineRef::Taken(answer)))
    }

    fn closed(&mut self, transition: u32, complete: bool) -> Heard {
        let line = if complete {
            RunLineRef::Complete(transition)
        } else {
            RunLineRef::Aborted(transition)
        };
        heard_of(self.put(&line))
    }

    fn waits(&mut self) -> Heard {
        heard_of(self.finish())
    }

    ghost from_itself = { λ w. lines_itself W.counts_only_failures (writer_view W.written W.faults w) };

    ghost from_before = { λ first middle last. lines_then W.counts_only_failures (writer_view W.written W.faults first)
        (writer_view W.written W.faults middle) (writer_view W.written W.faults last) };

    ghost stopped_later = { λ first middle last lines more at wrote failed. lines_later W.counts_only_failures (writer_view W.written W.faults first)
        (writer_view W.written W.faults middle) (writer_view W.written W.faults last) lines more wrote at failed };
}
