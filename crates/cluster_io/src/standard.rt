ghost use Rattle.std.specs.Prelude.{◌≡◌, ℕ, true, false, None, ◌<◌, length, take};
ghost use Rattle.std.specs.Io.KnownBytes.{Appends, Consumes, IsAtEnd, Keeps};
ghost use Rattle.cluster_io.specs.Streams.{Bears, Offers, ReadsBytes, Writes, is_end, next_fault};

use crate::attempts::{Attempt, ReaderCalls, WriterCalls};
use crate::{ReadStep, Sink, Source, WriteStep};
use std::io::{Read, Write};

/// How many interrupted calls in turn count as a failure.
const TRIES: u32 = 1000;

/// A reader of std as a source, which tells nothing of the bytes still to come. An interrupted call
/// is made again, until 1,000 were interrupted; then, and at any other error, the source fails.
#[derive(Drop)]
pub struct StdSource<R: Read> {
    calls: ReaderCalls<R>,
    faults: u64,
    ended: bool,
}

impl<R: Read> StdSource<R> {
    ghost use Rattle.cluster_io.specs.Standard.{reader_of, reader_answers, reader_failures, reader_interruptions};

    /// A source that has not failed yet, and hasn't ended. It has made no call of the reader.
    pub fn new(reader: R) -> StdSource<R>
        ensures untold { ⟦<StdSource<R> as Source>⟧.left result ≡ None }
        ensures faults { ⟦<StdSource<R> as Source>⟧.faults result ≡ 0 }
        ensures going { ⟦<StdSource<R> as Source>⟧.ended result ≡ false }
        ensures reader { reader_of result ≡ reader }
        ensures failures { reader_failures result ≡ 0 }
        ensures interruptions { reader_interruptions result ≡ 0 }
        ensures answers { reader_answers result ≡ 0 }
    {
        StdSource {
            calls: ReaderCalls::new(reader),
            faults: 0,
            ended: false,
        }
    }

    /// Counts a fault.
    fn read_failed(&mut self) -> ReadStep
        ensures failed { result ≡ ReadStep.Failed }
        ensures counted { self.new.faults ≡ next_fault self.old.faults }
        ensures calls { self.new.calls ≡ self.old.calls }
        ensures ended { self.new.ended ≡ self.old.ended }
    {
        self.faults = self.faults.saturating_add(1);
        ReadStep::Failed
    }
}

impl<R: Read> Source for StdSource<R> {
    ghost use Rattle.cluster_io.specs.Standard.{Persists, has_source_ended, reader_of, reader_answers, reader_failures, reader_interruptions, source_faults};

    ghost left = { λ _. None };

    ghost faults = { λ s. s.faults };

    ghost counts_only_failures = { true };

    ghost ended = { λ s. s.ended };

    fn read(&mut self, buf: &mut [u8]) -> ReadStep
        requires room { 0 < length buf.old }
        requires going { has_source_ended self.old ≡ false }
        ensures bytes { ReadsBytes None None result buf.new }
        ensures bears { Bears true (result ≡ ReadStep.Failed)
            (source_faults self.old) (source_faults self.new) }
        ensures ended { has_source_ended self.new ≡ is_end result }

        // A failed call of the reader is answered so, and nothing else is but 1,000 interrupted ones.
        // Any other answer is that of the one call that wasn't interrupted.
        ensures calls { Persists (result ≡ ReadStep.Failed)
            (reader_failures self.old) (reader_failures self.new)
            (reader_interruptions self.old) (reader_interruptions self.new)
            (reader_answers self.old) (reader_answers self.new) }

        // Where the reader's own bytes are known, these are they, and the end is theirs.
        ensures given { (n : ℕ) → result ≡ ReadStep.Got n →
            Consumes (R.remaining (reader_of self.old)) (R.remaining (reader_of self.new))
            (take n buf.new) }
        ensures end { result ≡ ReadStep.End → IsAtEnd (R.remaining (reader_of self.new)) }
        ensures kept { result ≡ ReadStep.Failed →
            Keeps (R.remaining (reader_of self.old)) (R.remaining (reader_of self.new)) }
    {
        let mut interrupted = 0;
        while interrupted < TRIES {
            match self.calls.attempt(buf) {
                Attempt::Moved(0) => {
                    self.ended = true;
                    return ReadStep::End;
                }
                Attempt::Moved(count) => return ReadStep::Got(count),
                Attempt::Interrupted => interrupted += 1,
                Attempt::Failed => return self.read_failed(),
            }
        }
        self.read_failed()
    }
}

/// A writer of std as a sink, which tells nothing of the bytes written. An interrupted call is made
/// again, until 1,000 were interrupted; then, at any other error, and where the writer takes 0 bytes,
/// the sink fails.
#[derive(Drop)]
pub struct StdSink<W: Write> {
    calls: WriterCalls<W>,
    faults: u64,
}

impl<W: Write> StdSink<W> {
    ghost use Rattle.cluster_io.specs.Standard.{writer_of, writer_answers, writer_failures, writer_interruptions};

    /// A sink that has not failed yet. It has made no call of the writer.
    pub fn new(writer: W) -> StdSink<W>
        ensures untold { ⟦<StdSink<W> as Sink>⟧.written result ≡ None }
        ensures faults { ⟦<StdSink<W> as Sink>⟧.faults result ≡ 0 }
        ensures writer { writer_of result ≡ writer }
        ensures failures { writer_failures result ≡ 0 }
        ensures interruptions { writer_interruptions result ≡ 0 }
        ensures answers { writer_answers result ≡ 0 }
    {
        StdSink {
            calls: WriterCalls::new(writer),
            faults: 0,
        }
    }

    /// Counts a fault.
    fn write_failed(&mut self) -> WriteStep
        ensures failed { result ≡ WriteStep.Failed }
        ensures counted { self.new.faults ≡ next_fault self.old.faults }
        ensures calls { self.new.calls ≡ self.old.calls }
    {
        self.faults = self.faults.saturating_add(1);
        WriteStep::Failed
    }
}

impl<W: Write> Sink for StdSink<W> {
    ghost use Rattle.cluster_io.specs.Standard.{Persists, writer_of, writer_answers, writer_failures, writer_interruptions, sink_faults};

    ghost written = { λ _. None };

    ghost offered = { λ _. None };

    ghost faults = { λ s. s.faults };

    ghost counts_only_failures = { true };

    fn write(&mut self, bytes: &[u8]) -> WriteStep
        requires { 0 < length bytes.now }
        ensures bytes { Writes None None result bytes.now }
        ensures offered { Offers None bytes.now None }
        ensures bears { Bears true (result ≡ WriteStep.Failed)
            (sink_faults self.old) (sink_faults self.new) }

        // A failed call of the writer is answered so, and nothing else is but 1,000 interrupted ones.
        // Any other answer is that of the one call that wasn't interrupted.
        ensures calls { Persists (result ≡ WriteStep.Failed)
            (writer_failures self.old) (writer_failures self.new)
            (writer_interruptions self.old) (writer_interruptions self.new)
            (writer_answers self.old) (writer_answers self.new) }

        // Where it is known what the writer holds, it has gained these bytes.
        ensures held { (n : ℕ) → result ≡ WriteStep.Took n →
            Appends (W.contents (writer_of self.old)) (W.contents (writer_of self.new))
            (take n bytes.now) }
        ensures kept { result ≡ WriteStep.Failed →
            Keeps (W.contents (writer_of self.old)) (W.contents (writer_of self.new)) }
    {
        let mut interrupted = 0;
        while interrupted < TRIES {
            match self.calls.attempt(bytes) {
                Attempt::Moved(count) => return WriteStep::Took(count),
                Attempt::Interrupted => interrupted += 1,
                Attempt::Failed => return self.write_failed(),
            }
        }
        self.write_failed()
    }
}
