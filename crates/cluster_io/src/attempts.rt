ghost use Rattle.std.specs.Prelude.{◌≡◌, ◌≢◌, ℕ, true, ◌≤◌, ◌<◌, length, take, IfOk, IfErr};
ghost use Rattle.std.specs.IoError.{error_kind};
ghost use Rattle.std.specs.Io.KnownBytes.{Appends, Consumes, IsAtEnd, Keeps};
ghost use Rattle.cluster_io.specs.Streams.{Bears, next_fault};
ghost use Rattle.cluster_io.specs.Inner.Attempts.{is_answer};

use std::io;
use std::io::{ErrorKind, Read, Write};

/// What one call of a reader or a writer came to.
pub(crate) enum Attempt {
    Moved(usize),
    Interrupted,
    Failed,
}

fn attempt_of(outcome: io::Result<usize>) -> Attempt
    ensures moved { IfOk outcome (λ count. result ≡ Attempt.Moved count) }
    ensures interrupted { IfErr outcome (λ e. error_kind e ≡ ErrorKind.Interrupted →
        result ≡ Attempt.Interrupted) }
    ensures failed { IfErr outcome (λ e. error_kind e ≢ ErrorKind.Interrupted →
        result ≡ Attempt.Failed) }
{
    match outcome {
        Ok(count) => Attempt::Moved(count),
        Err(e) if e.kind() == ErrorKind::Interrupted => Attempt::Interrupted,
        Err(_) => Attempt::Failed,
    }
}

/// The count of calls after one more, which stays at the last value of its counter.
fn one_more(calls: u64) -> u64
    ensures grows { calls ≤ result }
    ensures next { result ≡ next_fault calls }
{
    calls.saturating_add(1)
}

/// A reader of std. Nothing but `attempt` calls it, and each call is counted by what it came to.
#[derive(Drop)]
pub(crate) struct ReaderCalls<R: Read> {
    reader: R,
    failures: u64,
    interruptions: u64,
    answers: u64,
}

impl<R: Read> ReaderCalls<R> {
    /// A reader that wasn't called yet.
    pub(crate) fn new(reader: R) -> ReaderCalls<R>
        ensures reader { result.reader ≡ reader }
        ensures failures { result.failures ≡ 0 }
        ensures interruptions { result.interruptions ≡ 0 }
        ensures answers { result.answers ≡ 0 }
    {
        ReaderCalls {
            reader,
            failures: 0,
            interruptions: 0,
            answers: 0,
        }
    }

    /// Calls the reader once.
    pub(crate) fn attempt(&mut self, buf: &mut [u8]) -> Attempt
        requires { 0 < length buf.old }
        ensures within { (n : ℕ) → result ≡ Attempt.Moved n → n ≤ length buf.new }
        ensures room { length buf.new ≡ length buf.old }
        ensures given { (n : ℕ) → result ≡ Attempt.Moved n →
            Consumes (R.remaining self.old.reader) (R.remaining self.new.reader) (take n buf.new) }
        ensures end { result ≡ Attempt.Moved 0 → IsAtEnd (R.remaining self.new.reader) }
        ensures interrupted_keeps { result ≡ Attempt.Interrupted →
            Keeps (R.remaining self.old.reader) (R.remaining self.new.reader) }
        ensures failed_keeps { result ≡ Attempt.Failed →
            Keeps (R.remaining self.old.reader) (R.remaining self.new.reader) }
        ensures failures { Bears true (result ≡ Attempt.Failed) self.old.failures self.new.failures }
        ensures interruptions { Bears true (result ≡ Attempt.Interrupted)
            self.old.interruptions self.new.interruptions }
        ensures answers { Bears true (is_answer result ≡ true) self.old.answers self.new.answers }
    {
        match attempt_of(self.reader.read(buf)) {
            Attempt::Moved(count) => {
                self.answers = one_more(self.answers);
                Attempt::Moved(count)
            }
            Attempt::Interrupted => {
                self.interruptions = one_more(self.interruptions);
                Attempt::Interrupted
            }
            Attempt::Failed => {
                self.failures = one_more(self.failures);
                Attempt::Failed
            }
        }
    }
}

/// A writer of std. Nothing but `attempt` calls it, and each call is counted by what it came to.
#[derive(Drop)]
pub(crate) struct WriterCalls<W: Write> {
    writer: W,
    failures: u64,
    interruptions: u64,
    answers: u64,
}

impl<W: Write> WriterCalls<W> {
    /// A writer that wasn't called yet.
    pub(crate) fn new(writer: W) -> WriterCalls<W>
        ensures writer { result.writer ≡ writer }
        ensures failures { result.failures ≡ 0 }
        ensures interruptions { result.interruptions ≡ 0 }
        ensures answers { result.answers ≡ 0 }
    {
        WriterCalls {
            writer,
            failures: 0,
            interruptions: 0,
            answers: 0,
        }
    }

    /// Calls the writer once. One that takes 0 bytes has failed.
    pub(crate) fn attempt(&mut self, bytes: &[u8]) -> Attempt
        requires { 0 < length bytes.now }
        ensures some { (n : ℕ) → result ≡ Attempt.Moved n → 0 < n }
        ensures within { (n : ℕ) → result ≡ Attempt.Moved n → n ≤ length bytes.now }
        ensures held { (n : ℕ) → result ≡ Attempt.Moved n →
            Appends (W.contents self.old.writer) (W.contents self.new.writer) (take n bytes.now) }
        ensures interrupted_keeps { result ≡ Attempt.Interrupted →
            Keeps (W.contents self.old.writer) (W.contents self.new.writer) }
        ensures failed_keeps { result ≡ Attempt.Failed →
            Keeps (W.contents self.old.writer) (W.contents self.new.writer) }
        ensures failures { Bears true (result ≡ Attempt.Failed) self.old.failures self.new.failures }
        ensures interruptions { Bears true (result ≡ Attempt.Interrupted)
            self.old.interruptions self.new.interruptions }
        ensures answers { Bears true (is_answer result ≡ true) self.old.answers self.new.answers }
    {
        match attempt_of(self.writer.write(bytes)) {
            Attempt::Moved(0) | Attempt::Failed => {
                self.failures = one_more(self.failures);
                Attempt::Failed
            }
            Attempt::Interrupted => {
                self.interruptions = one_more(self.interruptions);
                Attempt::Interrupted
            }
            Attempt::Moved(count) => {
                self.answers = one_more(self.answers);
                Attempt::Moved(count)
            }
        }
    }
}
