//! What `cluster_io` reads and writes, over readers and writers that are interrupted or fail.

ghost use Rattle.std.specs.Prelude.{◌≡◌, ◌<◌, false};

use crate::checked::assert_number;
use cluster_io::{
    HeldLines, LineReader, LineStep, MemorySink, MemorySource, NoMemory, ReadEnd, ReadStep, Sink,
    Source, StdSink, StdSource, WriteFault, WriteStep, read_all, write_text,
};
use std::alloc::Global;
use std::io;
use std::io::{ErrorKind, Read, Write};
use std::process::Abort;

/// Is interrupted some times, then reads or writes as `inner` does, and fails where that moves
/// nothing.
#[derive(Drop)]
struct Interrupted<T> {
    times: u32,
    inner: T,
}

impl<T> Interrupted<T> {
    fn interrupt(&mut self) -> io::Result<()> {
        if self.times == 0 {
            return Ok(());
        }
        self.times -= 1;
        Err(ErrorKind::Interrupted.into())
    }
}

impl<R: Read> Read for Interrupted<R> {
    fn read(&mut self, buf: &mut [u8]) -> io::Result<usize> {
        self.interrupt()?;
        match self.inner.read(buf)? {
            0 => Err(ErrorKind::TimedOut.into()),
            count => Ok(count),
        }
    }
}

impl<W: Write> Write for Interrupted<W> {
    fn write(&mut self, bytes: &[u8]) -> io::Result<usize> {
        self.interrupt()?;
        match self.inner.write(bytes)? {
            0 => Err(ErrorKind::TimedOut.into()),
            count => Ok(count),
        }
    }

    fn flush(&mut self) -> io::Result<()> {
        self.inner.flush()
    }
}

#[test]
fn reads_from_std(rt: HostRuntime) {
    let mut buf = [0u8; 4];
    let mut source = StdSource::new(b"abcde".as_slice());
    assert!(rt; source.read(&mut buf) == ReadStep::Got(4));
    assert!(rt; source.read(&mut buf) == ReadStep::Got(1));
    assert!(rt; source.read(&mut buf) == ReadStep::End);
}

/// Interruptions, bytes, and what a read gives of these behind them.
const INTERRUPTED_READS: &[(u32, &[u8], ReadStep)] = &[
    (1, b"ab", ReadStep::Got(2)),
    (999, b"ab", ReadStep::Got(2)),
    (1000, b"ab", ReadStep::Failed),
    (1, b"", ReadStep::Failed),
];

fn interrupted_read(times: u32, inner: &[u8]) -> ReadStep {
    let mut buf = [0u8; 4];
    let mut source = StdSource::new(Interrupted { times, inner });
    source.read(&mut buf)
}

#[test]
fn interrupted_reads_from_std(rt: HostRuntime) {
    for (times, inner, want) in INTERRUPTED_READS {
        assert_number(
            &rt,
            interrupted_read(*times, inner) == *want,
            i64::from(*times),
        );
    }
}

const WHOLE_WRITES: &[WriteStep] = &[WriteStep::Took(3), WriteStep::Took(1), WriteStep::Failed];

#[test]
fn writes_to_std(rt: HostRuntime) {
    let mut buf = [0u8; 4];
    let mut sink = StdSink::new(buf.as_mut_slice());
    for want in WHOLE_WRITES {
        assert!(rt; sink.write(b"abc") == *want);
    }
    assert!(rt; buf == *b"abca");
}

/// Interruptions, and what a write takes of two bytes behind them.
const INTERRUPTED_WRITES: &[(u32, WriteStep)] = &[
    (1, WriteStep::Took(2)),
    (999, WriteStep::Took(2)),
    (1000, WriteStep::Failed),
];

/// What a write of two bytes takes into this room.
fn interrupted_write(times: u32, inner: &mut [u8]) -> WriteStep {
    let mut sink = StdSink::new(Interrupted { times, inner });
    sink.write(b"xy")
}

#[test]
fn interrupted_writes_to_std(rt: HostRuntime) {
    for (times, want) in INTERRUPTED_WRITES {
        let mut buf = [0u8; 4];
        let holds = interrupted_write(*times, &mut buf) == *want;
        assert_number(&rt, holds, i64::from(*times));
    }
    assert!(rt; interrupted_write(1, &mut []) == WriteStep::Failed);
}

/// Moves nothing at its first call, or fails there, and then reads or writes as `inner` does.
#[derive(Drop)]
struct AfterFirst<T> {
    first: Option<Result<(), ErrorKind>>,
    inner: T,
}

impl<T> AfterFirst<T> {
    fn new(first: Result<(), ErrorKind>, inner: T) -> AfterFirst<T> {
        AfterFirst {
            first: Some(first),
            inner,
        }
    }
}

impl<R: Read> Read for AfterFirst<R> {
    fn read(&mut self, buf: &mut [u8]) -> io::Result<usize> {
        match self.first.take() {
            Some(Ok(())) => Ok(0),
            Some(Err(kind)) => Err(kind.into()),
            None => self.inner.read(buf),
        }
    }
}

impl<W: Write> Write for AfterFirst<W> {
    fn write(&mut self, bytes: &[u8]) -> io::Result<usize> {
        match self.first.take() {
            Some(Ok(())) => Ok(0),
            Some(Err(kind)) => Err(kind.into()),
            None => self.inner.write(bytes),
        }
    }

    fn flush(&mut self) -> io::Result<()> {
        self.inner.flush()
    }
}

#[test]
fn answers_a_failed_read(rt: HostRuntime) {
    let mut buf = [0u8; 4];
    let mut source = StdSource::new(AfterFirst::new(Err(ErrorKind::TimedOut), b"ab".as_slice()));
    assert!(rt; source.read(&mut buf) == ReadStep::Failed);
    assert!(rt; source.read(&mut buf) == ReadStep::Got(2));
    assert!(rt; source.read(&mut buf) == ReadStep::End);
}

#[test]
fn reads_once_at_an_end(rt: HostRuntime) {
    let mut buf = [0u8; 4];
    let mut reader = AfterFirst::new(Ok(()), b"ab".as_slice());
    assert!(rt; StdSource::new(&mut reader).read(&mut buf) == ReadStep::End);
    assert!(rt; reader.inner == b"ab".as_slice());
    assert!(rt; StdSource::new(&mut reader).read(&mut buf) == ReadStep::Got(2));
}

/// Writes that move nothing at the first call, or fail there.
const FIRST_WRITES: &[Result<(), ErrorKind>] = &[Ok(()), Err(ErrorKind::TimedOut)];

#[test]
fn writes_once_at_a_failure(rt: HostRuntime) {
    for first in FIRST_WRITES {
        let mut buf = [0u8; 4];
        let mut writer = AfterFirst::new(*first, buf.as_mut_slice());
        assert!(rt; StdSink::new(&mut writer).write(b"xy") == WriteStep::Failed);
        assert!(rt; &*writer.inner == [0u8; 4].as_slice());
        assert!(rt; StdSink::new(&mut writer).write(b"xy") == WriteStep::Took(2));
    }
}

/// A new source of these bytes, of which a read gives at most `step`, and these reads fail, counted from 1.
fn source_of(
    rt: &impl Abort,
    alloc: Global,
    bytes: &[u8],
    step: usize,
    fails: &[u32],
) -> MemorySource
    requires { 0 < step }
    ensures { ⟦<MemorySource as Source>⟧.ended result ≡ false }
{
    let bytes = bytes.to_vec(alloc).expect(rt, "memory");
    let fails = fails.to_vec(alloc).expect(rt, "memory");
    MemorySource::new(bytes, step, fails)
}

/// How much a read gives at most, which reads fail, the limit, and what is read.
type Reads = (usize, &'static [u32], usize, Result<&'static [u8], ReadEnd>);

const READS: &[Reads] = &[
    (1, &[], 10, Ok(b"abcd")),
    (3, &[], 4, Ok(b"abcd")),
    (1, &[], 3, Err(ReadEnd::TooLarge)),
    (9, &[], 3, Err(ReadEnd::TooLarge)),
    (1, &[3], 10, Err(ReadEnd::Fault)),
    (4, &[2], 10, Err(ReadEnd::Fault)),
    (4, &[3], usize::MAX, Ok(b"abcd")),
];

/// Whether this is read of four bytes.
fn are_read(rt: &impl Abort, alloc: Global, (step, fails, limit, want): &Reads) -> bool {
    assert!(rt; *step > 0);
    let mut source = source_of(rt, alloc, b"abcd", *step, fails);
    match read_all(alloc, &mut source, *limit) {
        Ok(bytes) => Ok(bytes.as_slice()) == *want,
        Err(end) => Err(end) == *want,
    }
}

#[test]
fn reads_all(rt: HostRuntime) {
    for row in READS {
        assert!(rt; are_read(&rt, rt.alloc(), row));
    }
}

type Writes = (
    usize,
    usize,
    &'static [u32],
    &'static [u8],
    Result<(), WriteFault>,
    &'static [u8],
);

/// A sink by its room, how much a write takes at most and which writes fail; a text, the answer, and what the sink holds then.
const WRITES: &[Writes] = &[
    (9, 1, &[], b"abcd", Ok(()), b"abcd"),
    (4, 3, &[], b"abcd", Ok(()), b"abcd"),
    (9, 3, &[2], b"abcd", Err(WriteFault), b"abc"),
    (2, 9, &[], b"abcd", Err(WriteFault), b"ab"),
    (0, 1, &[], b"a", Err(WriteFault), b""),
    (0, 1, &[1], b"", Ok(()), b""),
];

/// An empty sink of such a row.
fn sink_of(rt: &impl Abort, alloc: Global, (room, step, fails, _, _, _): &Writes) -> MemorySink {
    assert!(rt; *step > 0);
    let fails = fails.to_vec(alloc).expect(rt, "memory");
    MemorySink::new(alloc, *room, *step, fails).expect(rt, "memory")
}

/// Whether the text is taken as the row says.
fn is_taken(rt: &impl Abort, alloc: Global, row: &Writes) -> bool {
    let mut sink = sink_of(rt, alloc, row);
    let (room, _, _, text, want, held) = row;
    sink.room_left() == *room
        && write_text(&mut sink, text) == *want
        && sink.bytes() == *held
        && Some(sink.room_left()) == room.checked_sub(held.len())
}

#[test]
fn writes_text(rt: HostRuntime) {
    for row in WRITES {
        assert!(rt; is_taken(&rt, rt.alloc(), row));
    }
}

/// The next answer that is no failure. Each failure before it is counted.
fn answer(reader: &mut LineReader<'_, MemorySource>, failures: &mut u32) -> LineStep {
    for _ in 0..9 {
        match reader.line() {
            LineStep::Failed => *failures = failures.saturating_add(1),
            step => return step,
        }
    }
    LineStep::Failed
}

/// A line, and the number of its first physical line.
type RawLine = (u32, &'static [u8]);

/// A text, its limit and that of a line, the lines that are read, and how reading ends.
type Case = (&'static [u8], (usize, usize), &'static [RawLine], LineStep);

/// The number of failures, if these lines are given, and then twice the end.
fn failures_at(
    reader: &mut LineReader<'_, MemorySource>,
    lines: &[RawLine],
    end: LineStep,
) -> Option<u32> {
    let mut failures = 0;
    for (number, raw) in lines {
        let step = answer(reader, &mut failures);
        if step != LineStep::Line || reader.raw() != *raw || reader.number() != *number {
            return None;
        }
    }
    for _ in 0..2 {
        if answer(reader, &mut failures) != end || !reader.raw().is_empty() {
            return None;
        }
    }
    Some(failures)
}

/// Empty lines to read into, of this limit and this longest line.
fn held_lines(rt: &impl Abort, alloc: Global, bounds: (usize, usize)) -> HeldLines
    ensures { result.ended ≡ false }
{
    let (limit, longest) = bounds;
    assert!(rt; limit < 1 << 32);
    HeldLines::new(alloc, limit, longest).expect(rt, "memory")
}

/// The number of failures of such a case, of whose source a read gives at most `step`, and this read fails.
fn failures(rt: &impl Abort, alloc: Global, case: &Case, step: usize, failing: u32) -> Option<u32>
    requires { 0 < step }
{
    let (text, bounds, lines, end) = *case;
    let held = held_lines(rt, alloc, bounds);
    let mut source = source_of(rt, alloc, text, step, &[failing]);
    let mut reader = LineReader::over(&mut source, held);
    failures_at(&mut reader, lines, end)
}

/// How many reads must be made: where the end comes each that gives bytes and one behind them, else the first.
fn needed_reads(text: &[u8], end: LineStep, step: usize) -> usize
    requires { 0 < step }
{
    if end == LineStep::End {
        text.len().div_ceil(step) + 1
    } else {
        1
    }
}

/// Whether so many failures are told where this read fails: one if it is among those that must be made. Behind the end of
/// the source none is made.
fn are_told(failures: Option<u32>, failing: u32, needed: usize, end: LineStep) -> bool {
    if failing == 0 {
        failures == Some(0)
    } else if failing as usize <= needed {
        failures == Some(1)
    } else if end == LineStep::End {
        failures == Some(0)
    } else {
        matches!(failures, Some(0 | 1))
    }
}

const STEPS: &[usize] = &[1, 2, 3, 9, 4096, 5000];

/// Gives the lines of the case, whatever the greatest step of the source and whichever of its reads fails.
fn reads_lines(rt: &impl Abort, alloc: Global, case: &Case) {
    for step in STEPS {
        assert!(rt; *step > 0);
        let needed = needed_reads(case.0, case.3, *step);
        for failing in 0..12 {
            let found = failures(rt, alloc, case, *step, failing);
            assert!(rt;
                are_told(found, failing, needed, case.3),
                "{step} {failing}"
            );
        }
    }
}

/// A text, and its lines with their numbers.
const LINES: &[(&[u8], &[RawLine])] = &[
    (b"", &[]),
    (b"a", &[(1, b"a")]),
    (b"\n \t\n", &[(1, b"\n"), (2, b" \t\n")]),
    (
        b"a\r\nb\rc\n\r",
        &[(1, b"a\r\n"), (2, b"b\rc\n"), (3, b"\r")],
    ),
    (b"a\\\nb\nc", &[(1, b"a\\\nb\n"), (3, b"c")]),
    (b"a\\\r\nb\\\n\nd\n", &[(1, b"a\\\r\nb\\\n\n"), (4, b"d\n")]),
    (b"a\\b\nc\\\r", &[(1, b"a\\b\n"), (2, b"c\\\r")]),
    (b"a\\", &[(1, b"a\\")]),
    (b"a\\\n", &[(1, b"a\\\n")]),
    (b"#a\\\nb\n", &[(1, b"#a\\\n"), (2, b"b\n")]),
    (b" \t#\\\r\n#\\", &[(1, b" \t#\\\r\n"), (2, b"#\\")]),
    (b"a\\\n#b\\\nc\nd", &[(1, b"a\\\n#b\\\nc\n"), (4, b"d")]),
];

#[test]
fn reads_lines_of_a_source(rt: HostRuntime) {
    for (text, lines) in LINES {
        reads_lines(&rt, rt.alloc(), &(*text, (99, 9), *lines, LineStep::End));
    }
}

const BOUNDED: &[Case] = &[
    (b"abcd\r\n", (99, 4), &[(1, b"abcd\r\n")], LineStep::End),
    (b"abcde\n", (99, 4), &[], LineStep::TooLong),
    (b"a\nabcde", (99, 4), &[(1, b"a\n")], LineStep::TooLong),
    (b"abcd\r", (99, 4), &[], LineStep::TooLong),
    (b"abcd\rx\n", (99, 4), &[], LineStep::TooLong),
    (b"#abcd\n", (99, 4), &[], LineStep::TooLong),
    (
        b"a\\\r\nb\\\n",
        (99, 4),
        &[(1, b"a\\\r\nb\\\n")],
        LineStep::End,
    ),
    (b"a\\\r\nb\\\nc", (99, 4), &[], LineStep::TooLong),
    (b"a\\\nbc", (99, 4), &[(1, b"a\\\nbc")], LineStep::End),
    (b"\n", (99, 0), &[(1, b"\n")], LineStep::End),
    (b"a", (99, 0), &[], LineStep::TooLong),
    (
        b"a\nb\n",
        (4, 9),
        &[(1, b"a\n"), (2, b"b\n")],
        LineStep::End,
    ),
    (b"a\nb\n", (3, 9), &[(1, b"a\n")], LineStep::TooLarge),
    (b"a\nb\n", (2, 9), &[(1, b"a\n")], LineStep::TooLarge),
    (b"a\nb", (3, 9), &[(1, b"a\n"), (2, b"b")], LineStep::End),
    (b"a\\\n", (3, 9), &[(1, b"a\\\n")], LineStep::End),
    (b"a\\\nb", (3, 9), &[], LineStep::TooLarge),
    (b"", (0, 9), &[], LineStep::End),
    (b"a", (0, 9), &[], LineStep::TooLarge),
    (b"abcde", (4, 4), &[], LineStep::TooLarge),
    (b"abcde", (5, 4), &[], LineStep::TooLong),
    (b"abcd\r\n", (5, 4), &[], LineStep::TooLarge),
    (b"abcd\rx", (5, 4), &[], LineStep::TooLong),
    (b"abcd\r", (5, 4), &[], LineStep::TooLong),
    (b"abcd\r\n", (5, 3), &[], LineStep::TooLong),
];

#[test]
fn bounds_lines(rt: HostRuntime) {
    for case in BOUNDED {
        reads_lines(&rt, rt.alloc(), case);
    }
}

/// A line of this piece, 5,000 times, and a short one.
fn five_thousand(rt: &impl Abort, alloc: Global, piece: &[u8]) -> Vec<u8> {
    let mut text = Vec::new(alloc);
    for _ in 0..5000 {
        text.extend_from_slice(piece).expect(rt, "memory");
    }
    text.extend_from_slice(b"\r\nb").expect(rt, "memory");
    text
}

/// Whether a line of this length is read, and then the short one, whose number this is.
fn are_given(reader: &mut LineReader<'_, MemorySource>, len: usize, second: u32) -> bool {
    reader.line() == LineStep::Line
        && reader.raw().len() == len
        && reader.number() == 1
        && reader.line() == LineStep::Line
        && reader.raw() == b"b".as_slice()
        && reader.number() == second
        && reader.line() == LineStep::End
}

/// Reads a line of 5,000 pieces with this bound, and the short one behind it; or finds the first too long.
fn reads_long(
    rt: &impl Abort,
    alloc: Global,
    piece: &[u8],
    longest: usize,
    want: Option<(usize, u32)>,
) -> bool {
    let text = five_thousand(rt, alloc, piece);
    let held = held_lines(rt, alloc, (20000, longest));
    let mut source = source_of(rt, alloc, text.as_slice(), 1000, &[]);
    let mut reader = LineReader::over(&mut source, held);
    match want {
        Some((len, second)) => are_given(&mut reader, len, second),
        None => reader.line() == LineStep::TooLong,
    }
}

#[test]
fn reads_lines_longer_than_a_read(rt: HostRuntime) {
    let alloc = rt.alloc();
    assert!(rt; reads_long(&rt, alloc, b"a", 5000, Some((5002, 2))));
    assert!(rt; reads_long(&rt, alloc, b"a", 4999, None));
    assert!(rt; reads_long(&rt, alloc, b"\\\r\n", 5000, Some((15002, 5002))));
    assert!(rt; reads_long(&rt, alloc, b"\\\r\n", 4999, None));
}

#[test]
fn gives_the_source_back(rt: HostRuntime) {
    let mut source = StdSource::new(b"a\nbcdefghi".as_slice());
    let mut reader = LineReader::new(rt.alloc(), &mut source, 4, 4).expect(&rt, "memory");
    assert!(rt; reader.line() == LineStep::Line);
    assert!(rt; reader.raw() == b"a\n".as_slice());
    assert!(rt; !reader.has_ended());
    let mut buf = [0u8; 9];
    assert!(rt; reader.into_source().read(&mut buf) == ReadStep::Got(5));
    assert!(rt; &buf[..5] == b"efghi".as_slice());
}
