//! No line is held back while `replay` waits for its input.

ghost use Rattle.std.specs.Prelude.{true, None, Some};

use crate::replay_live::{HEAD, PROBES, RUN};
use cluster_io::{MemorySink, ReadStep, Sink, Source, WriteStep};
use sim_core::{Status, run};
use std::alloc::Global;
use std::cell::Cell;
use std::process::Abort;

/// A sink that says how many bytes it has taken, and in how many writes.
#[derive(Drop)]
struct Counting<'a> {
    inner: MemorySink,
    bytes: &'a Cell<usize>,
    writes: &'a Cell<usize>,
}

impl Sink for Counting<'_> {
    ghost written = { λ s. Some s.inner.held };

    ghost offered = { λ _. None };

    ghost faults = { λ s. s.inner.faults };

    ghost counts_only_failures = { true };

    fn write(&mut self, bytes: &[u8]) -> WriteStep {
        let step = self.inner.write(bytes);
        if let WriteStep::Took(count) = step {
            self.bytes.set(self.bytes.get().saturating_add(count));
        }
        self.writes.set(self.writes.get().saturating_add(1));
        step
    }
}

/// A piece of an input, and how many bytes are written before it is asked for.
type Piece = (&'static str, usize);

/// A source that gives pieces one by one, and sees how much was written before.
#[derive(Drop)]
struct Pieces<'a> {
    pieces: &'a [Piece],
    /// How many it has given.
    given: usize,
    bytes: &'a Cell<usize>,
    agrees: bool,
    ended: bool,
}

impl Source for Pieces<'_> {
    ghost left = { λ _. None };

    ghost faults = { λ _. 0 };

    ghost counts_only_failures = { true };

    ghost ended = { λ s. s.ended };

    fn read(&mut self, buf: &mut [u8]) -> ReadStep {
        let Some((piece, written)) = self.pieces.get(self.given) else {
            self.ended = true;
            return ReadStep::End;
        };
        let piece = piece.as_bytes();
        self.agrees = self.agrees && self.bytes.get() == *written;
        self.given = self.given.saturating_add(1);
        let count = piece.len().min(buf.len());
        if count == 0 {
            self.ended = true;
            return ReadStep::End;
        }
        buf[..count].copy_from_slice(&piece[..count]);
        ReadStep::Got(count)
    }
}

/// How a run ends, what is written by then, and in how many writes.
#[derive(Drop)]
struct Wanted {
    status: Status,
    text: &'static str,
    writes: usize,
}

/// The run of these pieces ends so, and nothing is held back while a piece is asked for.
fn check_pieces(rt: &impl Abort, alloc: Global, pieces: &[Piece], wanted: &Wanted) {
    let bytes = Cell::new(0);
    let count = Cell::new(0);
    let mut source = Pieces {
        pieces,
        given: 0,
        bytes: &bytes,
        agrees: true,
        ended: false,
    };
    let mut sink = Counting {
        inner: MemorySink::new(alloc, 1000, 1000, Vec::new(alloc)).expect(rt, "memory"),
        bytes: &bytes,
        writes: &count,
    };
    let word = "replay".to_string(alloc).expect(rt, "memory");
    let mut words = Vec::new(alloc);
    words.push(word).expect(rt, "memory");
    let status = run(alloc, &words, &mut source, &mut sink);
    assert!(rt; status == wanted.status && sink.inner.bytes() == wanted.text.as_bytes());
    assert!(rt; source.agrees && count.get() == wanted.writes);
}

/// A run that the second result line cuts.
const CUT: &str = "\
transition 1
target vip n1 started
begin 1 probe vip n1
begin 2 probe vip n2
end 1 7
unexpected 11
";

/// A run that asks for a second result line which is none.
const REFUSED: &str = "\
transition 1
target vip n1 started
begin 1 probe vip n1
begin 2 probe vip n2
end 1 7
refused 11 BadValue
";

/// What is written when the answers of both probes are known.
const START: usize = PROBES.len() + "end 1 7\nend 2 7\nbegin 3 start vip n1\n".len();

#[test]
fn each_line_is_written_before_its_answer_is_waited_for(rt: HostRuntime) {
    let pieces = [
        (HEAD, 0),
        ("%results\n", 0),
        ("end 1 7\nend 2", PROBES.len()),
        (" 7\n", PROBES.len() + "end 1 7\n".len()),
        ("# a comment\n", START),
        ("end 3 0\n", START),
    ];
    let whole = Wanted {
        status: Status::Done,
        text: RUN,
        writes: 4,
    };
    check_pieces(&rt, rt.alloc(), &pieces, &whole);
}

#[test]
fn lines_leave_together_where_answers_are_at_hand(rt: HostRuntime) {
    let pieces = [
        (HEAD, 0),
        ("%results\n", 0),
        ("end 1 7\nend 2 7\nend 3 0\n", PROBES.len()),
    ];
    let whole = Wanted {
        status: Status::Done,
        text: RUN,
        writes: 2,
    };
    check_pieces(&rt, rt.alloc(), &pieces, &whole);
}

/// Result lines of which the second ends the run, how it ends then, and what is written.
const CUTS: &[(&str, Status, &str)] = &[
    ("end 1 7\nend 4 0\n", Status::Unexpected, CUT),
    ("end 1 7\nend 2 x\n", Status::Refused, REFUSED),
];

#[test]
fn the_last_line_of_a_run_that_is_cut_leaves_with_those_held_before(rt: HostRuntime) {
    for (results, status, text) in CUTS {
        let pieces = [(HEAD, 0), ("%results\n", 0), (*results, PROBES.len())];
        let cut = Wanted {
            status: *status,
            text: *text,
            writes: 2,
        };
        check_pieces(&rt, rt.alloc(), &pieces, &cut);
    }
}
