//! One call of `run` over a source and a sink in memory, and what comes of it.

ghost use Rattle.std.specs.Prelude.{◌≡◌, false};

use cluster_io::{MemorySink, MemorySource, Source};
use sim_core::{Status, run};
use std::alloc::Global;
use std::process::Abort;

/// How many bytes a source or a sink moves in one call, and which of its calls fail, counted from 1.
#[derive(Clone, Copy)]
pub struct Pace<'a> {
    pub step: usize,
    pub fails: &'a [u32],
}

/// The most bytes that a word writes in these tests.
const ROOM: usize = 1 << 19;

pub const EASY: Pace<'static> = Pace {
    step: 4096,
    fails: &[],
};

pub const SLOW: Pace<'static> = Pace {
    step: 1,
    fails: &[],
};

/// One call of `run`: its words, its input, and how its source and its sink move bytes.
#[derive(Clone, Copy)]
pub struct Call<'a> {
    pub words: &'a [&'a str],
    pub input: &'a [u8],
    pub reads: Pace<'a>,
    pub writes: Pace<'a>,
}

/// A call in which nothing fails.
pub fn easy<'a>(words: &'a [&'a str], input: &'a [u8]) -> Call<'a> {
    Call {
        words,
        input,
        reads: EASY,
        writes: EASY,
    }
}

/// How a call ended, and what it wrote.
#[derive(Drop)]
pub struct Outcome {
    pub status: Status,
    pub text: Vec<u8>,
}

impl Outcome {
    /// It ended so, and wrote this text.
    pub fn is(&self, status: Status, text: &[u8]) -> bool {
        self.status == status && self.text.as_slice() == text
    }

    /// It ended so, and wrote a beginning of this text.
    pub fn is_part(&self, status: Status, text: &[u8]) -> bool {
        self.status == status && text.starts_with(&self.text)
    }

    /// It wrote this text, or a beginning of it where memory ran out.
    pub fn is_whole_or_refused(&self, text: &[u8]) -> bool {
        self.is(Status::Done, text) || self.is_part(Status::NoMemory, text)
    }
}

fn owned(rt: &impl Abort, alloc: Global, words: &[&str]) -> Vec<String> {
    let mut list = Vec::new(alloc);
    for word in words {
        let word = word.to_string(alloc).expect(rt, "memory");
        list.push(word).expect(rt, "memory");
    }
    list
}

fn source(rt: &impl Abort, alloc: Global, input: &[u8], reads: Pace<'_>) -> MemorySource
    ensures { ⟦<MemorySource as Source>⟧.ended result ≡ false }
{
    let bytes = input.to_vec(alloc).expect(rt, "memory");
    let fails = reads.fails.to_vec(alloc).expect(rt, "memory");
    MemorySource::new(bytes, reads.step.max(1), fails)
}

fn sink(rt: &impl Abort, alloc: Global, writes: Pace<'_>) -> MemorySink {
    let fails = writes.fails.to_vec(alloc).expect(rt, "memory");
    MemorySink::new(alloc, ROOM, writes.step.max(1), fails).expect(rt, "memory")
}

/// What comes of the call.
pub fn outcome_of(rt: &impl Abort, alloc: Global, call: &Call<'_>) -> Outcome {
    let words = owned(rt, alloc, call.words);
    let mut source = source(rt, alloc, call.input, call.reads);
    let mut sink = sink(rt, alloc, call.writes);
    let status = run(alloc, &words, &mut source, &mut sink);
    let text = sink.bytes().to_vec(alloc).expect(rt, "memory");
    Outcome { status, text }
}

/// The call ends so, and writes this text.
pub fn assert_outcome(rt: &impl Abort, alloc: Global, call: &Call<'_>, status: Status, text: &str) {
    let made = outcome_of(rt, alloc, call);
    assert!(rt; made.is(status, text.as_bytes()), "{text}");
}

/// The input gets this status and this text.
pub fn assert_written(
    rt: &impl Abort,
    alloc: Global,
    word: &str,
    input: &[u8],
    status: Status,
    text: &str,
) {
    assert_outcome(rt, alloc, &easy(&[word], input), status, text);
}
