//! The words of the command line.

use crate::outcome::{Call, Pace, assert_outcome, assert_written, easy, outcome_of};
use sim_core::{HELP, Status, VERSION};
use std::alloc::Global;
use std::process::Abort;

const INPUT: &[u8] = b"node n1\n";

/// The words that read a whole input, or its head first.
const READING: &[&str] = &[
    "check", "scores", "why", "graph", "survive", "audit", "replay",
];

/// The word writes this text, over a source whose first call fails.
fn assert_reads_nothing(rt: &impl Abort, alloc: Global, word: &str, text: &str) {
    let reads = Pace {
        step: 1,
        fails: &[1],
    };
    let words = [word];
    let call = Call {
        reads,
        ..easy(&words, INPUT)
    };
    assert_outcome(rt, alloc, &call, Status::Done, text);
}

#[test]
fn words_that_read_nothing(rt: HostRuntime) {
    assert_reads_nothing(&rt, rt.alloc(), "--help", HELP);
    assert_reads_nothing(&rt, rt.alloc(), "--version", VERSION);
}

#[test]
fn inputs_that_are_refused(rt: HostRuntime) {
    let input = b"node n1\nnode n1\n";
    let text = "refused 2 DuplicateName\n";
    for word in READING {
        assert_written(&rt, rt.alloc(), word, input, Status::Refused, text);
    }
}

const NO_FORMS: &[&[&str]] = &[
    &[],
    &["Replay"],
    &["replay", "x"],
    &["check", "replay"],
    &["audit", "audit"],
    &["--help", "--version"],
    &["gen"],
    &["gen", ""],
    &["gen", "07"],
    &["gen", "+7"],
    &["gen", "4294967296"],
    &["gen", "7", "8"],
    &["world"],
    &["world", "07"],
];

fn assert_no_form(rt: &impl Abort, alloc: Global, row: usize, words: &[&str]) {
    let made = outcome_of(rt, alloc, &easy(words, INPUT));
    assert!(rt; made.is(Status::Usage, b""), "row {row}");
}

#[test]
fn words_that_are_no_form(rt: HostRuntime) {
    for (row, words) in NO_FORMS.iter().enumerate() {
        assert_no_form(&rt, rt.alloc(), row, words);
    }
}

fn assert_read_fails(rt: &impl Abort, alloc: Global, word: &str) {
    let reads = Pace {
        step: 5,
        fails: &[2],
    };
    let words = [word];
    let call = Call {
        reads,
        ..easy(&words, INPUT)
    };
    assert_outcome(rt, alloc, &call, Status::ReadFault, "");
}

/// In the head nothing is written where the source fails.
#[test]
fn sources_that_fail(rt: HostRuntime) {
    for word in READING {
        assert_read_fails(&rt, rt.alloc(), word);
    }
}
