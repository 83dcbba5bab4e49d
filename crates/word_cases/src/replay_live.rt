//! The word `replay` over sources and sinks that fail or don't, and over long inputs: what is written while the input is read.

use crate::long_inputs::{LongRow, assert_each_long, repeated};
use crate::outcome::{Call, EASY, Pace, SLOW, assert_outcome, assert_written, outcome_of};
use sim_core::Status;
use std::alloc::Global;
use std::process::Abort;

/// Two nodes that are online, and a resource of which nothing is known.
pub const HEAD: &str = "\
node n1
node n2
primitive vip IPaddr2
%status
now 1000
quorum yes
node n1 online
node n2 online
";

pub const RUN: &str = "\
transition 1
target vip n1 started
begin 1 probe vip n1
begin 2 probe vip n2
end 1 7
end 2 7
begin 3 start vip n1
end 3 0
complete 1
";

/// What is written before the first result line is asked for.
pub const PROBES: &str = "\
transition 1
target vip n1 started
begin 1 probe vip n1
begin 2 probe vip n2
";

/// A node is lost while nothing is to be done.
pub const LOSS: &str = "\
node n1
node n2
primitive vip IPaddr2
rsc_defaults resource-stickiness=100
%status
now 1000
quorum yes
node n1 online
node n2 online
op n2 vip start 0 0 900
op n1 vip monitor 0 7 900
%results
lost n2
";

pub const LOSS_RUN: &str = "\
transition 1
target vip n2 started
complete 1
lost n2
transition 2
target vip n1 started
begin 1 fence n2
end 1 0
begin 2 start vip n1
end 2 0
complete 2
";

/// A source or a sink that moves at most so many bytes in one call, and fails in this one.
fn failing(step: usize, fails: &[u32]) -> Pace<'_> {
    Pace { step, fails }
}

/// A call over this source and this sink.
fn replay<'a>(input: &'a str, reads: Pace<'a>, writes: Pace<'a>) -> Call<'a> {
    Call {
        words: WORDS,
        input: input.as_bytes(),
        reads,
        writes,
    }
}

const WORDS: &[&str] = &["replay"];

fn assert_replayed(
    rt: &impl Abort,
    alloc: Global,
    paces: (Pace<'_>, Pace<'_>),
    input: &str,
    status: Status,
    text: &str,
) {
    let call = replay(input, paces.0, paces.1);
    assert_outcome(rt, alloc, &call, status, text);
}

#[test]
fn slow_sources_and_sinks(rt: HostRuntime) {
    let alloc = rt.alloc();
    assert_replayed(&rt, alloc, (SLOW, EASY), HEAD, Status::Done, RUN);
    assert_replayed(&rt, alloc, (SLOW, EASY), LOSS, Status::Done, LOSS_RUN);
    assert_replayed(&rt, alloc, (EASY, SLOW), HEAD, Status::Done, RUN);
    assert_replayed(&rt, alloc, (EASY, SLOW), LOSS, Status::Done, LOSS_RUN);
}

/// The source fails in the midst of a result line.
#[test]
fn a_source_that_fails_behind_the_head(rt: HostRuntime) {
    let alloc = rt.alloc();
    let input = format!(in alloc; "{HEAD}%results\nend 1 7\nend 2").expect(&rt, "memory");
    let text = format!(in alloc; "{PROBES}end 1 7\n").expect(&rt, "memory");
    let paces = (failing(4096, &[2]), EASY);
    assert_replayed(&rt, alloc, paces, &input, Status::ReadFault, &text);
}

/// The second read finds the end, and a third would fail: in the head, and behind a last line without a line feed.
#[test]
fn a_source_that_would_fail_behind_its_end(rt: HostRuntime) {
    let alloc = rt.alloc();
    let paces = (failing(4096, &[3]), EASY);
    assert_replayed(&rt, alloc, paces, HEAD, Status::Done, RUN);
    let input = format!(in alloc; "{HEAD}%results\nend 1 7").expect(&rt, "memory");
    assert_replayed(&rt, alloc, paces, &input, Status::Done, RUN);
}

/// The first write that fails ends the call. What is known before the first result line is asked for is one write, and what
/// follows from the end of the input another.
#[test]
fn a_sink_that_fails_at_each_of_two_writes(rt: HostRuntime) {
    let alloc = rt.alloc();
    let first = (EASY, failing(2000, &[1]));
    assert_replayed(&rt, alloc, first, HEAD, Status::WriteFault, "");
    let second = (EASY, failing(2000, &[2]));
    assert_replayed(&rt, alloc, second, HEAD, Status::WriteFault, PROBES);
    let third = (EASY, failing(2000, &[3]));
    assert_replayed(&rt, alloc, third, HEAD, Status::Done, RUN);
}

/// The read of this number fails, and a beginning of the run is written.
fn assert_read_fails(rt: &impl Abort, alloc: Global, number: u32) {
    let fails = [number];
    let made = outcome_of(rt, alloc, &replay(LOSS, failing(16, &fails), EASY));
    assert!(rt;
        made.is_part(Status::ReadFault, LOSS_RUN.as_bytes()),
        "read {number}"
    );
}

#[test]
fn a_source_that_fails_at_each_read_in_turn(rt: HostRuntime) {
    let reads = LOSS.len().div_ceil(16) as u32 + 1;
    for number in 1..=reads {
        assert_read_fails(&rt, rt.alloc(), number);
    }
    let fails = [reads + 1];
    let paces = (failing(16, &fails), EASY);
    assert_replayed(&rt, rt.alloc(), paces, LOSS, Status::Done, LOSS_RUN);
}

/// The write of this number fails, of writes that take 7 bytes at most, and a beginning of the run is written.
fn assert_write_fails(rt: &impl Abort, alloc: Global, number: u32) {
    let fails = [number];
    let made = outcome_of(rt, alloc, &replay(LOSS, EASY, failing(7, &fails)));
    assert!(rt;
        made.is_part(Status::WriteFault, LOSS_RUN.as_bytes()),
        "write {number}"
    );
}

#[test]
fn a_sink_that_fails_at_each_write_in_turn(rt: HostRuntime) {
    let writes = LOSS_RUN.len().div_ceil(7) as u32;
    for number in 1..=writes {
        assert_write_fails(&rt, rt.alloc(), number);
    }
}

/// The run of an input with so many waits of no seconds, where nothing is to be done.
fn idle_run(rt: &impl Abort, alloc: Global, waits: u32) -> String {
    let mut run = String::new(alloc);
    for number in 1..=waits {
        write!(run, "transition {number}\ncomplete {number}\nwait 0\n").expect(rt, "memory");
    }
    let last = u64::from(waits) + 1;
    write!(run, "transition {last}\ncomplete {last}\n").expect(rt, "memory");
    run
}

#[test]
fn the_most_result_lines_and_one_more(rt: HostRuntime) {
    let alloc = rt.alloc();
    let mut input = repeated(&rt, alloc, "%results\n", "wait 0\n", 10_000);
    let mut run = idle_run(&rt, alloc, 10_000);
    assert_replayed(&rt, alloc, (EASY, EASY), &input, Status::Done, &run);
    input.push_str("wait 0\n").expect(&rt, "memory");
    run.push_str("refused 10002 TooManyResults\n")
        .expect(&rt, "memory");
    assert_replayed(&rt, alloc, (EASY, EASY), &input, Status::Refused, &run);
}

/// In one transition at most 256 answers come from outside.
#[test]
fn the_most_answers_and_one_more(rt: HostRuntime) {
    let alloc = rt.alloc();
    let head = format!(in alloc; "{HEAD}%results\n").expect(&rt, "memory");
    let input = repeated(&rt, alloc, &head, "wait 0\n", 257);
    let mut text = repeated(&rt, alloc, PROBES, "wait 0\n", 256);
    text.push_str("unexpected 266\n").expect(&rt, "memory");
    assert_written(
        &rt,
        alloc,
        "replay",
        input.as_bytes(),
        Status::Unexpected,
        &text,
    );
}

/// The run of an input that says nothing.
const NOTHING: &str = "transition 1\ncomplete 1\n";

/// 16,777,216 bytes, and one more: in the head nothing is written then, and behind it the run so far.
const BYTES: &[LongRow] = &[
    LongRow {
        first: "",
        repeated: "\n",
        count: 16_777_216,
        status: Status::Done,
        text: NOTHING,
    },
    LongRow {
        first: "",
        repeated: "\n",
        count: 16_777_217,
        status: Status::TooLarge,
        text: "",
    },
    LongRow {
        first: "%results\n",
        repeated: "\n",
        count: 16_777_208,
        status: Status::TooLarge,
        text: NOTHING,
    },
];

#[test]
fn the_most_bytes_and_one_more(rt: HostRuntime) {
    assert_each_long(&rt, rt.alloc(), "replay", BYTES);
}
