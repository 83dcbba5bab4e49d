//! What the word `check` writes of the longest inputs with one more, and over a source and a sink that fail.

use crate::long_inputs::{LongRow, assert_each_long};
use crate::outcome::{Call, Pace, SLOW, assert_outcome, assert_written, easy, outcome_of};
use sim_core::Status;
use std::alloc::Global;
use std::process::Abort;

const NOTHING: &str = "# nodes 0 leaves 0 rules 0\n";

/// The most results, and one more; and a rule too many.
const RULES_AND_RESULTS: &[LongRow] = &[
    LongRow {
        first: "%results\n",
        repeated: "wait 0\n",
        count: 10_000,
        status: Status::Done,
        text: NOTHING,
    },
    LongRow {
        first: "%results\n",
        repeated: "wait 0\n",
        count: 10_001,
        status: Status::Refused,
        text: "refused 10002 TooManyResults\n",
    },
    LongRow {
        first: "primitive a Dummy\norder o Serialize:",
        repeated: " a",
        count: 2_002,
        status: Status::Refused,
        text: "refused 2 TooManyRules\n",
    },
];

#[test]
fn the_most_rules_and_results_and_one_more(rt: HostRuntime) {
    assert_each_long(&rt, rt.alloc(), "check", RULES_AND_RESULTS);
}

/// As many nodes, or as many primitives.
fn numbered(rt: &impl Abort, alloc: Global, word: &str, after: &str, count: u32) -> String {
    let mut text = String::new(alloc);
    for n in 1..=count {
        writeln!(text, "{word} x{n}{after}").expect(rt, "memory");
    }
    text
}

#[test]
fn too_many_nodes_and_leaves(rt: HostRuntime) {
    let alloc = rt.alloc();
    let nodes = numbered(&rt, alloc, "node", "", 257);
    let fault = "refused 257 TooManyNodes\n";
    assert_written(
        &rt,
        alloc,
        "check",
        nodes.as_bytes(),
        Status::Refused,
        fault,
    );
    let leaves = numbered(&rt, alloc, "primitive", " Dummy", 1_001);
    let fault = "refused 1001 TooManyLeaves\n";
    assert_written(
        &rt,
        alloc,
        "check",
        leaves.as_bytes(),
        Status::Refused,
        fault,
    );
}

/// Comments of so many letters behind their `#`.
const LINES: &[LongRow] = &[
    LongRow {
        first: "#",
        repeated: "a",
        count: 1_048_575,
        status: Status::Done,
        text: NOTHING,
    },
    LongRow {
        first: "#",
        repeated: "a",
        count: 1_048_576,
        status: Status::Refused,
        text: "refused 1 LineTooLong\n",
    },
];

#[test]
fn the_longest_line_and_one_byte_more(rt: HostRuntime) {
    assert_each_long(&rt, rt.alloc(), "check", LINES);
}

#[test]
fn a_source_that_fails(rt: HostRuntime) {
    let reads = Pace {
        step: 5,
        fails: &[2],
    };
    let call = Call {
        reads,
        ..easy(&["check"], b"node n1\n")
    };
    assert_outcome(&rt, rt.alloc(), &call, Status::ReadFault, "");
}

/// The write of this number fails, behind what was written before.
fn assert_write_fails(rt: &impl Abort, alloc: Global, number: u32, before: &[u8]) {
    let fails = [number];
    let writes = Pace {
        step: 1,
        fails: &fails,
    };
    let call = Call {
        words: &["check"],
        input: b"node n1\n",
        reads: SLOW,
        writes,
    };
    let made = outcome_of(rt, alloc, &call);
    assert!(rt; made.is(Status::WriteFault, before), "write {number}");
}

#[test]
fn a_sink_that_fails_at_each_write_in_turn(rt: HostRuntime) {
    let whole = b"node n1\n# nodes 1 leaves 0 rules 0\n";
    for place in 0..whole.len() {
        assert_write_fails(&rt, rt.alloc(), place as u32 + 1, &whole[..place]);
    }
}
