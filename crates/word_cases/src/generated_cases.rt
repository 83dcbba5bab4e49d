//! Cases are read as any other input, and what the word `gen` writes of them.

use crate::outcome::{Call, EASY, Pace, assert_outcome, easy};
use cases::generate;
use input_reading::{Input, read_input};
use sim_core::Status;
use std::alloc::Global;
use std::process::Abort;

/// It has as many nodes, resources, rules and results as each case.
fn is_case(input: &Input) -> bool {
    let cluster = &input.head.cluster;
    cluster.nodes.len() == 60
        && cluster.leaves.len() == 400
        && cluster.locations.len() == 300
        && cluster.colocations.len() == 80 + 150
        && cluster.orders.len() == 80 + 100
        && input.results.len() == 1
}

fn assert_read(rt: &impl Abort, alloc: Global, number: u32) {
    let text = generate(alloc, number).expect(rt, "memory");
    assert!(rt; text.len() < 100_000);
    let input = read_input(alloc, text).expect(rt, "the case is read");
    assert!(rt; is_case(&input));
}

#[test]
fn cases_are_read(rt: HostRuntime) {
    assert_read(&rt, rt.alloc(), 7);
    assert_read(&rt, rt.alloc(), 8);
}

fn assert_generated(
    rt: &impl Abort,
    alloc: Global,
    number: &str,
    writes: Pace<'_>,
    status: Status,
    text: &str,
) {
    let words = ["gen", number];
    let call = Call {
        writes,
        ..easy(&words, b"")
    };
    assert_outcome(rt, alloc, &call, status, text);
}

/// What is written of the case of a number, and of another.
const SEVENTH: &str = "\
gen 7
lost n5
nodes 60
leaves 400
transitions 2
begun 24601
succeeded 24201
targets 400
";

const EIGHTH: &str = "\
gen 8
lost n35
nodes 60
leaves 400
transitions 2
begun 24601
succeeded 24201
targets 400
";

#[test]
fn the_summary_of_a_case(rt: HostRuntime) {
    assert_generated(&rt, rt.alloc(), "7", EASY, Status::Done, SEVENTH);
}

#[test]
fn the_summary_of_another_case(rt: HostRuntime) {
    assert_generated(&rt, rt.alloc(), "8", EASY, Status::Done, EIGHTH);
}

#[test]
fn a_summary_that_is_cut_short(rt: HostRuntime) {
    let writes = Pace {
        step: 3,
        fails: &[2],
    };
    assert_generated(&rt, rt.alloc(), "7", writes, Status::WriteFault, "gen");
}
