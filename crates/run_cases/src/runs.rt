//! The runs of worked examples, line by line.

use crate::starts::{TWO, start_of};
use crate::transitions::script_of;
use crate::watching::{Follower, Line};
use cluster_types::{Answer, Journal, Run as KeptRun};
use graph_exec::{Failing, Outcomes, ReplayStop, replay, replay_watched};
use std::alloc::Global;
use std::process::Abort;

/// The resource runs on the second node, and stays there while it can.
pub(crate) const RUNNING: &str =
    "node n1\nnode n2\nprimitive vip IPaddr2\nrsc_defaults resource-stickiness=100\n%status\nnow 1000\nquorum yes\n\
    node n1 online\nnode n2 online\nop n2 vip start 0 0 900\nop n1 vip monitor 0 7 900\n";

/// How a run ends, in short.
enum Ending {
    Whole,
    Unexpected(Answer),
    SourceFault,
    Most,
}

/// An input, how many transitions are allowed, the lines that are told, and how the run ends.
type Run = (&'static str, u32, &'static [Line], Ending);

/// The answers that come, and the run.
const ROWS: &[(&[Answer], Run)] = &[
    // The start fails: the next transition stops it there and starts on the other node.
    (
        &[
            Answer::End { number: 1, code: 7 },
            Answer::End { number: 2, code: 7 },
            Answer::End { number: 3, code: 1 },
        ],
        (
            TWO,
            4,
            &[
                Line::Transition(1, Some(0)),
                Line::Begin(1),
                Line::Begin(2),
                Line::Taken(Answer::End { number: 1, code: 7 }),
                Line::Taken(Answer::End { number: 2, code: 7 }),
                Line::Begin(3),
                Line::Taken(Answer::End { number: 3, code: 1 }),
                Line::Aborted(1),
                Line::Transition(2, Some(1)),
                Line::Begin(1),
                Line::Taken(Answer::End { number: 1, code: 0 }),
                Line::Begin(2),
                Line::Taken(Answer::End { number: 2, code: 0 }),
                Line::Complete(2),
            ],
            Ending::Whole,
        ),
    ),
    // The node is lost while nothing is to be done: it is fenced, and the resource starts on the other.
    (
        &[Answer::Lost { node: 1 }],
        (
            RUNNING,
            2,
            &[
                Line::Transition(1, Some(1)),
                Line::Complete(1),
                Line::Taken(Answer::Lost { node: 1 }),
                Line::Transition(2, Some(0)),
                Line::Begin(1),
                Line::Taken(Answer::End { number: 1, code: 0 }),
                Line::Begin(2),
                Line::Taken(Answer::End { number: 2, code: 0 }),
                Line::Complete(2),
            ],
            Ending::Whole,
        ),
    ),
    // The same, with one transition allowed.
    (
        &[Answer::Lost { node: 1 }],
        (
            RUNNING,
            1,
            &[
                Line::Transition(1, Some(1)),
                Line::Complete(1),
                Line::Taken(Answer::Lost { node: 1 }),
            ],
            Ending::Most,
        ),
    ),
    // The node comes up again then, and two transitions are allowed: no third one is made.
    (
        &[
            Answer::Lost { node: 1 },
            Answer::End { number: 1, code: 0 },
            Answer::End { number: 2, code: 0 },
            Answer::Up { node: 1 },
        ],
        (
            RUNNING,
            2,
            &[
                Line::Transition(1, Some(1)),
                Line::Complete(1),
                Line::Taken(Answer::Lost { node: 1 }),
                Line::Transition(2, Some(0)),
                Line::Begin(1),
                Line::Taken(Answer::End { number: 1, code: 0 }),
                Line::Begin(2),
                Line::Taken(Answer::End { number: 2, code: 0 }),
                Line::Complete(2),
                Line::Taken(Answer::Up { node: 1 }),
            ],
            Ending::Most,
        ),
    ),
    // No action has this number.
    (
        &[Answer::End { number: 9, code: 0 }],
        (
            TWO,
            2,
            &[Line::Transition(1, Some(0)), Line::Begin(1), Line::Begin(2)],
            Ending::Unexpected(Answer::End { number: 9, code: 0 }),
        ),
    ),
];

/// The source fails at its second question.
const BROKEN_OFF: &Run = &(
    TWO,
    2,
    &[
        Line::Transition(1, Some(0)),
        Line::Begin(1),
        Line::Begin(2),
        Line::Taken(Answer::End { number: 1, code: 7 }),
    ],
    Ending::SourceFault,
);

fn ends_so(made: &Result<Journal, ReplayStop<Journal>>, expected: &Ending) -> bool {
    match (made, expected) {
        (Ok(_), Ending::Whole) => true,
        (Err(ReplayStop::Most(_)), Ending::Most) => true,
        (Err(ReplayStop::SourceFault(_)), Ending::SourceFault) => true,
        (Err(ReplayStop::Unexpected(_, answer)), Ending::Unexpected(expected)) => {
            *answer == *expected
        }
        _ => false,
    }
}

fn follow<S: Outcomes>(rt: &impl Abort, alloc: Global, source: &mut S, run: &Run) {
    let (text, most, lines, expected) = run;
    let (cluster, journal) = start_of(rt, alloc, text);
    let mut follower = Follower::new(lines, u32::MAX);
    let made = replay_watched(alloc, &cluster, journal, source, &mut follower, *most);
    assert!(rt; follower.has_heard_all() && ends_so(&made, expected));
}

#[test]
fn runs_go_as_worked_out(rt: HostRuntime) {
    let alloc = rt.alloc();
    for (answers, run) in ROWS {
        let mut script = script_of(&rt, alloc, answers);
        follow(&rt, alloc, &mut script, run);
    }
}

#[test]
fn a_fault_breaks_a_run_off(rt: HostRuntime) {
    let alloc = rt.alloc();
    let mut source = Failing::new(Vec::new(alloc), [2].to_vec(alloc).expect(&rt, "memory"));
    follow(&rt, alloc, &mut source, BROKEN_OFF);
}

/// One transition was made and is kept, and another is due.
fn has_made_most(made: &Result<KeptRun, ReplayStop<KeptRun>>) -> bool {
    match made {
        Err(ReplayStop::Most(run)) => run.passed.len() == 1,
        _ => false,
    }
}

#[test]
fn a_kept_run_ends_where_no_more_transitions_are_allowed(rt: HostRuntime) {
    let alloc = rt.alloc();
    let (cluster, journal) = start_of(&rt, alloc, RUNNING);
    let mut script = script_of(&rt, alloc, &[Answer::Lost { node: 1 }]);
    let made = replay(alloc, &cluster, journal, &mut script, 1);
    assert!(rt; has_made_most(&made));
}
