//! The transitions of worked examples.

ghost use Rattle.std.specs.Prelude.{◌≡◌, true};
ghost use Rattle.cluster_types.specs.Valid.{KeepsLimits};
ghost use Rattle.state_unpack.specs.Knowledge.{has_few_monitors};

use crate::shown_events::{DONE, FAILED, NOT_RUNNING, Shown, are_shown};
use crate::small_graphs::{PROBE_1, PROBE_2, Plan, START_1, executor_of};
use crate::starts::{TWO, start_of};
use cluster_types::{Action, Answer, Cluster, Edge, Event, Journal, Op, Outcome, Role};
use graph_exec::{End, Failing, Outcomes, Script, run_transition};
use std::alloc::Global;
use std::process::Abort;

const SECOND_OFFLINE: &str =
    "node n1\nnode n2\nprimitive vip IPaddr2\n%status\nnow 1000\nquorum yes\nnode n1 online\nnode n2 offline\n";

const ONE_AT_A_TIME: &str =
    "node n1\nnode n2\nprimitive vip IPaddr2\nproperty batch-limit=1\n%status\nnow 1000\nquorum yes\n\
    node n1 online\nnode n2 online\n";

const STOP_1: Action = Action::Operation {
    op: Op::Stop,
    leaf: 0,
    node: 0,
    interval_ms: 0,
    role: Role::Started,
};

const START_2: Action = Action::Operation {
    op: Op::Start,
    leaf: 0,
    node: 1,
    interval_ms: 0,
    role: Role::Started,
};

const FIRST_TO_SECOND: Edge = Edge {
    before: 0,
    after: 1,
};

/// The plan where nothing is known: both probes, and then the start on the first node.
pub(crate) const PROBED: Plan = (
    &[PROBE_1, PROBE_2, START_1],
    &[
        Edge {
            before: 0,
            after: 2,
        },
        Edge {
            before: 1,
            after: 2,
        },
    ],
);

const NOTHING: Plan = (&[], &[]);

/// A report of the resource on the first node.
const EARLY_REPORT: Answer = Answer::Report {
    node: 0,
    leaf: 0,
    interval_ms: 10_000,
    code: 7,
};

/// A transition: its plan, the answers that come in it, its events and its end.
type Transition = (Plan, &'static [Answer], &'static [Shown], End);

/// An input, and the transitions that follow from it.
type Row = (&'static str, &'static [Transition]);

const ROWS: &[Row] = &[
    // All ends as expected, in whatever order.
    (
        TWO,
        &[(
            PROBED,
            &[
                Answer::End { number: 2, code: 7 },
                Answer::End { number: 1, code: 7 },
                Answer::End { number: 3, code: 0 },
            ],
            &[
                Shown::Begin(1),
                Shown::Begin(2),
                Shown::End(2, NOT_RUNNING),
                Shown::End(1, NOT_RUNNING),
                Shown::Begin(3),
                Shown::End(3, DONE),
            ],
            End::Complete,
        )],
    ),
    // The start fails: the next plan stops it and starts on the other node.
    (
        TWO,
        &[
            (
                PROBED,
                &[
                    Answer::End { number: 1, code: 7 },
                    Answer::End { number: 2, code: 7 },
                    Answer::End { number: 3, code: 1 },
                ],
                &[
                    Shown::Begin(1),
                    Shown::Begin(2),
                    Shown::End(1, NOT_RUNNING),
                    Shown::End(2, NOT_RUNNING),
                    Shown::Begin(3),
                    Shown::End(3, FAILED),
                ],
                End::Aborted(Event::Ended {
                    number: 3,
                    action: START_1,
                    outcome: FAILED,
                    moment: 1000,
                }),
            ),
            (
                (&[STOP_1, START_2], &[FIRST_TO_SECOND]),
                &[],
                &[
                    Shown::Begin(1),
                    Shown::End(1, DONE),
                    Shown::Begin(2),
                    Shown::End(2, DONE),
                ],
                End::Complete,
            ),
        ],
    ),
    // No action has this number.
    (
        TWO,
        &[(
            PROBED,
            &[Answer::End { number: 9, code: 0 }],
            &[Shown::Begin(1), Shown::Begin(2)],
            End::Unexpected(Answer::End { number: 9, code: 0 }),
        )],
    ),
    // It hasn't begun.
    (
        TWO,
        &[(
            PROBED,
            &[Answer::End { number: 3, code: 0 }],
            &[Shown::Begin(1), Shown::Begin(2)],
            End::Unexpected(Answer::End { number: 3, code: 0 }),
        )],
    ),
    // A probe of the cell is in flight, so nothing is reported of it.
    (
        TWO,
        &[(
            PROBED,
            &[EARLY_REPORT],
            &[Shown::Begin(1), Shown::Begin(2)],
            End::Unexpected(EARLY_REPORT),
        )],
    ),
    // A probe is killed after its time.
    (
        TWO,
        &[(
            PROBED,
            &[
                Answer::End { number: 1, code: 7 },
                Answer::Timeout { number: 2 },
            ],
            &[
                Shown::Begin(1),
                Shown::Begin(2),
                Shown::End(1, NOT_RUNNING),
                Shown::End(2, Outcome::TimedOut),
            ],
            End::Aborted(Event::Ended {
                number: 2,
                action: PROBE_2,
                outcome: Outcome::TimedOut,
                moment: 1000,
            }),
        )],
    ),
    // A node joins: what is in flight ends, and the next plan probes there.
    (
        SECOND_OFFLINE,
        &[
            (
                (&[PROBE_1, START_1], &[FIRST_TO_SECOND]),
                &[Answer::Up { node: 1 }],
                &[
                    Shown::Begin(1),
                    Shown::Other(Event::Up { node: 1 }),
                    Shown::End(1, NOT_RUNNING),
                ],
                End::Aborted(Event::Up { node: 1 }),
            ),
            (
                (&[PROBE_2, START_1], &[FIRST_TO_SECOND]),
                &[],
                &[
                    Shown::Begin(1),
                    Shown::End(1, NOT_RUNNING),
                    Shown::Begin(2),
                    Shown::End(2, DONE),
                ],
                End::Complete,
            ),
        ],
    ),
    // Quorum is lost: nothing may be started any more.
    (
        TWO,
        &[
            (
                PROBED,
                &[Answer::Quorum { yes: false }],
                &[
                    Shown::Begin(1),
                    Shown::Begin(2),
                    Shown::Other(Event::Quorum { yes: false }),
                    Shown::End(1, NOT_RUNNING),
                    Shown::End(2, NOT_RUNNING),
                ],
                End::Aborted(Event::Quorum { yes: false }),
            ),
            (NOTHING, &[], &[], End::Complete),
        ],
    ),
    // A node is lost: what is in flight on it is gone first.
    (
        TWO,
        &[(
            PROBED,
            &[Answer::Lost { node: 0 }, Answer::End { number: 2, code: 7 }],
            &[
                Shown::Begin(1),
                Shown::Begin(2),
                Shown::End(1, Outcome::Gone),
                Shown::Other(Event::Lost { node: 0 }),
                Shown::End(2, NOT_RUNNING),
            ],
            End::Aborted(Event::Lost { node: 0 }),
        )],
    ),
    // One action at a time.
    (
        ONE_AT_A_TIME,
        &[(
            PROBED,
            &[],
            &[
                Shown::Begin(1),
                Shown::End(1, NOT_RUNNING),
                Shown::Begin(2),
                Shown::End(2, NOT_RUNNING),
                Shown::Begin(3),
                Shown::End(3, DONE),
            ],
            End::Complete,
        )],
    ),
];

pub(crate) fn script_of(rt: &impl Abort, alloc: Global, answers: &[Answer]) -> Script {
    let answers = answers.to_vec(alloc).expect(rt, "memory");
    assert!(rt; answers.len() < 4_294_967_296);
    Script::new(answers)
}

/// Carries a transition out, and compares what comes of it.
fn carry_out(
    rt: &impl Abort,
    alloc: Global,
    cluster: &Cluster,
    journal: Journal,
    transition: &Transition,
) -> Journal
    requires limits { KeepsLimits cluster.now }
    requires monitors { has_few_monitors cluster.now ≡ true }
{
    let (plan, answers, events, expected) = transition;
    let from = journal.events.len();
    let mut executor = executor_of(rt, alloc, cluster, journal, *plan);
    let mut script = script_of(rt, alloc, answers);
    let end = run_transition(&mut executor, &mut script);
    assert!(rt; end == *expected);
    let journal = executor.into_journal();
    assert!(rt; are_shown(journal.events.as_slice(), from, events));
    journal
}

fn check_row(rt: &impl Abort, alloc: Global, row: &Row) {
    let (text, transitions) = row;
    let (cluster, mut journal) = start_of(rt, alloc, text);
    for transition in *transitions {
        journal = carry_out(rt, alloc, &cluster, journal, transition);
    }
}

#[test]
fn transitions_go_as_worked_out_by_hand(rt: HostRuntime) {
    for row in ROWS {
        check_row(&rt, rt.alloc(), row);
    }
}

/// How a transition stops, and how it ends where it then goes on.
fn ends_of<S: Outcomes>(rt: &impl Abort, alloc: Global, source: &mut S) -> [End; 2] {
    let (cluster, journal) = start_of(rt, alloc, TWO);
    let mut executor = executor_of(rt, alloc, &cluster, journal, PROBED);
    let first = run_transition(&mut executor, source);
    let second = run_transition(&mut executor, source);
    let _journal = executor.into_journal();
    [first, second]
}

#[test]
fn a_transition_goes_on_after_an_answer_that_does_not_apply(rt: HostRuntime) {
    let answer = Answer::End { number: 3, code: 0 };
    let mut script = script_of(&rt, rt.alloc(), &[answer]);
    let ends = ends_of(&rt, rt.alloc(), &mut script);
    assert!(rt; ends == [End::Unexpected(answer), End::Complete] && script.taken() == 1);
}

#[test]
fn a_transition_goes_on_after_a_fault(rt: HostRuntime) {
    let alloc = rt.alloc();
    let mut source = Failing::new(Vec::new(alloc), [1].to_vec(alloc).expect(&rt, "memory"));
    let ends = ends_of(&rt, alloc, &mut source);
    assert!(rt; ends == [End::SourceFault, End::Complete]);
}

const WAIT: Answer = Answer::Wait { seconds: 0 };

const WAITS: [Answer; 257] = [WAIT; 257];

#[test]
fn a_transition_takes_256_answers_from_outside(rt: HostRuntime) {
    let alloc = rt.alloc();
    let (cluster, journal) = start_of(&rt, alloc, TWO);
    let from = journal.events.len();
    let mut executor = executor_of(&rt, alloc, &cluster, journal, PROBED);
    let mut script = script_of(&rt, alloc, &WAITS);
    let end = run_transition(&mut executor, &mut script);
    let journal = executor.into_journal();
    assert!(rt; end == End::Unexpected(WAIT));
    assert!(rt; journal.events.len() == from + 258 && script.taken() == 257);
}
