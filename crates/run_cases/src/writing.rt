//! What is written of runs.

ghost use Rattle.trace_text.specs.RunLines.{HasNamedRule, HasShortNames, IsReasonNamed};

use crate::small_graphs::{PROBE_1, PROBE_2, START_1};
use crate::starts::{CONFIGURATION, cluster_of};
use cluster_types::{
    Action, Answer, Cluster, Event, Journal, NoReason, Op, Outcome, Passed, PassedEnd, Pin, Role,
    Run, Table, Target,
};
use crm_lex::Name;
use listed::Listed;
use std::alloc::Global;
use std::process::Abort;
use trace_text::{LineBuf, RunLineRef, run_text, valid_clusters_have_short_names, write_line};

/// Adds a line to a text.
fn add(rt: &impl Abort, text: &mut Vec<u8>, cluster: &Cluster, line: &RunLineRef<'_>)
    requires names { HasShortNames cluster.now }
    requires reason { HasNamedRule line.now }
{
    let mut buf = LineBuf::new();
    write_line(cluster, line, &mut buf);
    text.extend_from_slice(buf.as_slice()).expect(rt, "memory");
}

fn add_targets(rt: &impl Abort, text: &mut Vec<u8>, cluster: &Cluster)
    requires { HasShortNames cluster.now }
{
    add(rt, text, cluster, &RunLineRef::Transition(1));
    add(rt, text, cluster, &RunLineRef::Pinned(0, Pin::Unmanaged));
    add(rt, text, cluster, &RunLineRef::Pinned(1, Pin::Blocked));
    add(rt, text, cluster, &RunLineRef::Goal(0, 1, Target::Started));
    add(rt, text, cluster, &RunLineRef::Goal(1, 0, Target::Promoted));
}

fn add_reason(rt: &impl Abort, text: &mut Vec<u8>, cluster: &Cluster, reason: &NoReason)
    requires names { HasShortNames cluster.now }
    requires named { IsReasonNamed reason.now }
{
    add(rt, text, cluster, &RunLineRef::Lacking(0, reason));
}

fn add_reasons(rt: &impl Abort, text: &mut Vec<u8>, cluster: &Cluster, alloc: Global)
    requires { HasShortNames cluster.now }
{
    add_reason(rt, text, cluster, &NoReason::NoCopies);
    add_reason(rt, text, cluster, &NoReason::Stopped);
    add_reason(rt, text, cluster, &NoReason::OnFail);
    add_reason(rt, text, cluster, &NoReason::StopAll);
    add_reason(rt, text, cluster, &NoReason::NoQuorum);
    add_reason(rt, text, cluster, &NoReason::NoNode);
    let id = Name::from_bytes(alloc, b"o").expect(rt, "memory");
    add_reason(rt, text, cluster, &NoReason::Held(id));
}

const BEGINS: &[(u32, Action)] = &[
    (1, Action::Fence { node: 1 }),
    (4_294_967_295, PROBE_1),
    (3, START_1),
    (
        4,
        Action::Operation {
            op: Op::Stop,
            leaf: 0,
            node: 1,
            interval_ms: 0,
            role: Role::Started,
        },
    ),
    (
        5,
        Action::Operation {
            op: Op::Promote,
            leaf: 0,
            node: 0,
            interval_ms: 0,
            role: Role::Started,
        },
    ),
    (
        6,
        Action::Operation {
            op: Op::Demote,
            leaf: 0,
            node: 1,
            interval_ms: 0,
            role: Role::Started,
        },
    ),
    (
        7,
        Action::Operation {
            op: Op::Monitor,
            leaf: 0,
            node: 0,
            interval_ms: 10_000,
            role: Role::Started,
        },
    ),
    (
        8,
        Action::MigrateTo {
            leaf: 0,
            source: 0,
            target: 1,
        },
    ),
    (
        9,
        Action::MigrateFrom {
            leaf: 0,
            source: 0,
            target: 1,
        },
    ),
];

const ANSWERS: &[Answer] = &[
    Answer::End { number: 1, code: 0 },
    Answer::End {
        number: 2,
        code: 255,
    },
    Answer::Timeout { number: 3 },
    Answer::Lost { node: 0 },
    Answer::Up { node: 1 },
    Answer::Quorum { yes: true },
    Answer::Quorum { yes: false },
    Answer::Wait {
        seconds: 1_099_511_627_775,
    },
    Answer::Report {
        node: 1,
        leaf: 0,
        interval_ms: 10_000,
        code: 7,
    },
];

fn add_steps(rt: &impl Abort, text: &mut Vec<u8>, cluster: &Cluster)
    requires { HasShortNames cluster.now }
{
    for (number, action) in BEGINS {
        add(rt, text, cluster, &RunLineRef::Begin(*number, *action));
    }
    for answer in ANSWERS {
        add(rt, text, cluster, &RunLineRef::Taken(*answer));
    }
}

fn add_ends(rt: &impl Abort, text: &mut Vec<u8>, cluster: &Cluster)
    requires { HasShortNames cluster.now }
{
    add(rt, text, cluster, &RunLineRef::Complete(1));
    add(rt, text, cluster, &RunLineRef::Aborted(2));
    add(rt, text, cluster, &RunLineRef::Unexpected(13));
}

/// What is written below.
const LINES: &[u8] =
    b"transition 1\npinned vip unmanaged\npinned db blocked\ntarget vip n2 started\n\
    target db n1 promoted\nnone vip NoCopies\nnone vip Stopped\nnone vip OnFail\nnone vip StopAll\n\
    none vip NoQuorum\nnone vip NoNode\nnone vip Held o\nbegin 1 fence n2\nbegin 4294967295 probe vip n1\n\
    begin 3 start vip n1\nbegin 4 stop vip n2\nbegin 5 promote vip n1\nbegin 6 demote vip n2\n\
    begin 7 monitor vip n1 10000\nbegin 8 migrate_to vip n1 n2\nbegin 9 migrate_from vip n1 n2\n\
    end 1 0\nend 2 255\ntimeout 3\nlost n1\nup n2\nquorum yes\nquorum no\nwait 1099511627775\n\
    report n2 vip 10000 7\ncomplete 1\naborted 2\nunexpected 13\n";

#[test]
fn each_line_is_written(rt: HostRuntime) {
    let alloc = rt.alloc();
    let cluster = cluster_of(&rt, alloc, CONFIGURATION);
    valid_clusters_have_short_names();
    let mut text = Vec::new(alloc);
    add_targets(&rt, &mut text, &cluster);
    add_reasons(&rt, &mut text, &cluster, alloc);
    add_steps(&rt, &mut text, &cluster);
    add_ends(&rt, &mut text, &cluster);
    assert!(rt; text.as_slice() == LINES);
}

/// Two nodes and a resource.
const SMALL: &str = "node n1\nnode n2\nprimitive vip IPaddr2\n";

/// The node n2 joins while n1 is probed, and then the resource is started there. The first event is of the status.
const EVENTS: &[Event] = &[
    Event::Up { node: 0 },
    Event::Begin {
        number: 1,
        action: PROBE_1,
    },
    Event::Up { node: 1 },
    Event::Ended {
        number: 1,
        action: PROBE_1,
        outcome: Outcome::Code(7),
        moment: 1000,
    },
    Event::Wait { seconds: 5 },
    Event::Begin {
        number: 1,
        action: PROBE_2,
    },
    Event::Ended {
        number: 1,
        action: PROBE_2,
        outcome: Outcome::Code(7),
        moment: 1000,
    },
    Event::Begin {
        number: 2,
        action: START_1,
    },
    Event::Ended {
        number: 2,
        action: START_1,
        outcome: Outcome::Code(0),
        moment: 1000,
    },
    Event::Quorum { yes: false },
];

/// A transition with a target on the first node.
fn passed(rt: &impl Abort, alloc: Global, begins_at: u32, ends_at: u32, end: PassedEnd) -> Passed {
    let mut pins = Listed::new(alloc);
    pins.push(None).expect(rt, "memory");
    let mut none = Listed::new(alloc);
    none.push(None).expect(rt, "memory");
    let targets = [Target::Started, Target::Nowhere]
        .to_vec(alloc)
        .expect(rt, "memory");
    Passed {
        pins,
        table: Table {
            nodes: 2,
            targets: Listed::from(targets),
        },
        none,
        begins_at,
        ends_at,
        end,
    }
}

fn run_of(rt: &impl Abort, alloc: Global) -> Run {
    let events = EVENTS.to_vec(alloc).expect(rt, "memory");
    let mut transitions = Listed::new(alloc);
    transitions
        .push(passed(rt, alloc, 1, 4, PassedEnd::Aborted))
        .expect(rt, "memory");
    transitions
        .push(passed(rt, alloc, 5, 9, PassedEnd::Complete))
        .expect(rt, "memory");
    Run {
        passed: transitions,
        journal: Journal {
            events: Listed::from(events),
            promotions: Listed::new(alloc),
        },
    }
}

/// What is written of it.
const RUN: &[u8] =
    b"transition 1\ntarget vip n1 started\nbegin 1 probe vip n1\nup n2\nend 1 7\naborted 1\nwait 5\n\
    transition 2\ntarget vip n1 started\nbegin 1 probe vip n2\nend 1 7\nbegin 2 start vip n1\nend 2 0\ncomplete 2\nquorum no\n";

#[test]
fn a_run_is_written(rt: HostRuntime) {
    let alloc = rt.alloc();
    let cluster = cluster_of(&rt, alloc, SMALL);
    valid_clusters_have_short_names();
    let run = run_of(&rt, alloc);
    assert!(rt; run.passed.len() < 4_294_967_295);
    let text = run_text(alloc, &cluster, &run).expect(&rt, "memory");
    assert!(rt; text.as_slice() == RUN);
}
