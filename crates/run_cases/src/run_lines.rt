//! What is read of the lines of runs.

ghost use Rattle.cluster_types.specs.Valid.{IsValid};

use crate::starts::{CONFIGURATION, cluster_of};
use cluster_types::{Action, Answer, Cluster, NoReason, Op, Pin, Role, RunLine, Target};
use crm_lex::{Name, logical_lines};
use input_reading::{RunText, RunTextLine, TraceFault, WordCause, read_run};
use names::Names;
use std::alloc::Global;
use std::process::Abort;

fn read(
    rt: &impl Abort,
    alloc: Global,
    cluster: &Cluster,
    text: &str,
) -> Result<RunText, TraceFault>
    requires { IsValid cluster.now }
{
    assert!(rt; text.len() < 4_294_967_296);
    let lines = logical_lines(alloc, text.as_bytes()).expect(rt, "the words are read");
    let names = Names::new(alloc, cluster).expect(rt, "memory");
    read_run(alloc, &names, lines.as_slice())
}

/// There is one line, the first, which says this.
fn is_line(lines: &[RunTextLine], what: &RunLine) -> bool {
    match lines {
        [one] => one.line == 1 && one.what == *what,
        _ => false,
    }
}

/// The line is read so.
fn says(rt: &impl Abort, alloc: Global, cluster: &Cluster, text: &str, what: RunLine)
    requires { IsValid cluster.now }
{
    let run = read(rt, alloc, cluster, text).expect(rt, "the line is read");
    assert!(rt; is_line(run.lines.as_slice(), &what), "{text}");
}

fn targets_are_read(rt: &impl Abort, alloc: Global, cluster: &Cluster)
    requires { IsValid cluster.now }
{
    let unmanaged = RunLine::Pinned(0, Pin::Unmanaged);
    let promoted = RunLine::Goal(1, 1, Target::Promoted);
    let without_quorum = RunLine::Lacking(0, NoReason::NoQuorum);
    let id = Name::from_bytes(alloc, b"o-1.x_Y").expect(rt, "memory");
    let held = RunLine::Lacking(0, NoReason::Held(id));
    says(rt, alloc, cluster, "pinned vip unmanaged", unmanaged);
    says(rt, alloc, cluster, "target db n2 promoted", promoted);
    says(rt, alloc, cluster, "none vip NoQuorum", without_quorum);
    says(rt, alloc, cluster, "none vip Held o-1.x_Y", held);
}

/// Lines of begins, and their actions. A monitor has the role of its interval's statement.
const BEGINS: &[(&str, Action)] = &[
    ("begin 3 fence n2", Action::Fence { node: 1 }),
    ("begin 3 probe db n1", Action::Probe { leaf: 1, node: 0 }),
    (
        "begin 3 demote vip n2",
        Action::Operation {
            op: Op::Demote,
            leaf: 0,
            node: 1,
            interval_ms: 0,
            role: Role::Started,
        },
    ),
    (
        "begin 3 migrate_to vip n1 n2",
        Action::MigrateTo {
            leaf: 0,
            source: 0,
            target: 1,
        },
    ),
    (
        "begin 3 migrate_from vip n2 n1",
        Action::MigrateFrom {
            leaf: 0,
            source: 1,
            target: 0,
        },
    ),
    (
        "begin 3 monitor db n1 11000",
        Action::Operation {
            op: Op::Monitor,
            leaf: 1,
            node: 0,
            interval_ms: 11_000,
            role: Role::Promoted,
        },
    ),
];

#[test]
fn lines_are_read(rt: HostRuntime) {
    let alloc = rt.alloc();
    let cluster = cluster_of(&rt, alloc, CONFIGURATION);
    targets_are_read(&rt, alloc, &cluster);
    for (text, action) in BEGINS {
        says(&rt, alloc, &cluster, text, RunLine::Begin(3, *action));
    }
    let seconds = 1_099_511_627_775;
    let wait = RunLine::Taken(Answer::Wait { seconds });
    says(
        &rt,
        alloc,
        &cluster,
        "transition 01",
        RunLine::Transition(1),
    );
    says(&rt, alloc, &cluster, "wait 1099511627775", wait);
    let unexpected = RunLine::Unexpected(4_294_967_295);
    says(&rt, alloc, &cluster, "unexpected 4294967295", unexpected);
}

/// Lines, and the line and the cause of their fault.
const FAULTS: &[(&str, u32, WordCause)] = &[
    ("done", 1, WordCause::UnknownStatement),
    ("Transition 1", 1, WordCause::UnknownStatement),
    ("transition", 1, WordCause::MissingWord),
    ("transition 0", 1, WordCause::BadValue),
    ("transition 4294967296", 1, WordCause::BadValue),
    ("transition 1 2", 1, WordCause::ExtraWord),
    ("complete 1\n\naborted x 2", 3, WordCause::BadValue),
    ("pinned n1 blocked", 1, WordCause::UnknownName),
    ("pinned vip", 1, WordCause::MissingWord),
    ("pinned vip pinned", 1, WordCause::BadValue),
    ("pinned vip blocked now", 1, WordCause::ExtraWord),
    ("target vip vip started", 1, WordCause::UnknownName),
    ("target vip n1 nowhere", 1, WordCause::BadValue),
    ("target vip n1", 1, WordCause::MissingWord),
    ("none vip", 1, WordCause::MissingWord),
    ("none vip Noone", 1, WordCause::BadValue),
    ("none vip Stopped x", 1, WordCause::ExtraWord),
    ("none vip Held", 1, WordCause::MissingWord),
    ("none vip Held a=b", 1, WordCause::BadValue),
    ("none vip Held ''", 1, WordCause::BadValue),
    ("none vip Held o x", 1, WordCause::ExtraWord),
    ("begin 1", 1, WordCause::MissingWord),
    ("begin 1 notify vip n1", 1, WordCause::BadValue),
    ("begin 0 notify vip n1", 1, WordCause::BadValue),
    ("begin 1 fence vip", 1, WordCause::UnknownName),
    ("begin 1 monitor vip n1 0", 1, WordCause::BadValue),
    ("begin 1 start vip n1 0", 1, WordCause::ExtraWord),
    ("begin 1 migrate_to vip n1", 1, WordCause::MissingWord),
    ("end 1 256", 1, WordCause::BadValue),
    ("wait 1099511627776", 1, WordCause::BadValue),
];

/// The text is refused so.
fn refuses(rt: &impl Abort, alloc: Global, cluster: &Cluster, text: &str, fault: TraceFault)
    requires { IsValid cluster.now }
{
    let read = read(rt, alloc, cluster, text).err();
    assert!(rt; read == Some(fault), "{text}");
}

#[test]
fn faults_are_at_the_leftmost_word(rt: HostRuntime) {
    let cluster = cluster_of(&rt, rt.alloc(), CONFIGURATION);
    for (text, line, cause) in FAULTS {
        let fault = TraceFault::At {
            line: *line,
            cause: *cause,
        };
        refuses(&rt, rt.alloc(), &cluster, text, fault);
    }
}

/// A run that an outside program wrote.
const RUN: &str =
    "transition 1\ntarget vip n1 started\nbegin 1 probe vip n1\nbegin 2 probe vip n2\nend 1 7\nend 2 7\n\
    begin 3 start vip n1\nend 3 0\ncomplete 1\n";

#[test]
fn a_run_is_read(rt: HostRuntime) {
    let alloc = rt.alloc();
    let cluster = cluster_of(&rt, alloc, CONFIGURATION);
    let run = read(&rt, alloc, &cluster, RUN).expect(&rt, "the run is read");
    assert!(rt; run.lines.len() == 9);
}
