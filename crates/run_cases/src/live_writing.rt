//! Lines as they are written.

ghost use Rattle.std.specs.Prelude.{◌≡◌, []};
ghost use Rattle.cluster_types.specs.Valid.{IsValid};
ghost use Rattle.graph_exec.specs.WatcherLines.{ReasonsHaveNames};

use crate::recorder::Recorder;
use crate::starts::{TWO, cluster_of};
use cluster_io::{MemorySink, Sink};
use cluster_types::{Action, Answer, Cluster, Placed, Table, Target};
use graph_exec::{Heard, Watcher};
use listed::Listed;
use live_run::{HeldText, LineWriter};
use std::alloc::Global;
use std::process::Abort;

/// Where the resource is to be started on the second node.
fn on_second(rt: &impl Abort, alloc: Global) -> Placed
    ensures { result.none ≡ [] }
{
    let targets = [Target::Nowhere, Target::Started]
        .to_vec(alloc)
        .expect(rt, "memory");
    Placed {
        decided: Listed::new(alloc),
        table: Table {
            nodes: 2,
            targets: Listed::from(targets),
        },
        pins: Listed::new(alloc),
        none: Listed::new(alloc),
    }
}

/// A plan, a begin, an answer and an end are told, and then that the source is asked.
fn tell<V: Watcher>(watcher: &mut V, placed: &Placed) -> [Heard; 5]
    requires { ReasonsHaveNames placed.now }
{
    let probe = Action::Probe { leaf: 0, node: 0 };
    [
        watcher.planned(1, placed),
        watcher.begun(1, probe),
        watcher.taken(Answer::End { number: 1, code: 7 }),
        watcher.closed(1, true),
        watcher.waits(),
    ]
}

/// A writer is told them.
fn tell_writer<'s, W: Sink>(
    cluster: &Cluster,
    sink: &'s mut W,
    held: &'s mut HeldText,
    placed: &Placed,
) -> [Heard; 5]
    requires valid { IsValid cluster.now }
    requires empty { held.old ≡ [] }
    requires named { ReasonsHaveNames placed.now }
{
    let mut writer = LineWriter::new(cluster, sink, held);
    tell(&mut writer, placed)
}

const GO: Heard = Heard::Go;

const STOP: Heard = Heard::Stop;

/// How many bytes a write takes, which writes fail, what the writer says at last, and what is written.
type Row = (usize, &'static [u32], Heard, &'static str);

const ROWS: &[Row] = &[
    (
        1000,
        &[],
        GO,
        "transition 1\ntarget vip n2 started\nbegin 1 probe vip n1\nend 1 7\ncomplete 1\n",
    ),
    // All lines leave by one write.
    (1000, &[1], STOP, ""),
    (
        1000,
        &[2],
        GO,
        "transition 1\ntarget vip n2 started\nbegin 1 probe vip n1\nend 1 7\ncomplete 1\n",
    ),
    // A part of a line is written.
    (20, &[2], STOP, "transition 1\ntarget "),
];

fn check_row(rt: &impl Abort, alloc: Global, cluster: &Cluster, placed: &Placed, row: &Row)
    requires valid { IsValid cluster.now }
    requires named { ReasonsHaveNames placed.now }
{
    let (step, fails, last, text) = row;
    assert!(rt; *step > 0);
    let fails = fails.to_vec(alloc).expect(rt, "memory");
    let mut sink = MemorySink::new(alloc, 1000, *step, fails).expect(rt, "memory");
    let mut held = HeldText::new(alloc).expect(rt, "memory");
    let said = tell_writer(cluster, &mut sink, &mut held, placed);
    assert!(rt; said == [GO, GO, GO, GO, *last] && sink.bytes() == text.as_bytes());
}

#[test]
fn lines_leave_together_when_the_source_is_asked(rt: HostRuntime) {
    let cluster = cluster_of(&rt, rt.alloc(), TWO);
    let placed = on_second(&rt, rt.alloc());
    for row in ROWS {
        check_row(&rt, rt.alloc(), &cluster, &placed, row);
    }
}

/// The lines that are told, and what is left of them behind 40 bytes.
const LINES: &[u8] =
    b"transition 1\ntarget vip n2 started\nbegin 1 probe vip n1\nend 1 7\ncomplete 1\n";

const LEFT: &[u8] = b" 1 probe vip n1\nend 1 7\ncomplete 1\n";

/// How many bytes a write takes, and the pieces that are offered.
const OFFERED: &[(usize, &[&[u8]])] = &[(1000, &[LINES]), (40, &[LINES, LEFT])];

#[test]
fn lines_leave_as_one_piece(rt: HostRuntime) {
    let alloc = rt.alloc();
    let cluster = cluster_of(&rt, alloc, TWO);
    let placed = on_second(&rt, alloc);
    for (step, pieces) in OFFERED {
        let mut sink = Recorder::new(alloc, *step);
        let mut held = HeldText::new(alloc).expect(&rt, "memory");
        let said = tell_writer(&cluster, &mut sink, &mut held, &placed);
        assert!(&rt; said == [GO; 5] && sink.has(pieces));
    }
}

/// So many begins are told, of which each line has 21 bytes: some 3,120 lines are held back at most.
fn begin_often(watcher: &mut impl Watcher, times: u32) -> bool {
    let probe = Action::Probe { leaf: 0, node: 0 };
    let mut goes = true;
    for _ in 0..times {
        goes = goes && watcher.begun(1, probe) == GO;
    }
    goes
}

#[test]
fn what_does_not_fit_leaves_before(rt: HostRuntime) {
    let alloc = rt.alloc();
    let cluster = cluster_of(&rt, alloc, TWO);
    let mut sink = MemorySink::new(alloc, 100_000, 100_000, Vec::new(alloc)).expect(&rt, "memory");
    let mut held = HeldText::new(alloc).expect(&rt, "memory");
    let goes = begin_often(&mut LineWriter::new(&cluster, &mut sink, &mut held), 4_000);
    assert!(&rt; goes && sink.bytes().len() == 65_520);
}
