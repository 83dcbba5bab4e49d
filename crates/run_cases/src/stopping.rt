//! A watcher that stops.

ghost use Rattle.std.specs.Prelude.{◌≡◌, true};
ghost use Rattle.cluster_types.specs.Valid.{KeepsLimits};
ghost use Rattle.state_unpack.specs.Knowledge.{has_few_monitors};

use crate::shown_events::{NOT_RUNNING, Shown, are_shown};
use crate::small_graphs::{PROBE_1, PROBE_2, Plan, executor_of};
use crate::starts::start_of;
use crate::watching::{Follower, Line};
use cluster_types::{Answer, Cluster, Journal};
use graph_exec::{Script, WatchedEnd, run_watched};
use std::alloc::Global;
use std::process::Abort;

const TEXT: &str =
    "node n1\nnode n2\nprimitive a Dummy\n%status\nnow 5\nquorum yes\nnode n1 online\nnode n2 online\n";

const PROBES: Plan = (&[PROBE_1, PROBE_2], &[]);

/// What the watcher is told, until it stops.
const TOLD: &[Line] = &[
    Line::Begin(1),
    Line::Begin(2),
    Line::Taken(Answer::End { number: 1, code: 7 }),
    Line::Taken(Answer::End { number: 2, code: 7 }),
];

/// How often the watcher goes on, how the transition ends, and what has happened by then.
type Row = (u32, WatchedEnd, &'static [Shown]);

const ROWS: &[Row] = &[
    (0, WatchedEnd::Stopped, &[Shown::Begin(1)]),
    (1, WatchedEnd::Stopped, &[Shown::Begin(1), Shown::Begin(2)]),
    (
        2,
        WatchedEnd::Stopped,
        &[Shown::Begin(1), Shown::Begin(2), Shown::End(1, NOT_RUNNING)],
    ),
    (
        4,
        WatchedEnd::Complete,
        &[
            Shown::Begin(1),
            Shown::Begin(2),
            Shown::End(1, NOT_RUNNING),
            Shown::End(2, NOT_RUNNING),
        ],
    ),
];

fn stops_so(rt: &impl Abort, alloc: Global, cluster: &Cluster, journal: Journal, row: &Row)
    requires limits { KeepsLimits cluster.now }
    requires monitors { has_few_monitors cluster.now ≡ true }
{
    let (left, expected, events) = row;
    let from = journal.events.len();
    let mut executor = executor_of(rt, alloc, cluster, journal, PROBES);
    let mut script = Script::new(Vec::new(alloc));
    let mut watcher = Follower::new(TOLD, *left);
    let end = run_watched(&mut executor, &mut script, &mut watcher);
    assert!(rt; end == *expected && watcher.agrees());
    let journal = executor.into_journal();
    assert!(rt; are_shown(journal.events.as_slice(), from, events));
}

#[test]
fn nothing_more_happens_once_the_watcher_stops(rt: HostRuntime) {
    for row in ROWS {
        let (cluster, journal) = start_of(&rt, rt.alloc(), TEXT);
        stops_so(&rt, rt.alloc(), &cluster, journal, row);
    }
}
