//! What has to be done, for given targets.

ghost use Rattle.cluster_types.specs.Valid.{IsValid};

use crate::case_rows::{Case, check_all};
use crate::plain::{Known, known_by};
use crate::todos::{Todo, action};
use cluster_types::{Action, Op, Pin, Placed, Role, Table, Target};
use listed::Listed;
use planner::actions;
use state_unpack::rights;
use std::alloc::Global;
use std::process::Abort;

/// Where everything goes by these targets, leaf by leaf and node by node. No leaf is pinned.
fn placed(rt: &impl Abort, alloc: Global, leaves: usize, targets: &[Target]) -> Placed {
    let pins: Vec<Option<Pin>> = vec![in alloc; None; leaves].expect(rt, "memory");
    let targets = targets.to_vec(alloc).expect(rt, "memory");
    Placed {
        pins: Listed::from(pins),
        decided: Listed::new(alloc),
        table: Table {
            nodes: 2,
            targets: Listed::from(targets),
        },
        none: Listed::new(alloc),
    }
}

/// The actions that are needed for these targets.
fn needed(rt: &impl Abort, alloc: Global, known: &Known, targets: &[Target]) -> Vec<Action>
    requires { IsValid known.now.cluster }
{
    let (cluster, states) = (&known.cluster, &known.states);
    let placed = placed(rt, alloc, cluster.leaves.len(), targets);
    actions(alloc, cluster, states, rights(cluster, states), &placed).expect(rt, "memory")
}

const OFF: Target = Target::Nowhere;

const ON: Target = Target::Started;

const UP: Target = Target::Promoted;

const HEAD: &str = "node n1\nnode n2\n";

const A: &str = "primitive a ocf:pacemaker:Dummy op monitor interval=10s op monitor interval=20s\n";

const B: &str = "primitive b ocf:pacemaker:Dummy\n";

/// `a` may be moved live.
const MOVED: &str =
    "primitive a ocf:pacemaker:Dummy meta allow-migrate=true op monitor interval=10s op monitor interval=20s\n";

const ORDER: &str = "order o Mandatory: a b\n";

const APART: &str = "colocation x -inf: a b\n";

const PROMOTABLE: &str =
    "primitive a ocf:pacemaker:Stateful op monitor interval=10s role=Promoted op monitor interval=11s\n\
    clone ca a meta promotable=true\n";

const STATUS: &str = "%status\nnow 1000\nquorum yes\nnode n1 online\n";

const SECOND: &str = "node n2 online\n";

/// `a` runs on the first node alone, where its second monitor is running.
const A_RUNS: &str =
    "op n1 a start 0 0 900\nop n1 a monitor 20000 0 900\nop n2 a monitor 0 7 900\n";

const A_FAILED: &str =
    "op n1 a start 0 0 900\nop n1 a monitor 10000 1 900\nop n2 a monitor 0 7 900\n";

const B_RUNS: &str = "op n1 b start 0 0 900\nop n2 b monitor 0 7 900\n";

const B_RUNS_THERE: &str = "op n2 b start 0 0 900\nop n1 b monitor 0 7 900\n";

const A_PROMOTED: &str =
    "op n1 a start 0 0 900\nop n1 a promote 0 0 900\nop n2 a start 0 0 900\nop n2 a monitor 11000 0 900\n";

/// An input, and what it needs.
struct Row {
    /// The parts of the input.
    parts: &'static [&'static str],
    /// The targets of its cells.
    targets: &'static [Target],
    /// The actions that are needed, in whatever order.
    todos: &'static [Todo],
}

const ROWS: &[Row] = &[
    // Nothing is known: probes come too.
    Row {
        parts: &[HEAD, A, STATUS, SECOND],
        targets: &[ON, OFF],
        todos: &[
            Todo::Probe(0, 0),
            Todo::Probe(0, 1),
            Todo::Step(Op::Start, 0, 0),
            Todo::Watch(0, 0, 10_000, Role::Started),
            Todo::Watch(0, 0, 20_000, Role::Started),
        ],
    },
    // The second node isn't there.
    Row {
        parts: &[HEAD, B, STATUS],
        targets: &[ON, OFF],
        todos: &[
            Todo::Fence(1),
            Todo::Probe(0, 0),
            Todo::Step(Op::Start, 0, 0),
        ],
    },
    // What runs stays, and the monitor that isn't running is needed.
    Row {
        parts: &[HEAD, A, STATUS, SECOND, A_RUNS],
        targets: &[ON, OFF],
        todos: &[Todo::Watch(0, 0, 10_000, Role::Started)],
    },
    Row {
        parts: &[HEAD, A, STATUS, SECOND, A_RUNS],
        targets: &[OFF, ON],
        todos: &[
            Todo::Step(Op::Stop, 0, 0),
            Todo::Step(Op::Start, 0, 1),
            Todo::Watch(0, 1, 10_000, Role::Started),
            Todo::Watch(0, 1, 20_000, Role::Started),
        ],
    },
    Row {
        parts: &[HEAD, MOVED, STATUS, SECOND, A_RUNS],
        targets: &[OFF, ON],
        todos: &[
            Todo::Step(Op::Stop, 0, 0),
            Todo::Send(0, 0, 1),
            Todo::TakeIn(0, 0, 1),
            Todo::Watch(0, 1, 10_000, Role::Started),
            Todo::Watch(0, 1, 20_000, Role::Started),
        ],
    },
    // It runs twice, so it is cycled.
    Row {
        parts: &[
            HEAD,
            B,
            STATUS,
            SECOND,
            "op n1 b start 0 0 900\nop n2 b start 0 0 900\n",
        ],
        targets: &[ON, OFF],
        todos: &[
            Todo::Step(Op::Stop, 0, 0),
            Todo::Step(Op::Start, 0, 0),
            Todo::Step(Op::Stop, 0, 1),
        ],
    },
    // What depends on a failed resource is cycled.
    Row {
        parts: &[HEAD, A, B, ORDER, STATUS, SECOND, A_FAILED, B_RUNS],
        targets: &[ON, OFF, ON, OFF],
        todos: &[
            Todo::Step(Op::Stop, 0, 0),
            Todo::Step(Op::Start, 0, 0),
            Todo::Watch(0, 0, 10_000, Role::Started),
            Todo::Watch(0, 0, 20_000, Role::Started),
            Todo::Step(Op::Stop, 1, 0),
            Todo::Step(Op::Start, 1, 0),
        ],
    },
    Row {
        parts: &[HEAD, A, B, STATUS, SECOND, A_FAILED, B_RUNS],
        targets: &[ON, OFF, ON, OFF],
        todos: &[
            Todo::Step(Op::Stop, 0, 0),
            Todo::Step(Op::Start, 0, 0),
            Todo::Watch(0, 0, 10_000, Role::Started),
            Todo::Watch(0, 0, 20_000, Role::Started),
        ],
    },
    // The first of an order migrates, and its then is cycled.
    Row {
        parts: &[HEAD, MOVED, B, ORDER, STATUS, SECOND, A_RUNS, B_RUNS],
        targets: &[OFF, ON, ON, OFF],
        todos: &[
            Todo::Step(Op::Stop, 0, 0),
            Todo::Send(0, 0, 1),
            Todo::TakeIn(0, 0, 1),
            Todo::Watch(0, 1, 10_000, Role::Started),
            Todo::Watch(0, 1, 20_000, Role::Started),
            Todo::Step(Op::Stop, 1, 0),
            Todo::Step(Op::Start, 1, 0),
        ],
    },
    // The other side of a separation moves, or there is none.
    Row {
        parts: &[HEAD, MOVED, B, APART, STATUS, SECOND, A_RUNS, B_RUNS_THERE],
        targets: &[OFF, ON, ON, OFF],
        todos: &[
            Todo::Step(Op::Stop, 0, 0),
            Todo::Step(Op::Start, 0, 1),
            Todo::Watch(0, 1, 10_000, Role::Started),
            Todo::Watch(0, 1, 20_000, Role::Started),
            Todo::Step(Op::Stop, 1, 1),
            Todo::Step(Op::Start, 1, 0),
        ],
    },
    Row {
        parts: &[HEAD, MOVED, B, STATUS, SECOND, A_RUNS, B_RUNS_THERE],
        targets: &[OFF, ON, ON, OFF],
        todos: &[
            Todo::Step(Op::Stop, 0, 0),
            Todo::Send(0, 0, 1),
            Todo::TakeIn(0, 0, 1),
            Todo::Watch(0, 1, 10_000, Role::Started),
            Todo::Watch(0, 1, 20_000, Role::Started),
            Todo::Step(Op::Stop, 1, 1),
            Todo::Step(Op::Start, 1, 0),
        ],
    },
    // The promotion moves.
    Row {
        parts: &[HEAD, PROMOTABLE, STATUS, SECOND, A_PROMOTED],
        targets: &[ON, UP],
        todos: &[
            Todo::Step(Op::Demote, 0, 0),
            Todo::Watch(0, 0, 11_000, Role::Started),
            Todo::Step(Op::Promote, 0, 1),
            Todo::Watch(0, 1, 10_000, Role::Promoted),
        ],
    },
    Row {
        parts: &[HEAD, PROMOTABLE, STATUS, SECOND, A_PROMOTED],
        targets: &[OFF, ON],
        todos: &[Todo::Step(Op::Demote, 0, 0), Todo::Step(Op::Stop, 0, 0)],
    },
];

/// Whether the actions are these, in whatever order.
fn are(actions: &[Action], todos: &[Todo]) -> bool {
    actions.len() == todos.len() && todos.iter().all(|todo| actions.contains(&action(*todo)))
}

impl Case for Row {
    fn known(&self, rt: &impl Abort, alloc: Global) -> Known {
        known_by(rt, alloc, self.parts)
    }

    fn holds(&self, rt: &impl Abort, alloc: Global, known: &Known) -> bool {
        let found = needed(rt, alloc, known, self.targets);
        are(found.as_slice(), self.todos)
    }
}

#[test]
fn what_is_needed_is_listed_once(rt: HostRuntime) {
    check_all(&rt, rt.alloc(), ROWS);
}
