//! Which numbers the actions of a plan have, and which of them come before which.

ghost use Rattle.std.specs.Prelude.{◌≡◌, ◌<◌, ◌≤◌, length};
ghost use Rattle.cluster_types.specs.UnpackedStates.{states_of};
ghost use Rattle.cluster_types.specs.Valid.{IsValid};

use crate::case_rows::{Case, check_all};
use crate::plain::{Known, known_by};
use crate::todos::{Todo, action};
use cluster_types::{Graph, Op, Role};
use placement::{place, rows};
use planner::{actions, number};
use state_unpack::rights;
use std::alloc::Global;
use std::process::Abort;

/// The graph of the plan.
fn graph(rt: &impl Abort, alloc: Global, known: &Known) -> Graph
    requires valid { IsValid known.now.cluster }
    requires told { known.now.states ≡ states_of known.now.cluster known.now.journal.events known.now.journal.promotions }
{
    let (cluster, states) = (&known.cluster, &known.states);
    let scores = rows(alloc, cluster, states).expect(rt, "memory");
    let placed = place(alloc, cluster, states, &scores).expect(rt, "memory");
    let rights = rights(cluster, states);
    let actions = actions(alloc, cluster, states, rights, &placed).expect(rt, "memory");
    number(alloc, cluster, actions).expect(rt, "memory")
}

/// An action, and the numbers of those that come before it.
type Line = (Todo, &'static [u32]);

/// Whether the action of this number is this one, with these before it.
fn is_line(rt: &impl Abort, alloc: Global, graph: &Graph, number: u32, line: &Line) -> bool
    requires from_one { 0 < number }
    requires to_count { number ≤ length graph.now.actions }
{
    let (todo, numbers) = *line;
    let befores = graph.befores(alloc, number).expect(rt, "memory");
    graph.action(number) == action(todo) && befores.as_slice() == numbers
}

/// Whether the graph has these actions in the order of their numbers, each with these before it.
fn has_lines(rt: &impl Abort, alloc: Global, graph: &Graph, lines: &[Line]) -> bool {
    if graph.count() as usize != lines.len() {
        return false;
    }
    for place in 0..graph.count() {
        if !is_line(rt, alloc, graph, place + 1, &lines[place as usize]) {
            return false;
        }
    }
    true
}

const TWO: &str = "node n1\nnode n2\n";

const STATUS: &str = "%status\nquorum yes\nnode n1 online\nnode n2 online\n";

const A: &str = "primitive a Dummy\n";

const B: &str = "primitive b Dummy\n";

/// `vip` may be on the first node until its second 1001, and then rather on the other.
const VIP: &str =
    "primitive vip IPaddr2\nlocation l vip rule 100: date lt 1970-01-01T00:16:41Z and #uname eq n1\nlocation k vip 50: n2\n";

const PROMOTABLE: &str =
    "primitive drbd ocf:linbit:drbd\nprimitive vip IPaddr2\nms md drbd meta notify=true\n\
    colocation c inf: vip md:Master\norder o inf: md:promote vip:start\n";

const PROMOTED: &str =
    "op n1 drbd start 0 0 900\nop n1 drbd promote 0 0 901\nop n2 drbd start 0 0 900\n\
    op n1 vip start 0 0 902\nop n2 vip monitor 0 7 900\npromotion n1 drbd 10\npromotion n2 drbd 20\n";

const CLONES: &str = "primitive p Dummy\nprimitive q Dummy\nclone cp p\n";

const NO_CLONES: &str =
    "op n1 p monitor 0 7 900\nop n1 q monitor 0 7 900\nop n2 p monitor 0 7 900\nop n2 q monitor 0 7 900\n";

/// `c` with `a`, and `b` with `c`, never both at once.
const ONE_BY_ONE: &str =
    "node n1\nnode n2\nnode n3\nprimitive a Dummy\nprimitive b Dummy\nprimitive c Dummy\n\
    order o Serialize: c a\norder p Serialize: b c\nlocation la a 100: n2\nlocation lb b 100: n3\nlocation lc c 100: n1\n";

const ELSEWHERE: &str =
    "node n3 online\nop n1 a start 0 0 900\nop n2 a monitor 0 7 900\nop n3 a monitor 0 7 900\n\
    op n1 b start 0 0 900\nop n2 b monitor 0 7 900\nop n3 b monitor 0 7 900\n\
    op n2 c start 0 0 900\nop n1 c monitor 0 7 900\nop n3 c monitor 0 7 900\n";

/// An input, and its graph.
struct Row {
    /// The parts of the input.
    parts: &'static [&'static str],
    lines: &'static [Line],
}

const ROWS: &[Row] = &[
    // A group moves, since its second member has failed.
    Row {
        parts: &[
            TWO,
            A,
            "primitive b Dummy op monitor interval=10s meta migration-threshold=1\nprimitive c Dummy\ngroup g a b c\n",
            "%status\nnow 1000\nquorum yes\nnode n1 online\nnode n2 online\n",
            "op n1 a start 0 0 900\nop n2 a monitor 0 7 900\nop n1 b start 0 0 900\nop n2 b monitor 0 7 900\n",
            "op n1 c start 0 0 900\nop n2 c monitor 0 7 900\nop n1 b monitor 10000 1 990\n",
        ],
        lines: &[
            (Todo::Step(Op::Stop, 2, 0), &[]),
            (Todo::Step(Op::Stop, 1, 0), &[1]),
            (Todo::Step(Op::Stop, 0, 0), &[2]),
            (Todo::Step(Op::Start, 0, 1), &[3]),
            (Todo::Step(Op::Start, 1, 1), &[2, 4]),
            (Todo::Step(Op::Start, 2, 1), &[1, 5]),
            (Todo::Watch(1, 1, 10_000, Role::Started), &[5]),
        ],
    },
    // Two that must be apart change places.
    Row {
        parts: &[
            TWO,
            A,
            B,
            "colocation x -inf: a b\nlocation la a 100: n2\nlocation lb b 100: n1\n",
            STATUS,
            "op n1 a start 0 0 900\nop n2 b start 0 0 900\nop n2 a monitor 0 7 900\nop n1 b monitor 0 7 900\n",
        ],
        lines: &[
            (Todo::Step(Op::Stop, 0, 0), &[]),
            (Todo::Step(Op::Stop, 1, 1), &[]),
            (Todo::Step(Op::Start, 0, 1), &[1, 2]),
            (Todo::Step(Op::Start, 1, 0), &[1, 2]),
        ],
    },
    // The promotion moves, and what depends on it.
    Row {
        parts: &[TWO, PROMOTABLE, STATUS, PROMOTED],
        lines: &[
            (Todo::Step(Op::Stop, 1, 0), &[]),
            (Todo::Step(Op::Demote, 0, 0), &[1]),
            (Todo::Step(Op::Promote, 0, 1), &[2]),
            (Todo::Step(Op::Start, 1, 1), &[1, 3]),
        ],
    },
    // A clone starts behind another, node by node or as a whole.
    Row {
        parts: &[
            TWO,
            CLONES,
            "clone cq q meta interleave=true\norder o cp cq\n",
            STATUS,
            NO_CLONES,
        ],
        lines: &[
            (Todo::Step(Op::Start, 0, 0), &[]),
            (Todo::Step(Op::Start, 0, 1), &[]),
            (Todo::Step(Op::Start, 1, 0), &[1]),
            (Todo::Step(Op::Start, 1, 1), &[2]),
        ],
    },
    Row {
        parts: &[
            TWO,
            CLONES,
            "clone cq q\norder o cp cq\n",
            STATUS,
            NO_CLONES,
        ],
        lines: &[
            (Todo::Step(Op::Start, 0, 0), &[]),
            (Todo::Step(Op::Start, 0, 1), &[]),
            (Todo::Step(Op::Start, 1, 0), &[1, 2]),
            (Todo::Step(Op::Start, 1, 1), &[1, 2]),
        ],
    },
    // Never at once, so in the order of their numbers.
    Row {
        parts: &[
            TWO,
            A,
            B,
            "order o Serialize: a b\n",
            STATUS,
            "op n1 a monitor 0 7 900\nop n1 b monitor 0 7 900\nop n2 a monitor 0 7 900\nop n2 b monitor 0 7 900\n",
        ],
        lines: &[
            (Todo::Step(Op::Start, 0, 0), &[]),
            (Todo::Step(Op::Start, 1, 1), &[1]),
        ],
    },
    Row {
        parts: &[ONE_BY_ONE, STATUS, ELSEWHERE],
        lines: &[
            (Todo::Step(Op::Stop, 0, 0), &[]),
            (Todo::Step(Op::Stop, 1, 0), &[]),
            (Todo::Step(Op::Stop, 2, 1), &[1, 2]),
            (Todo::Step(Op::Start, 0, 1), &[1, 3]),
            (Todo::Step(Op::Start, 1, 2), &[2, 3]),
            (Todo::Step(Op::Start, 2, 0), &[1, 2, 3, 4, 5]),
        ],
    },
    // A rule of a date has ended.
    Row {
        parts: &[
            TWO,
            VIP,
            "%status\nnow 1001\nquorum yes\nnode n1 online\nnode n2 online\n",
            "op n1 vip start 0 0 900\nop n2 vip monitor 0 7 900\n",
        ],
        lines: &[
            (Todo::Step(Op::Stop, 0, 0), &[]),
            (Todo::Step(Op::Start, 0, 1), &[1]),
        ],
    },
    // Moved live.
    Row {
        parts: &[
            TWO,
            "primitive vm VirtualDomain meta allow-migrate=true\nlocation l vm 50: n2\n",
            STATUS,
            "op n1 vm start 0 0 900\nop n2 vm monitor 0 7 900\n",
        ],
        lines: &[
            (Todo::Send(0, 0, 1), &[]),
            (Todo::TakeIn(0, 0, 1), &[1]),
            (Todo::Step(Op::Stop, 0, 0), &[2]),
        ],
    },
];

impl Case for Row {
    fn known(&self, rt: &impl Abort, alloc: Global) -> Known {
        known_by(rt, alloc, self.parts)
    }

    fn holds(&self, rt: &impl Abort, alloc: Global, known: &Known) -> bool {
        let graph = graph(rt, alloc, known);
        has_lines(rt, alloc, &graph, self.lines)
    }
}

#[test]
fn each_action_has_its_number_and_those_before_it(rt: HostRuntime) {
    check_all(&rt, rt.alloc(), ROWS);
}
