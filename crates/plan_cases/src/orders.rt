//! In which order inputs are decided, and what stands before any decision.

ghost use Rattle.cluster_types.specs.Valid.{IsValid};

use crate::case_rows::{Case, check_all};
use crate::plain::{Known, known_by};
use cluster_types::{Decision, Pin, Table, Target};
use placement::{decisions_in_order, pinned_table, pins, rows};
use std::alloc::Global;
use std::process::Abort;

/// What a depends on is decided first, though its leaf is later.
const NEEDED: &str =
    "node n1\nnode n2\nprimitive a Dummy\nprimitive b Dummy\norder o a b\ncolocation c inf: a b\n\
    location l1 a -inf: n1\nlocation l2 a -inf: n2\n\
    %status\nquorum yes\nnode n1 online\nnode n2 online\n";

/// A priority goes before a greater total, and that before the earlier leaf.
const PRIORITY: &str =
    "node n1\nprimitive a Dummy\nprimitive b Dummy meta priority=5\nprimitive c Dummy\nlocation l c 7: n1\n\
    %status\nquorum yes\nnode n1 online\n\
    op n1 a monitor 0 7 900\nop n1 b monitor 0 7 900\nop n1 c monitor 0 7 900\n";

/// What runs goes before what doesn't, where priorities are equal.
const RUNNING: &str = "node n1\nprimitive a Dummy\nprimitive b Dummy meta target-role=Stopped\n\
    primitive c Dummy op monitor interval=10s on-fail=stop\nprimitive d Dummy\nclone cd d meta clone-max=0\n\
    %status\nquorum yes\nnode n1 online\nop n1 c start 0 0 900\nop n1 c monitor 10000 1 990\n";

/// b lends its priority to c, which it needs.
const LENT: &str =
    "node n1\nprimitive a Dummy\nprimitive b Dummy meta priority=5\nprimitive c Dummy\n\
    primitive d Dummy meta priority=3\ncolocation b-with-c inf: b c\n\
    %status\nquorum yes\nnode n1 online\n";

/// A leaf is placed, then promoted, and then what goes with its promoted copy is placed.
const PROMOTED: &str = "node n1\nnode n2\nprimitive drbd ocf:linbit:drbd\nprimitive vip IPaddr2\n\
    ms md drbd meta notify=true\ncolocation c inf: vip md:Master\norder o inf: md:promote vip:start\n\
    %status\nquorum yes\nnode n1 online\nnode n2 online\n\
    op n1 drbd start 0 0 900\nop n1 drbd promote 0 0 901\nop n2 drbd start 0 0 900\nop n1 vip start 0 0 902\n\
    op n2 vip monitor 0 7 900\npromotion n1 drbd 10\npromotion n2 drbd 20\n";

/// b isn't managed: nothing is decided of it.
const UNMANAGED: &str =
    "node n1\nprimitive a Dummy\nprimitive b Dummy meta is-managed=false\nproperty stop-all-resources=true\n\
    %status\nquorum no\nnode n1 online\n";

/// Without fencing a stop that failed blocks its leaf, which stays where it is, though that node is in standby.
const BLOCKED: &str =
    "node n1 attributes standby=on\nnode n2\nprimitive vip IPaddr2\nproperty stonith-enabled=false\n\
    %status\nnow 1000\nquorum yes\nnode n1 online\nnode n2 online\n\
    op n1 vip start 0 0 900\nop n2 vip monitor 0 7 900\nop n1 vip stop 0 1 950\n";

/// An input, and what is decided.
struct Row {
    text: &'static str,
    /// Why its leaves are left as they are.
    pins: &'static [Option<Pin>],
    /// The decisions in their order.
    order: &'static [Decision],
}

const ROWS: &[Row] = &[
    Row {
        text: NEEDED,
        pins: &[None, None],
        order: &[Decision::Place(1), Decision::Place(0)],
    },
    Row {
        text: PRIORITY,
        pins: &[None, None, None],
        order: &[Decision::Place(1), Decision::Place(2), Decision::Place(0)],
    },
    Row {
        text: RUNNING,
        pins: &[None, None, None, None],
        order: &[
            Decision::Place(2),
            Decision::Place(0),
            Decision::Place(1),
            Decision::Place(3),
        ],
    },
    Row {
        text: LENT,
        pins: &[None, None, None, None],
        order: &[
            Decision::Place(2),
            Decision::Place(1),
            Decision::Place(3),
            Decision::Place(0),
        ],
    },
    Row {
        text: PROMOTED,
        pins: &[None, None],
        order: &[Decision::Place(0), Decision::Promote(0), Decision::Place(1)],
    },
    Row {
        text: UNMANAGED,
        pins: &[None, Some(Pin::Unmanaged)],
        order: &[Decision::Place(0)],
    },
    Row {
        text: BLOCKED,
        pins: &[Some(Pin::Blocked)],
        order: &[],
    },
];

/// What is decided, in its order.
fn decided(rt: &impl Abort, alloc: Global, known: &Known, pinned: &[Option<Pin>]) -> Vec<Decision>
    requires { IsValid known.now.cluster }
{
    let (cluster, states) = (&known.cluster, &known.states);
    let scores = rows(alloc, cluster, states).expect(rt, "memory");
    decisions_in_order(alloc, cluster, states, &scores, pinned).expect(rt, "memory")
}

impl Case for Row {
    fn known(&self, rt: &impl Abort, alloc: Global) -> Known {
        known_by(rt, alloc, &[self.text])
    }

    fn holds(&self, rt: &impl Abort, alloc: Global, known: &Known) -> bool {
        let pinned = pins(alloc, &known.cluster, &known.states).expect(rt, "memory");
        let decided = decided(rt, alloc, known, pinned.as_slice());
        pinned.as_slice() == self.pins && decided.as_slice() == self.order
    }
}

#[test]
fn orders_of_inputs(rt: HostRuntime) {
    check_all(&rt, rt.alloc(), ROWS);
}

/// What stands before any decision of `BLOCKED`: its leaf is on the first node.
struct OnFirst;

fn is_on_first(table: &Table) -> bool {
    table.nodes == 2
        && table.targets.len() == 2
        && table.target(0, 0) == Target::Started
        && table.target(0, 1) == Target::Nowhere
}

impl Case for OnFirst {
    fn known(&self, rt: &impl Abort, alloc: Global) -> Known {
        known_by(rt, alloc, &[BLOCKED])
    }

    fn holds(&self, rt: &impl Abort, alloc: Global, known: &Known) -> bool {
        let (cluster, states) = (&known.cluster, &known.states);
        let pinned = pins(alloc, cluster, states).expect(rt, "memory");
        let table = pinned_table(alloc, cluster, states, pinned.as_slice()).expect(rt, "memory");
        is_on_first(&table)
    }
}

#[test]
fn table_before_decisions(rt: HostRuntime) {
    check_all(&rt, rt.alloc(), &[OnFirst]);
}
