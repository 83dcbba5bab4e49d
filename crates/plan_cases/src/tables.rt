//! Tables of totals.

use crate::case_rows::{Case, check_all};
use crate::plain::{Known, known_by};
use cluster_types::{Decision, NodeId};
use placement::{ScoreTable, rows};
use score::Score;
use std::alloc::Global;
use std::process::Abort;

const MINUS: i32 = -1_000_000;

/// The scores of one leaf on one node are added.
const SUM: &str = "node n1\nnode n2\nprimitive vip IPaddr2\n\
    location l1 vip 999999: n1\nlocation l2 vip 5: n1\nlocation l3 vip -10: n1\n\
    %status\nnow 1000\nquorum yes\nnode n1 online\nnode n2 online\n";

/// -INFINITY wins over INFINITY.
const INFINITIES: &str = "node n1\nnode n2\nprimitive vip IPaddr2\n\
    location l1 vip inf: n1\nlocation l2 vip -inf: n1\n\
    %status\nnow 1000\nquorum yes\nnode n1 online\nnode n2 online\n";

/// A rule holds on one node.
const RACK: &str =
    "node n1\nnode n2 attributes rack=b\nprimitive vip IPaddr2\nlocation l vip rule 50: rack eq b\n\
    %status\nnow 1000\nquorum yes\nnode n1 online\nnode n2 online\n";

/// In a group a failure bans the second member: it keeps the first away too, since it lends to it.
const GROUP: &str = "node n1\nnode n2\nprimitive a Dummy\n\
    primitive b Dummy op monitor interval=10s meta migration-threshold=1\nprimitive c Dummy\ngroup g a b c\n\
    %status\nnow 1000\nquorum yes\nnode n1 online\nnode n2 online\n\
    op n1 a start 0 0 900\nop n2 a monitor 0 7 900\nop n1 b start 0 0 900\nop n2 b monitor 0 7 900\n\
    op n1 c start 0 0 900\nop n2 c monitor 0 7 900\nop n1 b monitor 10000 1 990\n";

/// Of two lenders the second would leave no node, and doesn't join.
const LENDERS: &str =
    "node n1\nnode n2\nnode n3\nprimitive a Dummy\nprimitive b Dummy\nprimitive c Dummy\n\
    colocation b-with-a inf: b a\ncolocation c-with-a inf: c a\n\
    location a-1 a 3: n1\nlocation a-2 a 2: n2\nlocation b-1 b -inf: n1\n\
    location c-2 c -inf: n2\nlocation c-3 c -inf: n3\n\
    %status\nnow 1000\nquorum yes\nnode n1 online\nnode n2 online\nnode n3 online\n";

/// A clone that runs on both nodes, with promotion scores.
const PROMOTABLE: &str = "node n1\nnode n2\nprimitive drbd ocf:linbit:drbd\nprimitive vip IPaddr2\n\
    ms md drbd meta notify=true\ncolocation c inf: vip md:Master\norder o inf: md:promote vip:start\n\
    %status\nquorum yes\nnode n1 online\nnode n2 online\n\
    op n1 drbd start 0 0 900\nop n1 drbd promote 0 0 901\nop n2 drbd start 0 0 900\nop n1 vip start 0 0 902\n\
    op n2 vip monitor 0 7 900\npromotion n1 drbd 10\npromotion n2 drbd 20\n";

/// An input, and its totals, leaf by leaf and node by node.
struct Row {
    text: &'static str,
    /// Of placing each leaf.
    places: &'static [i32],
    /// Of promoting it.
    promotes: &'static [i32],
}

const ROWS: &[Row] = &[
    Row {
        text: SUM,
        places: &[999_994, 0],
        promotes: &[-1, -1],
    },
    Row {
        text: INFINITIES,
        places: &[MINUS, 0],
        promotes: &[-1, -1],
    },
    Row {
        text: RACK,
        places: &[0, 50],
        promotes: &[-1, -1],
    },
    Row {
        text: GROUP,
        places: &[MINUS, 0, MINUS, 0, 0, 0],
        promotes: &[-1; 6],
    },
    Row {
        text: LENDERS,
        places: &[MINUS, 2, 0, MINUS, 0, 0, 0, MINUS, MINUS],
        promotes: &[-1; 9],
    },
    Row {
        text: PROMOTABLE,
        places: &[1, 1, 0, 0],
        promotes: &[10, 20, -1, -1],
    },
];

/// Whether the scores are these.
pub fn have_points(scores: &[Score], points: &[i32]) -> bool {
    scores
        .iter()
        .map(|score| score.points)
        .eq(points.iter().copied())
}

impl Case for Row {
    fn known(&self, rt: &impl Abort, alloc: Global) -> Known {
        known_by(rt, alloc, &[self.text])
    }

    fn holds(&self, rt: &impl Abort, alloc: Global, known: &Known) -> bool {
        let table = rows(alloc, &known.cluster, &known.states).expect(rt, "memory");
        have_points(table.places.as_slice(), self.places)
            && have_points(table.promotes.as_slice(), self.promotes)
    }
}

#[test]
fn totals_of_inputs(rt: HostRuntime) {
    check_all(&rt, rt.alloc(), ROWS);
}

/// Totals of `PROMOTABLE` that are asked for one by one.
struct Cells;

/// Decisions, nodes, and the points there. Where there is no such cell there are none.
const CELLS: &[(Decision, NodeId, i32)] = &[
    (Decision::Place(0), 1, 1),
    (Decision::Promote(0), 1, 20),
    (Decision::Place(0), 2, 0),
    (Decision::Promote(0), 2, 0),
    (Decision::Place(9), 0, 0),
];

/// Whether the table is that of two leaves and two nodes, with these points.
fn has_cells(table: &ScoreTable) -> bool {
    table.nodes == 2
        && table.places.len() == 4
        && table.promotes.len() == 4
        && CELLS.iter().all(|(decision, node, points)| table.total_at(*decision, *node).points
            == *points)
}

impl Case for Cells {
    fn known(&self, rt: &impl Abort, alloc: Global) -> Known {
        known_by(rt, alloc, &[PROMOTABLE])
    }

    fn holds(&self, rt: &impl Abort, alloc: Global, known: &Known) -> bool {
        let table = rows(alloc, &known.cluster, &known.states).expect(rt, "memory");
        has_cells(&table)
    }
}

#[test]
fn total_of_one_cell(rt: HostRuntime) {
    check_all(&rt, rt.alloc(), &[Cells]);
}
