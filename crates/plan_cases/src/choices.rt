//! What decisions choose, and with which totals.

ghost use Rattle.cluster_types.specs.Valid.{IsValid};

use crate::case_rows::{Case, check_all};
use crate::plain::{Known, known_by};
use crate::tables::have_points;
use cluster_types::{Decided, Pin, Target};
use placement::{Choices, decide_all, decisions_in_order, pinned_table, pins, rows};
use std::alloc::Global;
use std::process::Abort;

const N: Target = Target::Nowhere;

const S: Target = Target::Started;

const P: Target = Target::Promoted;

/// Of equal totals the node with fewer leaves is chosen, and of those the first.
const LOADS: &str = "node n1\nnode n2\nprimitive a Dummy\nprimitive b Dummy\n\
    %status\nquorum yes\nnode n1 online\nnode n2 online\n";

/// The greatest total is chosen.
const GREATEST: &str = "node n1\nnode n2\nprimitive a Dummy\nlocation l a 10: n2\n\
    %status\nquorum yes\nnode n1 online\nnode n2 online\n";

/// A total below 0 keeps a leaf away.
const NEGATIVE: &str =
    "node n1\nprimitive a Dummy\nlocation l a -5: n1\n%status\nquorum yes\nnode n1 online\n";

/// A colocation adds its score where the primary is.
const NEAR: &str = "node n1\nnode n2\nprimitive a Dummy\nprimitive b Dummy\ncolocation c 5: b a\n\
    location la a 9: n1\nlocation lb b 3: n2\n\
    %status\nquorum yes\nnode n1 online\nnode n2 online\n";

/// Of three nodes two are chosen.
const CAP: &str =
    "node n1\nnode n2\nnode n3\nprimitive a Dummy\nclone ca a meta clone-max=2\nlocation l ca 5: n3\n\
    %status\nquorum yes\nnode n1 online\nnode n2 online\nnode n3 online\n";

/// A promoted copy makes of one place a promoted one.
const PROMOTED: &str =
    "node n1\nnode n2\nprimitive drbd ocf:linbit:drbd\nms md drbd meta notify=true\n\
    %status\nquorum yes\nnode n1 online\nnode n2 online\n\
    op n1 drbd start 0 0 900\nop n2 drbd start 0 0 900\npromotion n1 drbd 10\npromotion n2 drbd 20\n";

/// An input, and what is chosen.
struct Row {
    text: &'static str,
    /// Leaf by leaf and node by node.
    chosen: &'static [Target],
    /// Of each decision the totals, node by node.
    totals: &'static [&'static [i32]],
}

const ROWS: &[Row] = &[
    Row {
        text: LOADS,
        chosen: &[S, N, N, S],
        totals: &[&[0, 0], &[0, 0]],
    },
    Row {
        text: GREATEST,
        chosen: &[N, S],
        totals: &[&[0, 10]],
    },
    Row {
        text: NEGATIVE,
        chosen: &[N],
        totals: &[&[-5]],
    },
    Row {
        text: NEAR,
        chosen: &[S, N, S, N],
        totals: &[&[9, 0], &[5, 3]],
    },
    Row {
        text: CAP,
        chosen: &[S, N, S],
        totals: &[&[0, 0, 5]],
    },
    Row {
        text: PROMOTED,
        chosen: &[S, P],
        totals: &[&[1, 1], &[10, 20]],
    },
];

/// What is chosen, with these leaves left as they are.
fn choices(rt: &impl Abort, alloc: Global, known: &Known, pinned: &[Option<Pin>]) -> Choices
    requires { IsValid known.now.cluster }
{
    let (cluster, states) = (&known.cluster, &known.states);
    let scores = rows(alloc, cluster, states).expect(rt, "memory");
    let table = pinned_table(alloc, cluster, states, pinned).expect(rt, "memory");
    let order = decisions_in_order(alloc, cluster, states, &scores, pinned).expect(rt, "memory");
    decide_all(alloc, cluster, states, &scores, table, order.as_slice()).expect(rt, "memory")
}

fn have_totals(decided: &[Decided], totals: &[&[i32]]) -> bool {
    decided.len() == totals.len()
        && decided
            .iter()
            .zip(totals.iter())
            .all(|(one, points)| have_points(one.totals.as_slice(), points))
}

impl Case for Row {
    fn known(&self, rt: &impl Abort, alloc: Global) -> Known {
        known_by(rt, alloc, &[self.text])
    }

    fn holds(&self, rt: &impl Abort, alloc: Global, known: &Known) -> bool {
        let pinned = pins(alloc, &known.cluster, &known.states).expect(rt, "memory");
        let choices = choices(rt, alloc, known, pinned.as_slice());
        choices.table.targets.as_slice() == self.chosen
            && have_totals(choices.decided.as_slice(), self.totals)
    }
}

#[test]
fn choices_of_inputs(rt: HostRuntime) {
    check_all(&rt, rt.alloc(), ROWS);
}
