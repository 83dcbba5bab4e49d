//! Which node is fenced after it was lost.

use crate::case_rows::{Case, check_all};
use crate::plain::{Known, cluster_of, known_of};
use cluster_types::{Action, Event, Journal, NodeId, Op, Outcome, Rights, Role};
use listed::Listed;
use state_unpack::{rights, to_fence};
use std::alloc::Global;
use std::process::Abort;

/// Two nodes join, the leaf starts on the second, and a second later this node is lost.
fn journal(rt: &impl Abort, alloc: Global, quorum: bool) -> Journal {
    let started = Action::Operation {
        op: Op::Start,
        leaf: 0,
        node: 1,
        interval_ms: 0,
        role: Role::Started,
    };
    let history = [
        Event::Up { node: 0 },
        Event::Up { node: 1 },
        Event::Ended {
            number: 0,
            action: started,
            outcome: Outcome::Code(0),
            moment: 900,
        },
        Event::Ended {
            number: 0,
            action: Action::Probe { leaf: 0, node: 0 },
            outcome: Outcome::Code(7),
            moment: 900,
        },
        Event::Quorum { yes: quorum },
        Event::Wait { seconds: 1_000 },
        Event::Lost { node: 1 },
    ];
    Journal {
        events: Listed::from(history.to_vec(alloc).expect(rt, "memory")),
        promotions: Listed::new(alloc),
    }
}

const FENCES: &str = "node n1\nnode n2\nprimitive a ocf:pacemaker:Dummy\n";

const FENCES_NOT: &str =
    "node n1\nnode n2\nprimitive a ocf:pacemaker:Dummy\nproperty stonith-enabled=false no-quorum-policy=freeze\n";

const FENCES_WITHOUT_QUORUM: &str =
    "node n1\nnode n2\nprimitive a ocf:pacemaker:Dummy\nproperty no-quorum-policy=ignore\n";

/// A configuration, and what becomes of the lost node.
struct Row {
    text: &'static str,
    quorum: bool,
    fenced: bool,
}

const ROWS: &[Row] = &[
    Row {
        text: FENCES,
        quorum: true,
        fenced: true,
    },
    Row {
        text: FENCES,
        quorum: false,
        fenced: false,
    },
    Row {
        text: FENCES_NOT,
        quorum: true,
        fenced: false,
    },
    Row {
        text: FENCES_WITHOUT_QUORUM,
        quorum: false,
        fenced: true,
    },
];

/// Whether the second node is fenced alone and may be, or none is and none may be.
fn is_expected(nodes: &[NodeId], rights: Rights, fenced: bool) -> bool {
    let expected: &[NodeId] = if fenced { &[1] } else { &[] };
    nodes == expected && rights.may_fence == fenced
}

impl Case for Row {
    fn known(&self, rt: &impl Abort, alloc: Global) -> Known {
        let cluster = cluster_of(rt, alloc, self.text);
        known_of(rt, alloc, cluster, journal(rt, alloc, self.quorum))
    }

    fn holds(&self, rt: &impl Abort, alloc: Global, known: &Known) -> bool {
        let (cluster, states) = (&known.cluster, &known.states);
        assert!(rt; states.nodes.len() <= 256);
        let nodes = to_fence(alloc, cluster, states).expect(rt, "memory");
        is_expected(nodes.as_slice(), rights(cluster, states), self.fenced)
    }
}

#[test]
fn a_lost_node_is_fenced_with_the_right_to(rt: HostRuntime) {
    check_all(&rt, rt.alloc(), ROWS);
}
