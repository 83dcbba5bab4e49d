//! What a journal tells while it goes on.

use crate::plain::cluster_of;
use cluster_types::{Action, Event, NodeState, Op, Outcome, Role, moment_of};
use state_unpack::Known;
use std::alloc::Global;
use std::process::Abort;

const STARTED: Event = Event::Ended {
    number: 0,
    action: Action::Operation {
        op: Op::Start,
        leaf: 0,
        node: 0,
        interval_ms: 0,
        role: Role::Started,
    },
    outcome: Outcome::Code(0),
    moment: 0,
};

const FOUND_STOPPED: Event = Event::Ended {
    number: 0,
    action: Action::Probe { leaf: 0, node: 0 },
    outcome: Outcome::Code(7),
    moment: 0,
};

const FENCED: Event = Event::Ended {
    number: 0,
    action: Action::Fence { node: 0 },
    outcome: Outcome::Code(0),
    moment: 0,
};

/// The event that is told, the state of the node after it, whether the node has joined, whether the leaf may run there, and the moment.
type Row = (Event, NodeState, bool, bool, u64);

const ROWS: &[Row] = &[
    (FOUND_STOPPED, NodeState::Online, true, false, 0),
    (STARTED, NodeState::Online, true, true, 0),
    (Event::Wait { seconds: 5 }, NodeState::Online, true, true, 5),
    (Event::Lost { node: 0 }, NodeState::Unclean, false, true, 5),
    (FENCED, NodeState::Offline, false, false, 5),
    (
        Event::Wait { seconds: 7 },
        NodeState::Offline,
        false,
        false,
        12,
    ),
    (Event::Up { node: 0 }, NodeState::Online, true, true, 12),
];

fn tell(rt: &impl Abort, known: &mut Known<'_>, event: Event) {
    let moment = u128::from(known.moment()) + u128::from(event.seconds());
    assert!(rt; moment < 18_446_744_073_709_551_616);
    known.tell(event);
}

/// The state of the node, whether it has joined, and whether the leaf may run there and may be promoted there.
fn asked(rt: &impl Abort, known: &Known<'_>) -> (NodeState, bool, bool, bool) {
    let cluster = known.cluster();
    assert!(rt; cluster.nodes.len() == 1 && cluster.leaves.len() == 1);
    (
        known.node_state(0),
        known.has_joined(0),
        known.may(0, 0),
        known.may_promoted(0, 0),
    )
}

/// Whether the only node has this state, by all that is known.
fn has_state(rt: &impl Abort, alloc: Global, known: &Known<'_>, state: NodeState) -> bool {
    let states = known.states(alloc, &[]).expect(rt, "memory");
    states.nodes.as_slice() == [state].as_slice()
}

/// The event is told, and what is known then is what the row says.
fn check_row(rt: &impl Abort, alloc: Global, known: &mut Known<'_>, row: &Row) {
    let (event, state, has_joined, may, moment) = *row;
    tell(rt, known, event);
    assert!(rt; known.moment() == moment);
    assert!(rt; asked(rt, known) == (state, has_joined, may, false));
    assert!(rt; has_state(rt, alloc, known, state));
}

#[test]
fn each_event_changes_what_is_known(rt: HostRuntime) {
    let alloc = rt.alloc();
    let cluster = cluster_of(&rt, alloc, "node n\nprimitive a ocf:pacemaker:Dummy\n");
    let joined = [Event::Up { node: 0 }];
    assert!(rt; moment_of(joined.as_slice()) < 18_446_744_073_709_551_616);
    let mut known = Known::new(alloc, &cluster, joined.as_slice()).expect(&rt, "memory");
    for row in ROWS {
        check_row(&rt, alloc, &mut known, row);
    }
}
