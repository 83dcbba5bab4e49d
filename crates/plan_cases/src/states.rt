//! What a journal tells of one leaf on one node.

use crate::case_rows::{Case, check_all};
use crate::plain::{Known, cluster_of, known_of};
use cluster_types::{Action, Cell, CellState, Event, Journal, Op, Outcome, Role};
use listed::Listed;
use state_unpack::banned;
use std::alloc::Global;
use std::process::Abort;

/// An operation, its interval in milliseconds, and how it ended. A monitor of interval 0 is a probe.
type Record = (Op, u32, Outcome);

fn event(record: Record) -> Event {
    let (op, interval_ms, outcome) = record;
    let action = if op == Op::Monitor && interval_ms == 0 {
        Action::Probe { leaf: 0, node: 0 }
    } else {
        Action::Operation {
            op,
            leaf: 0,
            node: 0,
            interval_ms,
            role: Role::Started,
        }
    };
    Event::Ended {
        number: 0,
        action,
        outcome,
        moment: 0,
    }
}

/// The journal in which the node joins and then the records come.
fn journal(rt: &impl Abort, alloc: Global, records: &[Record]) -> Journal {
    let mut events = Listed::new(alloc);
    events.push(Event::Up { node: 0 }).expect(rt, "memory");
    for record in records {
        events.push(event(*record)).expect(rt, "memory");
    }
    Journal {
        events,
        promotions: Listed::new(alloc),
    }
}

const FENCES: &str = "node n\nprimitive a ocf:pacemaker:Dummy op monitor interval=10s\n";

const FENCES_NOT: &str = "node n\nprimitive a ocf:pacemaker:Dummy op monitor interval=10s\n\
    property stonith-enabled=false\n";

/// A journal, and what it tells of the only cell.
struct Row {
    /// What comes after the join.
    records: &'static [Record],
    /// The configuration.
    text: &'static str,
    state: CellState,
    banned: bool,
    /// Whether the leaf may run there.
    may: bool,
    /// Which monitors are running.
    running: u8,
}

const ROWS: &[Row] = &[
    Row {
        records: &[],
        text: FENCES,
        state: CellState::Unprobed,
        banned: false,
        may: true,
        running: 0,
    },
    Row {
        records: &[(Op::Monitor, 0, Outcome::Code(7))],
        text: FENCES,
        state: CellState::Off,
        banned: false,
        may: false,
        running: 0,
    },
    Row {
        records: &[(Op::Monitor, 0, Outcome::Code(5))],
        text: FENCES,
        state: CellState::Off,
        banned: true,
        may: false,
        running: 0,
    },
    Row {
        records: &[(Op::Monitor, 0, Outcome::Code(0))],
        text: FENCES,
        state: CellState::On,
        banned: false,
        may: true,
        running: 0,
    },
    Row {
        records: &[(Op::Start, 0, Outcome::TimedOut)],
        text: FENCES,
        state: CellState::Failed,
        banned: true,
        may: true,
        running: 0,
    },
    Row {
        records: &[
            (Op::Start, 0, Outcome::Code(0)),
            (Op::Stop, 0, Outcome::Code(1)),
        ],
        text: FENCES_NOT,
        state: CellState::Blocked,
        banned: false,
        may: true,
        running: 0,
    },
    Row {
        records: &[
            (Op::Start, 0, Outcome::Code(0)),
            (Op::Monitor, 10_000, Outcome::Code(190)),
        ],
        text: FENCES,
        state: CellState::On,
        banned: false,
        may: true,
        running: 1,
    },
    Row {
        records: &[
            (Op::Start, 0, Outcome::Code(0)),
            (Op::Monitor, 10_000, Outcome::Code(7)),
        ],
        text: FENCES,
        state: CellState::Off,
        banned: false,
        may: false,
        running: 1,
    },
];

impl Case for Row {
    fn known(&self, rt: &impl Abort, alloc: Global) -> Known {
        let cluster = cluster_of(rt, alloc, self.text);
        known_of(rt, alloc, cluster, journal(rt, alloc, self.records))
    }

    fn holds(&self, _rt: &impl Abort, _alloc: Global, known: &Known) -> bool {
        let told = Cell {
            state: self.state,
            may: self.may,
            may_promoted: false,
            banned: self.banned,
            running: self.running,
        };
        known.states.cells.as_slice() == [told].as_slice()
            && banned(&known.cluster, &known.journal, 0, 0) == self.banned
    }
}

#[test]
fn states_of_one_leaf_on_one_node(rt: HostRuntime) {
    check_all(&rt, rt.alloc(), ROWS);
}
