//! Which actions of a graph may begin.

ghost use Rattle.std.specs.Prelude.{◌≡◌};
ghost use Rattle.run_cases.specs.SmallGraph.{small_graph};

use crate::small_graphs::{PROBE_1, PROBE_2};
use cluster_types::{Action, Edge, Edges, Graph};
use graph_exec::Waiting;
use listed::Listed;
use std::alloc::Global;
use std::process::Abort;

const PROBE_3: Action = Action::Probe { leaf: 0, node: 2 };

const EDGES: [Edge; 3] = [
    Edge {
        before: 0,
        after: 3,
    },
    Edge {
        before: 1,
        after: 3,
    },
    Edge {
        before: 3,
        after: 2,
    },
];

/// Three probes and a gate, through which the first two come before the third.
fn joined(rt: &impl Abort, alloc: Global) -> Graph
    ensures { result ≡ small_graph }
{
    let actions = [PROBE_1, PROBE_2, PROBE_3]
        .to_vec(alloc)
        .expect(rt, "memory");
    let list = EDGES.to_vec(alloc).expect(rt, "memory");
    let edges = Edges {
        positions: 4,
        list: Listed::from(list),
    };
    Graph::new(actions, edges)
}

/// The number of the next action, which begins.
fn begun(waiting: &mut Waiting) -> Option<u32> {
    let number = waiting.next()?;
    waiting.begin(number);
    Some(number)
}

#[test]
fn an_action_waits_for_those_before_its_gate(rt: HostRuntime) {
    let graph = joined(&rt, rt.alloc());
    let mut waiting = Waiting::new(rt.alloc(), graph).ok().expect(&rt, "memory");
    assert!(rt; waiting.graph().count() == 3);
    let numbers = [
        begun(&mut waiting),
        begun(&mut waiting),
        begun(&mut waiting),
    ];
    assert!(rt; numbers == [Some(1), Some(2), None]);
}
