//! Small graphs, and executors of them.

ghost use Rattle.std.specs.Prelude.{◌≡◌, ◌<◌, ◌^◌, true};
ghost use Rattle.std.specs.List.{list_all};
ghost use Rattle.cluster_types.specs.Valid.{KeepsLimits};
ghost use Rattle.run_cases.specs.RisingEdges.{rises};
ghost use Rattle.state_unpack.specs.Knowledge.{has_few_monitors};

use cluster_types::{Action, Cluster, Edge, Edges, Graph, Journal, Op, Role, moment_of};
use graph_exec::Executor;
use listed::Listed;
use std::alloc::Global;
use std::process::Abort;

pub(crate) const PROBE_1: Action = Action::Probe { leaf: 0, node: 0 };

pub(crate) const PROBE_2: Action = Action::Probe { leaf: 0, node: 1 };

pub(crate) const START_1: Action = Action::Operation {
    op: Op::Start,
    leaf: 0,
    node: 0,
    interval_ms: 0,
    role: Role::Started,
};

/// Actions in the order of their numbers, and of which position each comes before which.
pub(crate) type Plan = (&'static [Action], &'static [Edge]);

fn rises(edge: &Edge, count: u32) -> bool
    ensures { result ≡ rises count edge.now }
{
    edge.before < edge.after && edge.after < count
}

fn all_rise(edges: &[Edge], count: u32) -> bool
    ensures { result ≡ list_all (rises count) edges.now }
{
    for edge in edges {
        if !rises(edge, count) {
            return false;
        }
    }
    true
}

/// The graph of a plan, each edge of which leads from an action to a later one.
pub(crate) fn graph_of(rt: &impl Abort, alloc: Global, plan: Plan) -> Graph {
    let (actions, edges) = plan;
    let actions = actions.to_vec(alloc).expect(rt, "memory");
    let edges = edges.to_vec(alloc).expect(rt, "memory");
    assert!(rt; actions.len() < 4_294_967_296);
    let positions = actions.len() as u32;
    if !all_rise(edges.as_slice(), positions) {
        panic!(rt; "an edge leads back");
    }
    let edges = Edges {
        positions,
        list: Listed::from(edges),
    };
    Graph::new(actions, edges)
}

/// An executor of a plan for a journal.
pub(crate) fn executor_of<'c>(
    rt: &impl Abort,
    alloc: Global,
    cluster: &'c Cluster,
    journal: Journal,
    plan: Plan,
) -> Executor<'c>
    requires limits { KeepsLimits cluster.now }
    requires monitors { has_few_monitors cluster.now ≡ true }
{
    assert!(rt; moment_of(journal.events.as_slice()) < 18_446_744_073_709_551_616);
    let graph = graph_of(rt, alloc, plan);
    Executor::new(alloc, cluster, journal, graph)
        .ok()
        .expect(rt, "memory")
}
