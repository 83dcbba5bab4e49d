//! What comes back when memory runs out.

ghost use Rattle.std.specs.Prelude.{◌≡◌, ◌<◌, ◌^◌, true};
ghost use Rattle.cluster_types.specs.Journals.{moment_of};
ghost use Rattle.cluster_types.specs.Valid.{KeepsLimits};
ghost use Rattle.state_unpack.specs.Knowledge.{has_few_monitors};

use crate::small_graphs::{PROBE_1, graph_of};
use crate::starts::start_of;
use cluster_types::{Cluster, Graph, Journal};
use graph_exec::{End, Executor, Script, run_transition};
use std::alloc::Global;

const TEXT: &str = "node n1\nprimitive a Dummy\n%status\nnow 5\nquorum yes\nnode n1 online\n";

/// The transition is carried out to its end.
fn is_complete(alloc: Global, mut executor: Executor<'_>) -> bool {
    let end = run_transition(&mut executor, &mut Script::new(Vec::new(alloc)));
    let _journal = executor.into_journal();
    end == End::Complete
}

/// The transition is carried out, or what was handed in comes back.
fn is_complete_or_back(alloc: Global, cluster: &Cluster, journal: Journal, graph: Graph) -> bool
    requires limits { KeepsLimits cluster.now }
    requires monitors { has_few_monitors cluster.now ≡ true }
    requires moment { moment_of journal.events < 2 ^ 64 }
{
    let count = journal.events.len();
    match Executor::new(alloc, cluster, journal, graph) {
        Ok(executor) => is_complete(alloc, executor),
        Err(back) => back.journal.events.len() == count && back.graph.count() == 1,
    }
}

// With each allocation refused in turn, by `rt try --test --fail-alloc N`, this passes too, but for those that the test itself makes.
#[test]
fn memory_suffices_or_what_was_handed_in_comes_back(rt: HostRuntime) {
    let alloc = rt.alloc();
    let (cluster, journal) = start_of(&rt, alloc, TEXT);
    let graph = graph_of(&rt, alloc, (&[PROBE_1], &[]));
    assert!(rt; is_complete_or_back(alloc, &cluster, journal, graph));
}
