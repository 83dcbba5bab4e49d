//! What small texts say.

ghost use Rattle.std.specs.Prelude.{◌≡◌, ◌<◌, ◌^◌, true};
ghost use Rattle.cluster_types.specs.Journals.{moment_of};
ghost use Rattle.cluster_types.specs.Safety.{IsAtRest};
ghost use Rattle.cluster_types.specs.Valid.{IsValid, KeepsLimits};
ghost use Rattle.state_unpack.specs.Knowledge.{has_few_monitors};

use cluster_types::{Cluster, Journal};
use input_reading::read_lone_head;
use state_unpack::valid_clusters_have_few_monitors;
use std::alloc::Global;
use std::process::Abort;

/// Two nodes, of which nothing is known but that they are there, and a resource.
pub(crate) const TWO: &str =
    "node n1\nnode n2\nprimitive vip IPaddr2\n%status\nnow 1000\nquorum yes\nnode n1 online\nnode n2 online\n";

/// The nodes `n1` and `n2`, the plain leaf `vip`, and the promotable leaf `db` with a monitor for each role.
pub(crate) const CONFIGURATION: &str =
    "node n1\nnode n2\nprimitive vip ocf:heartbeat:IPaddr2 op monitor interval=10s\n\
    primitive db ocf:heartbeat:pgsql op monitor interval=10s op monitor interval=11s role=Promoted\n\
    clone dbs db meta promotable=true\n";

/// The cluster and the first journal of a text.
pub(crate) fn start_of(rt: &impl Abort, alloc: Global, text: &str) -> (Cluster, Journal)
    ensures valid { IsValid result.0 }
    ensures limits { KeepsLimits result.0 }
    ensures monitors { has_few_monitors result.0 ≡ true }
    ensures at_rest { IsAtRest result.1.events }
    ensures early { moment_of result.1.events < 2 ^ 40 }
    ensures moment { moment_of result.1.events < 2 ^ 64 }
{
    valid_clusters_have_few_monitors();
    assert!(rt; text.len() <= 16_777_216);
    let text = text.as_bytes().to_vec(alloc).expect(rt, "memory");
    let head = read_lone_head(alloc, text).expect(rt, "the text is read");
    (head.cluster, head.journal)
}

/// The cluster alone.
pub(crate) fn cluster_of(rt: &impl Abort, alloc: Global, text: &str) -> Cluster
    ensures valid { IsValid result }
    ensures limits { KeepsLimits result }
{
    let (cluster, _) = start_of(rt, alloc, text);
    cluster
}
