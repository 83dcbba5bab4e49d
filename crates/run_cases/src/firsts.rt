//! What really runs in a simulated cluster at first.

ghost use Rattle.std.specs.Prelude.{◌≡◌, ◌<◌, ◌^◌, true};
ghost use Rattle.cluster_types.specs.Journals.{moment_of};
ghost use Rattle.cluster_types.specs.Valid.{KeepsLimits};
ghost use Rattle.state_unpack.specs.Knowledge.{has_few_monitors};

use crate::starts::start_of;
use cluster_types::{Cluster, Journal, LeafId, NodeId};
use simulated::{Real, World};
use std::alloc::Global;
use std::process::Abort;

/// The first runs, and is promoted on the first node. Of the second nothing was heard there, and it doesn't run on the
/// other.
const STATUS: &str = "\
node n1
node n2
primitive db pgsql
primitive vip IPaddr2
ms mdb db
%status
now 1000
quorum yes
node n1 online
node n2 online
op n1 db start 0 0 900
op n1 db promote 0 0 901
op n2 db start 0 0 900
op n2 vip monitor 0 7 900
";

/// What a leaf really does on a node.
const CELLS: &[(LeafId, NodeId, Real)] = &[
    (0, 0, Real::Promoted),
    (0, 1, Real::Started),
    (1, 0, Real::Off),
    (1, 1, Real::Off),
    (2, 0, Real::Off),
];

fn runs_so(rt: &impl Abort, alloc: Global, cluster: &Cluster, journal: &Journal)
    requires limits { KeepsLimits cluster.now }
    requires monitors { has_few_monitors cluster.now ≡ true }
    requires moment { moment_of journal.now.events < 2 ^ 64 }
{
    let world = World::new(alloc, cluster, journal, 7).expect(rt, "memory");
    for (leaf, node, real) in CELLS {
        assert!(rt; world.real(*leaf, *node) == *real);
    }
}

#[test]
fn what_may_run_runs_at_first(rt: HostRuntime) {
    let (cluster, journal) = start_of(&rt, rt.alloc(), STATUS);
    runs_so(&rt, rt.alloc(), &cluster, &journal);
}
