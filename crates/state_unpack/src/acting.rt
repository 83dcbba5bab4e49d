//! What the cluster may do.

ghost use Rattle.std.specs.Prelude.{◌≡◌, List};
ghost use Rattle.cluster_types.specs.declared.journal.Event.{Event as EventOf};
ghost use Rattle.cluster_types.specs.declared.journal.Promotion.{Promotion as PromotionOf};
ghost use Rattle.cluster_types.specs.Rights.{may_act_by, rights_by, rights_of};
ghost use Rattle.cluster_types.specs.UnpackedStates.{states_of};

use cluster_types::{Cluster, Policy, Rights, States};

fn may_act(cluster: &Cluster, quorum: bool) -> bool
    ensures { result ≡ may_act_by cluster.now quorum }
{
    quorum || cluster.properties.policy == Policy::Ignore
}

fn rights_by(cluster: &Cluster, quorum: bool) -> Rights
    ensures { result ≡ rights_by cluster.now quorum }
{
    let properties = cluster.properties;
    let may_act = may_act(cluster, quorum);
    let may_start = may_act && !properties.stop_all;
    Rights {
        may_fence: properties.fencing && may_act,
        may_start,
        may_keep: may_start || properties.policy == Policy::Freeze && !properties.stop_all,
    }
}

/// What the cluster may do in these states: fence nodes, where it fences at all and has quorum or goes on without; start resources, where it has
/// quorum or goes on without and not all are stopped; and keep what runs, also where it is frozen (Pacemaker Explained, "no-quorum-policy",
/// "stonith-enabled", "stop-all-resources"). The states are those that some journal tells of the cluster.
pub fn rights(cluster: &Cluster, states: &States) -> Rights
    ensures { (events : List EventOf) (promotions : List PromotionOf)
        → states.now ≡ states_of cluster.now events promotions → result ≡ rights_of cluster.now events }
{
    rights_by(cluster, states.quorum)
}
