//! What decisions read beside the table.

ghost use Rattle.std.specs.Prelude.{◌≡◌, ℕ, List};
ghost use Rattle.cluster_types.specs.declared.journal.Event.{Event as EventOf};
ghost use Rattle.cluster_types.specs.declared.journal.Promotion.{Promotion as PromotionOf};
ghost use Rattle.cluster_types.specs.Rights.{rights_of};
ghost use Rattle.cluster_types.specs.UnpackedStates.{states_of};
ghost use Rattle.cluster_types.specs.Valid.{KeepsLimits};
ghost use Rattle.score.specs.NodeSet.{has};
ghost use Rattle.placement.specs.UsableNodes.{is_usable_by};

use crate::{ScoreTable, usable_nodes};
use cluster_types::{Cluster, Rights, States};
use score::NodeSet;
use state_unpack::rights;

/// A cluster in some states, with what it may do, the nodes that may run resources, and the totals before colocations.
#[derive(Drop)]
pub struct Known<'c> {
    pub cluster: &'c Cluster,
    pub states: &'c States,
    pub scores: &'c ScoreTable,
    /// What the cluster may do.
    pub rights: Rights,
    /// The nodes that may run resources.
    pub usable: NodeSet,
    pub ghost limits: { KeepsLimits cluster.now },
    pub ghost told: { (es : List EventOf) (promotions : List PromotionOf)
        → states.now ≡ states_of cluster.now es promotions → rights ≡ rights_of cluster.now es },
    pub ghost nodes: { (n : ℕ) → has usable n ≡ is_usable_by cluster.now states.now n },
}

impl<'c> Known<'c> {
    /// What decisions read of a cluster within the limits.
    pub fn new(cluster: &'c Cluster, states: &'c States, scores: &'c ScoreTable) -> Known<'c>
        requires { KeepsLimits cluster.now }
        ensures cluster { result.cluster.now ≡ cluster.now }
        ensures states { result.states.now ≡ states.now }
        ensures scores { result.scores.now ≡ scores.now }
    {
        Known {
            cluster,
            states,
            scores,
            rights: rights(cluster, states),
            usable: usable_nodes(cluster, states),
        }
    }
}
