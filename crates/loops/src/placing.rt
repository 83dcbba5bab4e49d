//! Where an action stands in the order of numbers.

ghost use Rattle.std.specs.Prelude.{◌≡◌, List};
ghost use Rattle.cluster_types.specs.declared.cluster.Cluster.{Cluster as ClusterOf};
ghost use Rattle.cluster_types.specs.declared.journal.Action.{Action as ActionOf};
ghost use Rattle.cluster_types.specs.declared.journal.Action.TheVariants.{Operation};
ghost use Rattle.cluster_types.specs.declared.leaf.Role.{Role as RoleOf};
ghost use Rattle.cluster_types.specs.Numbers.{is_earlier, action_place};
ghost use Rattle.cluster_types.specs.Precedence as precedence;
ghost use Rattle.loops.specs.Ranks.{AreMigrating, AreRanks};

use crate::place::{Phase, Place};
use crate::ranking::StepRanks;
use cluster_types::{Action, LeafId, NodeId, Op};
use listed::flag_at;

fn is_migrating(migrating: &[bool], leaf: LeafId) -> bool
    ensures { (actions : List ActionOf) → AreMigrating actions migrating.now → result ≡ precedence.is_migrating actions leaf }
{
    flag_at(migrating, leaf)
}

impl StepRanks {
    fn place_in_cell(
        &self,
        migrating: &[bool],
        what: Op,
        leaf: LeafId,
        node: NodeId,
        interval_ms: u32,
    ) -> Place
        ensures { (c : ClusterOf) (actions : List ActionOf) (role : RoleOf) → AreRanks c self.now → AreMigrating actions migrating.now
            → result ≡ action_place c actions (Operation what leaf node interval_ms role) }
    {
        let rank = self.rank(what, leaf);
        match what {
            Op::Stop if is_migrating(migrating, leaf) => Place {
                leaf,
                node,
                ..Place::first_of(Phase::SourceStops)
            },
            Op::Stop | Op::Demote => Place {
                rank,
                leaf,
                node,
                ..Place::first_of(Phase::Stops)
            },
            Op::Start | Op::Promote => Place {
                rank,
                leaf,
                node,
                ..Place::first_of(Phase::Starts)
            },
            Op::Monitor => Place {
                leaf,
                node,
                interval_ms,
                ..Place::first_of(Phase::Monitors)
            },
        }
    }

    /// Where the action stands in the order of numbers. The flags say of each leaf whether it migrates, and a leaf without a flag
    /// doesn't. Nothing is said where the ranks are of another cluster, or the flags of other actions.
    pub fn place(&self, migrating: &[bool], action: &Action) -> Place
        ensures { (c : ClusterOf) (actions : List ActionOf) → AreRanks c self.now → AreMigrating actions migrating.now
            → result ≡ action_place c actions action.now }
    {
        match *action {
            Action::Fence { node } => Place {
                node,
                ..Place::first_of(Phase::Fences)
            },
            Action::Probe { leaf, node } => Place {
                leaf,
                node,
                ..Place::first_of(Phase::Probes)
            },
            Action::Operation {
                op,
                leaf,
                node,
                interval_ms,
                ..
            } => self.place_in_cell(migrating, op, leaf, node, interval_ms),
            Action::MigrateTo {
                leaf,
                source: node,
                ..
            } => Place {
                leaf,
                node,
                ..Place::first_of(Phase::Sends)
            },
            Action::MigrateFrom {
                leaf,
                target: node,
                ..
            } => Place {
                leaf,
                node,
                ..Place::first_of(Phase::TakingsIn)
            },
        }
    }

    /// Whether the one action has a lower number than the other, by the same ranks and flags.
    pub fn before(&self, migrating: &[bool], one: &Action, other: &Action) -> bool
        ensures { (c : ClusterOf) (actions : List ActionOf) → AreRanks c self.now → AreMigrating actions migrating.now
            → result ≡ is_earlier c actions one.now other.now }
    {
        self.place(migrating, one) < self.place(migrating, other)
    }
}
