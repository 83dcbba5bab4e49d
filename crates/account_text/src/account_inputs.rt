//! What the account of decisions reads beside the table.

ghost use Rattle.std.specs.Prelude.{◌≡◌, ◌<◌, length, IfOk};
ghost use Rattle.cluster_types.specs.Decisions.{leaf_of};
ghost use Rattle.cluster_types.specs.Valid.{IsValid};
ghost use Rattle.account_text.specs.Inner.Journal.{HaveJournal};
ghost use Rattle.account_text.specs.Inner.AccountInputs.{ReadsCluster};
ghost use Rattle.account_text.specs.Inner.PartsByStates as spec;

use crate::joining::joined_leaves;
use crate::sources::Sources;
use cluster_types::{Cluster, Decision, LeafId, States};
use edges::Edge;
use faults::NoMemory;
use placement::{Known, OwnRows, ScoreTable, first_said, ties_of};
use score::Score;
use std::alloc::Global;

/// What the account reads beside the table.
#[derive(Drop)]
pub(crate) struct Read<'c> {
    pub(crate) known: Known<'c>,
    pub(crate) sources: Sources<'c>,
    pub(crate) own: OwnRows<'c>,
    pub(crate) ties: Vec<Edge>,
    /// For each cell the promotion score that is said of it.
    pub(crate) said: Vec<Option<Score>>,
}

impl<'c> Read<'c> {
    pub(crate) fn new(
        alloc: Global,
        cluster: &'c Cluster,
        states: &'c States,
        scores: &'c ScoreTable,
    ) -> Result<Read<'c>, NoMemory>
        requires valid { IsValid cluster.now }
        requires journal { HaveJournal cluster.now states.now scores.now }
        ensures read { IfOk result ReadsCluster }
        ensures cluster { IfOk result (λ read. read.known.cluster.now ≡ cluster.now) }
        ensures states { IfOk result (λ read. read.known.states.now ≡ states.now) }
        ensures scores { IfOk result (λ read. read.known.scores.now ≡ scores.now) }
    {
        let sources = Sources::new(alloc, cluster, states)?;
        let own = OwnRows::new(alloc, cluster, states)?;
        let ties = ties_of(alloc, cluster)?;
        let said = first_said(alloc, cluster, states.promotions.as_slice())?;
        let known = Known::new(cluster, states, scores);
        Ok(Read {
            known,
            sources,
            own,
            ties,
            said,
        })
    }

    /// The leaves whose own terms count for the decision: those that joined the leaf that is placed, and none for one that is promoted.
    pub(crate) fn joined_by(
        &self,
        alloc: Global,
        decision: Decision,
    ) -> Result<Vec<LeafId>, NoMemory>
        requires read { ReadsCluster self.now }
        requires leaf { leaf_of decision < length self.now.known.cluster.now.leaves }
        ensures { IfOk result (λ joined. joined.items ≡ spec.joined_by self.now.known.cluster.now self.now.known.states.now decision) }
    {
        match decision {
            Decision::Place(leaf) => joined_leaves(alloc, &self.own, &self.ties, leaf),
            Decision::Promote(_) => Ok(Vec::new(alloc)),
        }
    }
}
