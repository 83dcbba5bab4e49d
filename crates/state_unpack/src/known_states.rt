//! What a journal tells of a cluster, kept up event by event.

ghost use Rattle.std.specs.Prelude.{◌≡◌, ◌<◌, ◌+◌, ◌^◌, ◌++◌, ◌∷◌, [], List, IfOk, length, true};
ghost use Rattle.cluster_types.specs.declared.cluster.Cluster.{Cluster as ClusterOf};
ghost use Rattle.cluster_types.specs.declared.journal.Event.{Event as EventOf};
ghost use Rattle.cluster_types.specs.AnswersThatApply.{is_joined_sign};
ghost use Rattle.cluster_types.specs.Journals as journals;
ghost use Rattle.cluster_types.specs.May as may;
ghost use Rattle.cluster_types.specs.NodeStates.{node_state};
ghost use Rattle.cluster_types.specs.UnpackedStates.{states_of};
ghost use Rattle.cluster_types.specs.Valid.{KeepsLimits};
ghost use Rattle.state_unpack.specs.Knowledge.{has_few_monitors};
ghost use Rattle.state_unpack.specs.KeptKnowledge.{Knows};

use crate::facts::Facts;
use crate::nodes::{facts_or_none, node_from};
use crate::signs::{Sign, nothing_shown, quorum_after, show};
use crate::states::states_from;
use crate::telling::{nothing_told, tell};
use cluster_types::{Cluster, Event, LeafId, NoMemory, NodeId, NodeState, Promotion, States};
use listed::value_at;
use std::alloc::Global;
use std::marker::Model;

/// What a journal tells of a cluster so far. Each further event is told without memory.
#[derive(Drop)]
pub struct Known<'c> {
    cluster: &'c Cluster,
    /// Leaf by leaf, node by node.
    cells: Vec<Facts>,
    /// Per node, the last sign of it.
    signs: Vec<Option<Sign>>,
    quorum: bool,
    /// In seconds.
    moment: u64,
}

impl<'c> Model for Known<'c> {
    ghost use Rattle.state_unpack.specs.KeptKnowledge.{Knowledge, KnowledgeFits, knowledge};

    ghost Value = { Knowledge };

    ghost view = { λ k. knowledge k.cluster.now k.cells.items k.signs.items k.quorum k.moment };

    ghost invariant = { λ k. KnowledgeFits (knowledge k.cluster.now k.cells.items k.signs.items k.quorum k.moment) };
}

impl<'c> Known<'c> {
    /// What is known where nothing has happened.
    fn nothing(alloc: Global, cluster: &'c Cluster) -> Result<Known<'c>, NoMemory>
        requires limits { KeepsLimits cluster.now }
        requires monitors { has_few_monitors cluster.now ≡ true }
        ensures { IfOk result (λ known. Knows cluster.now [] known) }
    {
        let cells = nothing_told(alloc, cluster)?;
        let signs = nothing_shown(alloc, cluster.nodes.len())?;
        Ok(Known {
            cluster,
            cells,
            signs,
            quorum: false,
            moment: 0,
        })
    }

    /// What these events tell of the cluster. It asks for a cluster within the limits, of which each leaf has at most eight recurring monitors, as each
    /// valid cluster is, and for a moment in seconds that fits 64 bits. The events are gone through once, however many cells there are.
    pub fn new(alloc: Global, cluster: &'c Cluster, events: &[Event]) -> Result<Known<'c>, NoMemory>
        requires limits { KeepsLimits cluster.now }
        requires monitors { has_few_monitors cluster.now ≡ true }
        requires moment { journals.moment_of events.now < 2 ^ 64 }
        ensures { IfOk result (λ known. Knows cluster.now events.now known) }
    {
        let mut known = Known::nothing(alloc, cluster)?;
        for event in events {
            known.tell(*event);
        }
        Ok(known)
    }

    /// The same once more, to be told of other events than this one.
    pub fn copied(&self, alloc: Global) -> Result<Known<'c>, NoMemory>
        ensures { IfOk result (λ copy. copy ≡ self.now) }
    {
        let cells = Vec::from_slice(alloc, self.cells.as_slice())?;
        let signs = Vec::from_slice(alloc, self.signs.as_slice())?;
        Ok(Known {
            cluster: self.cluster,
            cells,
            signs,
            quorum: self.quorum,
            moment: self.moment,
        })
    }

    /// Tells of one more event. The moment after it fits 64 bits.
    pub fn tell(&mut self, event: Event)
        requires moment { self.old.moment + journals.seconds_of event < 2 ^ 64 }
        ensures known { (c : ClusterOf) (es : List EventOf) → Knows c es self.old → Knows c (es ++ event ∷ []) self.new }
        ensures cluster { self.new.cluster ≡ self.old.cluster }
    {
        tell(self.cluster, event, &mut self.cells);
        show(event, &mut self.signs);
        self.quorum = quorum_after(self.quorum, event);
        self.moment += event.seconds();
    }

    /// The cluster of which it tells.
    pub fn cluster(&self) -> &'c Cluster
        ensures { result.now ≡ self.now.cluster }
    {
        self.cluster
    }

    /// The state of a node of the cluster.
    pub fn node_state(&self, node: NodeId) -> NodeState
        requires { node < length self.now.cluster.nodes }
        ensures { (c : ClusterOf) (es : List EventOf) → Knows c es self.now → result ≡ node_state c node es }
    {
        node_from(
            self.cluster,
            self.cells.as_slice(),
            self.signs.as_slice(),
            node,
        )
    }

    /// Whether the last sign of a node of the cluster is that it joined.
    pub fn has_joined(&self, node: NodeId) -> bool
        requires { node < length self.now.cluster.nodes }
        ensures { (c : ClusterOf) (es : List EventOf) → Knows c es self.now → result ≡ is_joined_sign (journals.last_sign node es) }
    {
        matches!(
            value_at(self.signs.as_slice(), node as usize),
            Some(Sign::Joined)
        )
    }

    /// Whether a leaf of the cluster may run on a node of it.
    pub fn may(&self, leaf: LeafId, node: NodeId) -> bool
        requires leaf { leaf < length self.now.cluster.leaves }
        requires node { node < length self.now.cluster.nodes }
        ensures { (c : ClusterOf) (es : List EventOf) → Knows c es self.now → result ≡ may.may_be_running c leaf node es }
    {
        facts_or_none(self.cluster, self.cells.as_slice(), leaf, node).may
    }

    /// Whether a leaf of the cluster may be promoted on a node of it.
    pub fn may_promoted(&self, leaf: LeafId, node: NodeId) -> bool
        requires leaf { leaf < length self.now.cluster.leaves }
        requires node { node < length self.now.cluster.nodes }
        ensures { (c : ClusterOf) (es : List EventOf) → Knows c es self.now → result ≡ may.may_be_promoted c leaf node es }
    {
        self.cluster.is_promotable(leaf)
            && facts_or_none(self.cluster, self.cells.as_slice(), leaf, node).promoted
    }

    /// The moment, in seconds.
    pub fn moment(&self) -> u64
        ensures value { result ≡ self.now.moment }
        ensures known { (c : ClusterOf) (es : List EventOf) → Knows c es self.now → result ≡ journals.moment_of es }
    {
        self.moment
    }

    /// All that is known, beside these promotion scores of the status.
    pub fn states(&self, alloc: Global, promotions: &[Promotion]) -> Result<States, NoMemory>
        ensures { (c : ClusterOf) (es : List EventOf) → Knows c es self.now → IfOk result (λ states. states ≡ states_of c es promotions.now) }
    {
        let (cells, signs) = (self.cells.as_slice(), self.signs.as_slice());
        let quorum = self.quorum;
        Ok(states_from(
            alloc,
            self.cluster,
            cells,
            signs,
            quorum,
            self.moment,
            promotions,
        )?)
    }
}
