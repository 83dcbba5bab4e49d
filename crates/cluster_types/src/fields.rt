//! What a cluster says of one of its leaves or nodes, by its number. A number that the cluster doesn't have gets 0, an empty text or list, false,
//! `restart` or `Started`.

ghost use Rattle.std.specs.Prelude.{◌≡◌, slice_get};
ghost use Rattle.std.specs.Option.{option_copied};
ghost use Rattle.cluster_types.specs.AnswersThatApply.{role_of_interval};
ghost use Rattle.cluster_types.specs.Fields as fields;
ghost use Rattle.cluster_types.specs.NodeStates.{is_standby};

use crate::cluster::Cluster;
use crate::leaf::{Leaf, LeafId, Monitor, Role, TargetRole};
use crate::node::{Node, NodeId};
use score::Score;

impl Cluster {
    /// The leaf of this number, if there is one.
    pub fn leaf(&self, leaf: LeafId) -> Option<&Leaf>
        ensures { option_copied result ≡ slice_get self.now.leaves leaf }
    {
        self.leaves.as_slice().get(leaf as usize)
    }

    /// The node of this number, if there is one.
    pub fn node(&self, node: NodeId) -> Option<&Node>
        ensures { option_copied result ≡ slice_get self.now.nodes node }
    {
        self.nodes.as_slice().get(node as usize)
    }

    /// On how many nodes the leaf may run at once.
    pub fn copies(&self, leaf: LeafId) -> u32
        ensures { result ≡ fields.copies self.now leaf }
    {
        match self.leaf(leaf) {
            Some(leaf) => leaf.copies,
            None => 0,
        }
    }

    /// On how many nodes it may be promoted at once.
    pub fn promoted_copies(&self, leaf: LeafId) -> u32
        ensures { result ≡ fields.promoted_copies self.now leaf }
    {
        match self.leaf(leaf) {
            Some(leaf) => leaf.promoted_copies,
            None => 0,
        }
    }

    /// Whether it is inside a clone.
    pub fn is_cloned(&self, leaf: LeafId) -> bool
        ensures { result ≡ fields.is_cloned self.now leaf }
    {
        match self.leaf(leaf) {
            Some(leaf) => leaf.cloned,
            None => false,
        }
    }

    /// Whether the leaf may be promoted.
    pub fn is_promotable(&self, leaf: LeafId) -> bool
        ensures { result ≡ fields.is_promotable self.now leaf }
    {
        match self.leaf(leaf) {
            Some(leaf) => leaf.promotable,
            None => false,
        }
    }

    /// Whether it is a member of a group, after the first.
    pub fn is_follower(&self, leaf: LeafId) -> bool
        ensures { result ≡ fields.is_follower self.now leaf }
    {
        match self.leaf(leaf) {
            Some(leaf) => leaf.follower,
            None => false,
        }
    }

    /// Whether the cluster may start and stop it.
    pub fn is_managed(&self, leaf: LeafId) -> bool
        ensures { result ≡ fields.is_managed self.now leaf }
    {
        match self.leaf(leaf) {
            Some(leaf) => leaf.managed,
            None => false,
        }
    }

    /// Whether it may be moved live.
    pub fn may_migrate(&self, leaf: LeafId) -> bool
        ensures { result ≡ fields.may_migrate self.now leaf }
    {
        match self.leaf(leaf) {
            Some(leaf) => leaf.migrates,
            None => false,
        }
    }

    /// How much the leaf matters: 0 where none was set.
    pub fn priority(&self, leaf: LeafId) -> Score
        ensures { result ≡ fields.priority self.now leaf }
    {
        match self.leaf(leaf) {
            Some(leaf) => leaf.priority,
            None => Score { points: 0 },
        }
    }

    /// At how many failures on a node the leaf is banned from there; 0 is never.
    pub fn threshold(&self, leaf: LeafId) -> Score
        ensures { result ≡ fields.threshold self.now leaf }
    {
        match self.leaf(leaf) {
            Some(leaf) => leaf.threshold,
            None => Score { points: 0 },
        }
    }

    /// After how many milliseconds its failures are forgotten; 0 is never.
    pub fn failure_timeout(&self, leaf: LeafId) -> u32
        ensures { result ≡ fields.failure_timeout self.now leaf }
    {
        match self.leaf(leaf) {
            Some(leaf) => leaf.timeout_ms,
            None => 0,
        }
    }

    /// Its recurring monitors.
    pub fn monitors(&self, leaf: LeafId) -> &[Monitor]
        ensures { result.now ≡ fields.monitors self.now leaf }
    {
        match self.leaf(leaf) {
            Some(leaf) => leaf.monitors.as_slice(),
            None => &[],
        }
    }

    /// The role of its recurring monitor of this interval, in milliseconds: `Started` where it has none.
    pub fn role_of_interval(&self, leaf: LeafId, interval_ms: u32) -> Role
        ensures { result ≡ role_of_interval (fields.monitors self.now leaf) interval_ms }
    {
        let monitors = self.monitors(leaf);
        for monitor in monitors {
            if monitor.interval_ms == interval_ms {
                return monitor.role;
            }
        }
        Role::Started
    }

    /// The role that was asked for: `Started` where none was.
    pub fn target_role(&self, leaf: LeafId) -> TargetRole
        ensures { result ≡ fields.target_role_of self.now leaf }
    {
        match self.leaf(leaf) {
            Some(leaf) => leaf.target_role,
            None => TargetRole::Started,
        }
    }

    /// The name of the leaf, which is that of its primitive.
    pub fn leaf_name(&self, leaf: LeafId) -> &[u8]
        ensures { result.now ≡ fields.leaf_name self.now leaf }
    {
        match self.leaf(leaf) {
            Some(leaf) => leaf.name.bytes(),
            None => &[],
        }
    }

    /// Whether the node may run no resource.
    pub fn is_standby(&self, node: NodeId) -> bool
        ensures { result ≡ is_standby self.now node }
    {
        match self.node(node) {
            Some(node) => node.standby,
            None => false,
        }
    }
}
