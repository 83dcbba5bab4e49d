//! Which answers apply.

ghost use Rattle.std.specs.Prelude.{◌≡◌, ◌<◌, ◌+◌, ◌^◌, ◌++◌, ◌&&◌, nat_lt, length};
ghost use Rattle.cluster_types.specs.AnswersThatApply as answering;
ghost use Rattle.cluster_types.specs.Journals as journals;
ghost use Rattle.cluster_types.specs.NodeStates.{node_state};
ghost use Rattle.cluster_types.specs.Steps.{in_flight_by_number, journal, count_from_outside};
ghost use Rattle.graph_exec.specs.Executors.{transition_in};

use crate::transition::course::Course;
use cluster_types::{Action, Answer, LeafId, NodeId, NodeState, Op, Outcome};
use state_unpack::{is_bad, is_ignored};

/// How many answers from outside a transition takes at most.
const MOST_FROM_OUTSIDE: usize = 256;

/// The moment stays below this one, in seconds.
const END_OF_TIME: u64 = 1 << 40;

impl<'c> Course<'c> {
    fn is_node(&self, node: NodeId) -> bool
        ensures { result ≡ nat_lt node (length self.now.cluster.nodes) }
    {
        (node as usize) < self.log.cluster().nodes.len()
    }

    /// Whether one more answer from outside may be taken.
    fn may_be_told(&self) -> bool
        ensures { result ≡ nat_lt (count_from_outside (transition_in self.now) self.now.since) answering.most_from_outside }
    {
        self.log.outside() < MOST_FROM_OUTSIDE
    }

    /// Whether the node may be lost: it is there.
    fn may_leave(&self, node: NodeId) -> bool
        ensures { result ≡ (nat_lt node (length self.now.cluster.nodes) && answering.is_joined_sign (journals.last_sign node (journal (transition_in self.now) self.now.since))) }
    {
        if !self.is_node(node) {
            return false;
        }
        self.log.known().has_joined(node)
    }

    /// Whether the node may join: it is offline.
    fn may_join(&self, node: NodeId) -> bool
        ensures { result ≡ (nat_lt node (length self.now.cluster.nodes) && answering.is_offline_state (node_state self.now.cluster node (journal (transition_in self.now) self.now.since))) }
    {
        if !self.is_node(node) {
            return false;
        }
        matches!(self.log.known().node_state(node), NodeState::Offline)
    }

    /// Whether so many seconds may go by.
    fn may_pass(&self, seconds: u64) -> bool
        ensures { result ≡ nat_lt (journals.moment_of (journal (transition_in self.now) self.now.since) + seconds) (2 ^ 40) }
    {
        let moment = self.log.moment();
        if moment >= END_OF_TIME {
            return false;
        }
        seconds < END_OF_TIME - moment
    }

    /// The recurring monitor of this interval of the leaf on the node, as an action.
    pub(crate) fn monitor_action(&self, leaf: LeafId, node: NodeId, interval_ms: u32) -> Action
        ensures { result ≡ answering.monitor_action self.now.cluster leaf node interval_ms }
    {
        Action::Operation {
            op: Op::Monitor,
            leaf,
            node,
            interval_ms,
            role: self.log.cluster().role_of_interval(leaf, interval_ms),
        }
    }

    /// Whether a failed monitor of the cell may be told: the cell is there, its node is online, the leaf may run on it, the
    /// code is bad and not ignored, and nothing of the cell is in flight.
    fn tells_failure(&self, node: NodeId, leaf: LeafId, interval_ms: u32, code: u8) -> bool
        ensures { result ≡ answering.tells_failure self.now.cluster (journal (transition_in self.now) self.now.since) (in_flight_by_number (transition_in self.now) self.now.since) node leaf interval_ms code }
    {
        if !self.is_node(node) || leaf as usize >= self.log.cluster().leaves.len() {
            return false;
        }
        let known = self.log.known();
        let action = self.monitor_action(leaf, node, interval_ms);
        let outcome = Outcome::Code(code);
        interval_ms > 0
            && matches!(known.node_state(node), NodeState::Online)
            && known.may(leaf, node)
            && is_bad(action, outcome)
            && !is_ignored(self.log.cluster(), action, outcome)
            && !self.flight().is_busy(leaf, node)
    }

    /// Whether the answer applies now.
    pub(crate) fn applies(&self, answer: Answer) -> bool
        ensures { result ≡ answering.applies_after self.now.cluster (journal (transition_in self.now) self.now.since) (in_flight_by_number (transition_in self.now) self.now.since)
            (count_from_outside (transition_in self.now) self.now.since) answer }
    {
        match answer {
            Answer::End { number, .. } | Answer::Timeout { number } => {
                self.flight().contains(number)
            }
            Answer::Lost { node } => self.may_be_told() && self.may_leave(node),
            Answer::Up { node } => self.may_be_told() && self.may_join(node),
            Answer::Quorum { .. } => self.may_be_told(),
            Answer::Wait { seconds } => self.may_be_told() && self.may_pass(seconds),
            Answer::Report {
                node,
                leaf,
                interval_ms,
                code,
            } => self.may_be_told() && self.tells_failure(node, leaf, interval_ms, code),
        }
    }
}
