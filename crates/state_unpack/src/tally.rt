//! What some failures of a cell come to.

ghost use Rattle.std.specs.Prelude.{◌≡◌};
ghost use Rattle.cluster_types.specs.Fields as fields;
ghost use Rattle.state_unpack.specs.Inner.Tally as spec;

use crate::failing::{ended_at, has_code, is_failure, is_outcome, is_start, wants};
use cluster_types::exit_codes::{
    ERR_ARGS, ERR_CONFIGURED, ERR_INSTALLED, ERR_PERM, ERR_UNIMPLEMENTED,
};
use cluster_types::{Cluster, Event, LeafId, NodeId, OnFail};
use score::Score;

/// The greatest fail count, which is INFINITY.
const MOST: u32 = 1_000_000;

/// Exit codes after which a resource isn't tried again on the node (OCF Resource Agent API 1.1; Pacemaker Administration, hard errors).
const HARD: &[u8] = &[ERR_ARGS, ERR_UNIMPLEMENTED, ERR_PERM, ERR_INSTALLED];

/// The exit code after which it isn't tried again anywhere (likewise, fatal errors).
const FATAL: &[u8] = &[ERR_CONFIGURED];

/// What some failures of a cell come to, in their order.
#[derive(Clone, Copy)]
pub struct Tally {
    /// How many they are, cut at 1,000,000.
    pub count: u32,
    /// Whether one is a start.
    pub start: bool,
    /// Whether one has an exit code after which the resource isn't tried again on the node.
    pub hard: bool,
    /// Whether one has an exit code after which it isn't tried again anywhere.
    pub fatal: bool,
    /// Whether one keeps the resource stopped everywhere.
    pub stop: bool,
    /// Whether one wants the node fenced.
    pub fence: bool,
    /// Whether the last of them blocks the resource on the node.
    pub block: bool,
    /// When the last of them ended, in seconds.
    pub last: Option<u64>,
}

/// Whether more than the timeout has passed at the moment `now`, in seconds, since the last failure. A timeout of 0 never passes. Moments are whole
/// seconds, so its whole seconds are enough to tell.
fn has_passed(timeout_ms: u32, now: u128, last: Option<u64>) -> bool
    ensures { result ≡ spec.has_passed timeout_ms now last }
{
    match last {
        Some(ended) => timeout_ms > 0 && now > u128::from(ended) + u128::from(timeout_ms / 1000),
        None => false,
    }
}

/// Whether the count reaches the threshold, which is never so at a threshold of 0 or less.
fn reaches(count: u32, threshold: Score) -> bool
    ensures { result ≡ spec.reaches_threshold count threshold }
{
    threshold.points > 0 && i64::from(threshold.points) <= i64::from(count)
}

impl Tally {
    /// That of no failure.
    pub fn none() -> Tally
        ensures { result ≡ spec.no_tally }
    {
        Tally {
            count: 0,
            start: false,
            hard: false,
            fatal: false,
            stop: false,
            fence: false,
            block: false,
            last: None,
        }
    }

    /// That with one more failure.
    fn with(self, cluster: &Cluster, event: Event) -> Tally
        ensures { result ≡ spec.with_failure cluster.now self event }
    {
        Tally {
            count: self.count.saturating_add(1).min(MOST),
            start: self.start || is_start(event),
            hard: self.hard || has_code(HARD, event),
            fatal: self.fatal || has_code(FATAL, event),
            stop: self.stop || wants(OnFail::Stop, cluster, event),
            fence: self.fence || wants(OnFail::Fence, cluster, event),
            block: wants(OnFail::Block, cluster, event),
            last: Some(ended_at(event)),
        }
    }

    /// That of the failures of a cell that are in force after one more event, if this one is that of those before it.
    pub fn after(self, cluster: &Cluster, leaf: LeafId, node: NodeId, event: Event) -> Tally
        ensures { result ≡ spec.tally_after cluster.now leaf node self event }
    {
        if event.is_reset(leaf, node) {
            Tally::none()
        } else if is_outcome(cluster, leaf, node, event) && is_failure(event) {
            self.with(cluster, event)
        } else {
            self
        }
    }

    /// That of the failures of the leaf that count at the moment `now`, in seconds, if this one is that of those in force: none once the failure
    /// timeout has passed since the last of them.
    pub fn counted(self, cluster: &Cluster, leaf: LeafId, now: u128) -> Tally
        ensures { result ≡ spec.tally_counted cluster.now leaf now self }
    {
        if has_passed(cluster.failure_timeout(leaf), now, self.last) {
            Tally::none()
        } else {
            self
        }
    }

    /// The fail count by the failures that count.
    pub fn fail_count(self, cluster: &Cluster) -> u32
        ensures { result ≡ spec.fail_count_of cluster.now self }
    {
        if cluster.properties.start_fatal && self.start {
            MOST
        } else {
            self.count
        }
    }

    /// Whether the failures of the leaf that count on a node ban it from there, whatever happened on other nodes.
    pub fn bans(self, cluster: &Cluster, leaf: LeafId) -> bool
        ensures { result ≡ spec.bans cluster.now leaf self }
    {
        reaches(self.fail_count(cluster), cluster.threshold(leaf)) || self.hard
    }
}
