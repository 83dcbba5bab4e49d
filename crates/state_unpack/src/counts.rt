//! Fail counts and bans.

ghost use Rattle.std.specs.Prelude.{◌≡◌};
ghost use Rattle.cluster_types.specs.Failures as spec;
ghost use Rattle.cluster_types.specs.Valid.{KeepsLimits};
ghost use Rattle.state_unpack.specs.Tally.{tally_of};

use crate::tally::Tally;
use cluster_types::{Cluster, Event, Journal, LeafId, NodeId, moment_of};

/// What the failures of the cell that are in force come to.
fn in_force(cluster: &Cluster, events: &[Event], leaf: LeafId, node: NodeId) -> Tally
    ensures { result ≡ tally_of cluster.now (spec.failures_in_force cluster.now leaf node events.now) }
{
    let mut tally = Tally::none();
    for event in events {
        tally = tally.after(cluster, leaf, node, *event);
    }
    tally
}

/// What the failures of the cell that count come to.
fn counted(cluster: &Cluster, events: &[Event], leaf: LeafId, node: NodeId) -> Tally
    ensures { result ≡ tally_of cluster.now (spec.counted cluster.now leaf node events.now) }
{
    in_force(cluster, events, leaf, node).counted(cluster, leaf, moment_of(events))
}

/// How often the leaf failed on the node, up to 1,000,000, which is INFINITY.
///
/// Bad outcomes count since the node last joined and the cell was last cleaned up, those of probes among them, but for ignored ones. None counts
/// once the failure timeout has passed since the last of them. A failed start alone is INFINITY where `start-failure-is-fatal` is true (Pacemaker
/// Explained, "Handling Resource Failure"; that probes count, that a failed stop counts as one and that the failures of a cell are forgotten at once
/// are rules of this project).
pub fn failures(cluster: &Cluster, journal: &Journal, leaf: LeafId, node: NodeId) -> u32
    ensures { result ≡ spec.fail_count cluster.now leaf node journal.now.events }
{
    counted(cluster, journal.events.as_slice(), leaf, node).fail_count(cluster)
}

/// Whether a failure of the leaf that counts on some node keeps it from all nodes.
fn is_fatal_somewhere(cluster: &Cluster, events: &[Event], leaf: LeafId) -> bool
    requires { KeepsLimits cluster.now }
    ensures { result ≡ spec.has_somewhere (spec.has_code spec.fatal_codes) cluster.now leaf events.now }
{
    (0..cluster.nodes.len() as u32).any(|node| counted(cluster, events, leaf, node).fatal)
}

/// Whether the leaf is banned from the node: its fail count there reaches `migration-threshold`, if that is above 0, a failure that counts there has
/// an exit code from 2 to 5, or one that counts on any node has the exit code 6 (Pacemaker Explained, "migration-threshold"; Pacemaker
/// Administration, "How are OCF Return Codes Interpreted?"). A timeout does neither of the last two. It asks for a cluster within the
/// limits.
pub fn banned(cluster: &Cluster, journal: &Journal, leaf: LeafId, node: NodeId) -> bool
    requires { KeepsLimits cluster.now }
    ensures { result ≡ spec.is_banned cluster.now leaf node journal.now.events }
{
    let events = journal.events.as_slice();
    counted(cluster, events, leaf, node).bans(cluster, leaf)
        || is_fatal_somewhere(cluster, events, leaf)
}
