//! What a journal tells of a cluster.

ghost use Rattle.std.specs.Prelude.{◌≡◌, ◌<◌, ◌^◌, true, IfOk};
ghost use Rattle.cluster_types.specs.Journals as journals;
ghost use Rattle.cluster_types.specs.UnpackedStates.{states_of};
ghost use Rattle.cluster_types.specs.Valid.{KeepsLimits};
ghost use Rattle.state_unpack.specs.Knowledge.{has_few_monitors};

use crate::known_states::Known;
use cluster_types::{Cluster, Journal, NoMemory, States};
use std::alloc::Global;

/// What a journal tells of a cluster: the states of its nodes and of each leaf on each node, where leaves may run and may be promoted, what bans
/// them, which of their monitors are running, which leaves a failure keeps stopped, quorum and the moment (Pacemaker Explained, operation
/// history; the states are a rule of this project). It asks for a cluster within the limits, of which each leaf has at most eight recurring monitors,
/// as each valid cluster is, and for a moment that fits 64 bits. The events are gone through once, however many cells there are.
pub fn unpack(alloc: Global, cluster: &Cluster, journal: &Journal) -> Result<States, NoMemory>
    requires limits { KeepsLimits cluster.now }
    requires monitors { has_few_monitors cluster.now ≡ true }
    requires moment { journals.moment_of journal.now.events < 2 ^ 64 }
    ensures { IfOk result (λ states. states ≡ states_of cluster.now journal.now.events journal.now.promotions) }
{
    let known = Known::new(alloc, cluster, journal.events.as_slice())?;
    known.states(alloc, journal.promotions.as_slice())
}
