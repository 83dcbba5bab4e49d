//! Places in the order of numbers.

ghost use Rattle.std.specs.Prelude.{◌≡◌};
ghost use Rattle.cluster_types.specs.Numbers.{place};
ghost use Rattle.loops.specs.Inner.Phases.{phase_number};

use cluster_types::{LeafId, NodeId};
use std::marker::Model;

/// What is done at about the same time, in the order in which it is done.
#[derive(Clone, Copy)]
pub enum Phase {
    Fences,
    Probes,
    /// Stops and demotes.
    Stops,
    /// Migrations, on their sources.
    Sends,
    /// Migrations, on their targets.
    TakingsIn,
    /// The stops of the leaves that migrate.
    SourceStops,
    /// Starts and promotes.
    Starts,
    Monitors,
}

/// Where an action stands in the order of numbers: by phase, rank, leaf, node and interval, each 0 where the action has none. Of two
/// places the lesser one comes first.
#[derive(Clone, Copy, Debug, PartialEq, Eq, PartialOrd, Ord)]
pub struct Place {
    pub(crate) phase: u32,
    pub(crate) rank: u32,
    pub(crate) leaf: LeafId,
    pub(crate) node: NodeId,
    pub(crate) interval_ms: u32,
}

impl Model for Place {
    ghost use Rattle.cluster_types.specs.Numbers.{ActionPlace as PlaceOf, place};

    ghost Value = { PlaceOf };

    ghost view = { λ p. place p.phase p.rank p.leaf p.node p.interval_ms };

    ghost inverse = { λ p. record { phase = p.phase; rank = p.ranked; leaf = p.leaf; node = p.node; interval_ms = p.interval } };
}

impl Place {
    /// The first place of a phase.
    pub(crate) fn first_of(phase: Phase) -> Place
        ensures { result ≡ place (phase_number phase) 0 0 0 0 }
    {
        Place {
            phase: phase as u32,
            rank: 0,
            leaf: 0,
            node: 0,
            interval_ms: 0,
        }
    }
}
