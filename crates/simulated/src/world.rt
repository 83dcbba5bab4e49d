//! A simulated cluster that answers.

ghost use Rattle.std.specs.Prelude.{◌≡◌, ◌<◌, ◌^◌, true, IfOk, None, length};
ghost use Rattle.cluster_types.specs.Journals.{moment_of};
ghost use Rattle.cluster_types.specs.Valid.{KeepsLimits};
ghost use Rattle.state_unpack.specs.Knowledge.{has_few_monitors};
ghost use Rattle.simulated.specs.Worlds.{Agrees};
ghost use Rattle.simulated.specs.KeptReality.{ShowsWorld};
ghost use Rattle.simulated.specs.RealWorlds.{RealWorld, found_at};

use crate::first::first_reality;
use crate::{Real, Reality, Turn};
use cluster_types::{Action, Cluster, Journal, LeafId, NoMemory, NodeId};
use graph_exec::{InFlight, Next, Outcomes};
use std::alloc::Global;
use std::marker::Model;

/// A simulated cluster as a source of outcomes: what its nodes and agents do is drawn, by its number. It never fails, and
/// each of its answers applies.
#[derive(Drop)]
pub struct World<'c> {
    reality: Reality<'c>,
    /// How many events the journal had with which it began.
    since: usize,
    /// How often it was asked, and how many answers it has given.
    asked: u64,
    answered: u64,
}

impl<'c> Model for World<'c> {
    ghost use Rattle.simulated.specs.Worlds.{WorldOf};

    ghost Value = { WorldOf };

    ghost view = { λ k. record { reality = k.reality; since = k.since; asked = k.asked; answered = k.answered } };
}

impl<'c> World<'c> {
    /// The simulated cluster of a number, as a journal leaves it. It takes all memory here. It asks for a cluster within the
    /// limits, of which each leaf has at most eight recurring monitors, as each valid cluster is, and for a moment in seconds
    /// that fits 64 bits.
    pub fn new(
        alloc: Global,
        cluster: &'c Cluster,
        journal: &Journal,
        number: u32,
    ) -> Result<World<'c>, NoMemory>
        requires limits { KeepsLimits cluster.now }
        requires monitors { has_few_monitors cluster.now ≡ true }
        requires moment { moment_of journal.now.events < 2 ^ 64 }
        ensures agrees { IfOk result (λ world. Agrees world cluster.now journal.now.events 0) }
        ensures number { IfOk result (λ world. world.reality.number ≡ number) }
        ensures since { IfOk result (λ world. world.since ≡ length journal.now.events) }
    {
        let reality = first_reality(alloc, cluster, journal.events.as_slice(), number)?;
        Ok(World {
            reality,
            since: journal.events.len(),
            asked: 0,
            answered: 0,
        })
    }

    /// What a leaf really does on a node; where the cluster has no such cell, nothing.
    pub fn real(&self, leaf: LeafId, node: NodeId) -> Real
        ensures { (w : RealWorld) → ShowsWorld self.now.reality w → result ≡ found_at self.now.reality.cluster w.cells leaf node }
    {
        self.reality.real(leaf, node)
    }
}

impl Outcomes for World<'_> {
    ghost use Rattle.simulated.specs.Worlds.{IsOfOne};
    ghost use Rattle.simulated.specs.Inner.WorldLaws.{agrees_anew, one_itself, one_then};

    ghost rest = { λ _. None };

    ghost whole = { λ _. true };

    ghost faults = { λ _. 0 };

    ghost asked = { λ k. k.asked };

    ghost answered = { λ k. k.answered };

    ghost careful = { λ _. true };

    ghost steady = { λ _. true };

    ghost over = { λ _. true };

    ghost at_hand = { λ _. Unit {0} };

    ghost broke = { λ _. ⊥ };

    ghost agrees = { Agrees };

    ghost follows = { IsOfOne };

    ghost said = { λ old new _. IsOfOne old new };

    ghost anew = { agrees_anew };

    ghost from_itself = { one_itself };

    ghost from_before = { one_then };

    ghost from_said = { λ _ _ _ _ said. said };

    ghost said_later = { λ first middle last _. one_then first middle last };

    fn begun(&mut self, _number: u32, action: Action) {
        self.reality.begin(action);
    }

    fn is_ready(&self) -> bool {
        true
    }

    fn next(&mut self, flight: &InFlight) -> Next {
        self.asked = self.asked.saturating_add(1);
        let count = flight.count();
        if count == 0 {
            return Next::Silent;
        }
        self.answered = self.answered.saturating_add(1);
        match self.reality.turn(count) {
            Turn::Leaves { node } => Next::Answer(self.reality.leave(node)),
            Turn::Joins { node } => Next::Answer(self.reality.join(node)),
            Turn::Ends { place, fate } => {
                let (number, action) = flight.at(place);
                Next::Answer(self.reality.end(number, action, fate))
            }
        }
    }
}
