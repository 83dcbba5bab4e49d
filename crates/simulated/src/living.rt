//! The run of a simulated cluster, transition by transition.

ghost use Rattle.std.specs.Prelude.{◌≡◌, ◌<◌, ◌^◌, IfOk, length};
ghost use Rattle.cluster_types.specs.Journals.{moment_of};
ghost use Rattle.cluster_types.specs.Safety.{IsAtRest};
ghost use Rattle.cluster_types.specs.Valid.{IsValid};
ghost use Rattle.simulated.specs.Worlds.{Agrees};
ghost use Rattle.simulated.specs.Inner.WorldTexts.{HasLived};

use crate::World;
use cluster_types::{Cluster, Journal, Run};
use faults::NoMemory;
use graph_exec::{ReplayStop, replay};
use std::alloc::Global;

/// How many transitions are made at most.
const MOST_TRANSITIONS: u32 = 1000;

/// A run that a simulated cluster has lived, and whether it is over.
#[derive(Drop)]
pub(crate) struct Lived {
    pub run: Run,
    pub over: bool,
}

/// Lets the simulated cluster live from the journal on with which it was made, until its run is over or too long.
pub(crate) fn live(
    alloc: Global,
    cluster: &Cluster,
    journal: Journal,
    world: &mut World<'_>,
) -> Result<Lived, NoMemory>
    requires valid { IsValid cluster.now }
    requires at_rest { IsAtRest journal.events }
    requires moment { moment_of journal.events < 2 ^ 64 }
    requires agrees { Agrees world.old cluster.now journal.events 0 }
    requires since { world.old.since ≡ length journal.events }
    ensures { IfOk result (HasLived cluster.now journal world.old.reality.number world.new) }
{
    match replay(alloc, cluster, journal, world, MOST_TRANSITIONS) {
        Ok(run) => Ok(Lived { run, over: true }),
        Err(ReplayStop::Most(run)) => Ok(Lived { run, over: false }),
        Err(ReplayStop::NoMemory) => Err(NoMemory),
        Err(ReplayStop::Unexpected(_, _)) => unreachable!(),
        Err(ReplayStop::SourceFault(_)) => unreachable!(),
        Err(ReplayStop::Stopped(_)) => unreachable!(),
    }
}
